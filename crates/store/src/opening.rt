// The store of an index that was just opened.
ghost use Rattle.std.specs.Prelude.{◌≡◌, [], length};
ghost use Rattle.records.specs.Records.{store_words, store_of};

// That time, and no float held.
pub fn open_at(store: &mut [i32], t: i32)
    requires { length store.old ≡ store_words }
    ensures { store.new ≡ store_of t [] }
{
    store.fill(0);
    store[0] = t;
}
