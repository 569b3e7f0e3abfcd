// Words of a store written: a record, the count of floats held, the first records alone kept, and the time.
ghost use Rattle.std.specs.Prelude.{◌≡◌, ◌++◌, ◌≤◌, ◌+◌, pos, length, take, drop, set};
ghost use Rattle.records.specs.Records.{record_words, records_of, words_of, store_of};
ghost use Rattle.records.specs.Soundness.{IsStore};
ghost use Rattle.store.specs.Needs.{HeldAsked, KeepAsked, first_kept};

use records::{RECORD_WORDS, Record};

// Writes a record over the seven words at k.
pub fn write_record(words: &mut [i32], k: usize, r: Record)
    requires { k + record_words ≤ length words.old }
    ensures { words.new ≡ take k words.old ++ (words_of r ++ drop (k + record_words) words.old) }
{
    words[k] = r.key;
    words[k + 1] = r.report.id;
    words[k + 2] = r.report.t;
    words[k + 3] = r.report.x;
    words[k + 4] = r.report.y;
    words[k + 5] = r.report.vx;
    words[k + 6] = r.report.vy;
}

// Sets the count of floats held, in record 0.
pub fn set_held(store: &mut [i32], n: usize)
    requires { HeldAsked store.old n }
    ensures { store.new ≡ set store.old 1 (pos n) }
{
    store[1] = n as i32;
}

// Keeps the first k of n records: the words of the others are zeroed, and the count is set.
pub fn keep_first(store: &mut [i32], k: usize, n: usize)
    requires { KeepAsked store.old k n }
    ensures { store.new ≡ first_kept k n store.old }
{
    let start = RECORD_WORDS * k + RECORD_WORDS;
    let end = RECORD_WORDS * n + RECORD_WORDS;
    store[start..end].fill(0);
    set_held(store, k);
}

// Sets the time, in record 0.
#[tactic(auto, using(records::proofs::PlacesLaws::store_room))]
pub fn set_now(store: &mut [i32], t: i32)
    requires { IsStore store.old }
    ensures { store.new ≡ store_of t (records_of store.old) }
{
    store[0] = t;
}
