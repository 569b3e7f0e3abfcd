// The record of an id taken out of a store: the records after it move down.
ghost use Rattle.std.specs.Prelude.{◌≡◌, ◌++◌, ◌+◌, take, drop};
ghost use Rattle.records.specs.Records.{now_of, records_of, store_of};
ghost use Rattle.records.specs.Soundness.{IsStore};
ghost use Rattle.store.specs.Removing.{removed};
ghost use Rattle.store.specs.Needs.{RemoveAsked};

use super::finding::index_of;
use super::moving::move_down;
use super::writing::set_held;
use records::{RECORD_WORDS, held_of};

// Takes the record with i before it out: the records after it move down, and the words of the last one are zeroed.
#[tactic(auto, using(records::proofs::PlacesLaws::words_room))]
fn remove_at(store: &mut [i32], i: usize)
    requires { RemoveAsked store.old i }
    ensures { store.new ≡ store_of (now_of store.old) (take i (records_of store.old) ++ drop (i + 1) (records_of store.old)) }
{
    let n = held_of(store);
    let start = RECORD_WORDS * i + RECORD_WORDS;
    let last = RECORD_WORDS * n;
    let end = last + RECORD_WORDS;
    move_down(store, start, end);
    store[last..end].fill(0);
    set_held(store, n - 1);
}

// Takes the record of an id out, where there is one.
#[tactic(auto, using(records::proofs::PlacesLaws::store_room))]
pub fn remove(store: &mut [i32], id: i32)
    requires { IsStore store.old }
    ensures { store.new ≡ store_of (now_of store.old) (removed id (records_of store.old)) }
{
    if let Some(i) = index_of(store, id) {
        remove_at(store, i);
    }
}
