// The records of a slot are one run of the sorted store: where the first record from a key on stands, which records the run of a slot has, and which part of
// the store the words of some records are.
ghost use Rattle.std.specs.Prelude.{◌≡◌};
ghost use Rattle.records.specs.Records.{records_of};
ghost use Rattle.records.specs.Soundness.{IsStore};
ghost use Rattle.reading.specs.Runs.{first_from, SlotAsked, RunOfSlot, PlacesAsked, PartOf};

use grid::CELLS;
use records::order::key_of;
use records::{RECORD_WORDS, held_of};
use std::ops::Range;

// Keys of a slot.
const SLOT_KEYS: i32 = CELLS as i32;

// How many records stand before the first whose key is at least the given one: binary search.
#[tactic(auto, using(records::proofs::PlacesLaws::store_room))]
fn first_from(store: &[i32], key: i32) -> usize
    requires { IsStore store.now }
    ensures { result ≡ first_from key (records_of store.now) }
{
    let end = RECORD_WORDS * held_of(store) + RECORD_WORDS;
    let (records, _) = store[RECORD_WORDS..end].as_chunks::<RECORD_WORDS>();
    records.partition_point(|words| words[0] < key)
}

// The records of a slot: from the first with one of its keys up to the first past them.
pub fn run_of(store: &[i32], slot: usize) -> Range<usize>
    requires { SlotAsked store.now slot }
    ensures { RunOfSlot store.now slot result }
{
    let low = key_of(slot, 0);
    first_from(store, low)..first_from(store, low + SLOT_KEYS)
}

// The words of some records.
pub fn part_of(run: Range<usize>) -> Range<usize>
    requires { PlacesAsked run }
    ensures { PartOf run result }
{
    RECORD_WORDS * run.start + RECORD_WORDS..RECORD_WORDS * run.end + RECORD_WORDS
}
