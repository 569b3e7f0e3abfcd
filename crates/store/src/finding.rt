// Where a record stands in a store: the place for one to put in, and the record of an id.
ghost use Rattle.std.specs.Prelude.{◌≡◌, ◌≤◌, ◌+◌, ◌*◌, length};
ghost use Rattle.records.specs.Records.{record_words, record_from, held_of, records_of};
ghost use Rattle.store.specs.Finding.{place_of, has_that, found_at};
ghost use Rattle.store.specs.Needs.{PlaceOfAsked};

use records::order::precedes;
use records::{RECORD_WORDS, Record, held_of};

// Whether seven words are those of the record of an id.
fn has_id(words: &[i32], id: i32) -> bool
    requires { record_words ≤ length words.now }
    ensures { result ≡ has_that id (record_from words.now 0) }
{
    Record::read_from(words, 0).report.id == id
}

// How many records stand before the one of an id, where one has it.
pub fn index_of(store: &[i32], id: i32) -> Option<usize>
    requires { record_words * held_of store.now + record_words ≤ length store.now }
    ensures { result ≡ found_at id (records_of store.now) }
{
    let end = RECORD_WORDS * held_of(store) + RECORD_WORDS;
    let (records, _) = store[RECORD_WORDS..end].as_chunks::<RECORD_WORDS>();
    records.iter().position(|words| has_id(words, id))
}

// How many records stand before the place of r: binary search.
#[tactic(auto, using(records::proofs::PlacesLaws::words_room))]
pub fn place_of(store: &[i32], r: Record) -> usize
    requires { PlaceOfAsked store.now }
    ensures { result ≡ place_of r (records_of store.now) }
{
    let end = RECORD_WORDS * held_of(store) + RECORD_WORDS;
    let (records, _) = store[RECORD_WORDS..end].as_chunks::<RECORD_WORDS>();
    records.partition_point(|words| !precedes(r, Record::read_from(words, 0)))
}
