// Floats that retire at a clock step: document 02, A7. How many stay and whether a float is among them is found without writing; then the records of those
// that go are taken out. The rows of a float that goes stay as they are.
#![tactic(auto)]

ghost use Rattle.std.specs.Prelude.{◌≡◌, not, length};
ghost use Rattle.grid.specs.Reports.{is_silent, stays_at};
ghost use Rattle.records.specs.Records.{now_of, records_of, store_of};
ghost use Rattle.records.specs.Order.{has_id};
ghost use Rattle.records.specs.Soundness.{IsStore};
ghost use Rattle.store.specs.Needs.{KeptFirst};
ghost use Rattle.retiring.specs.Retiring.{kept};
ghost use Rattle.retiring.specs.Needs.{HasAsked, RetireAsked};

use records::{RECORD_WORDS, Record, held_of};
use store::finding::index_of;
use store::writing::{keep_first, write_record};

// How long a float may send nothing, in 64 bits. (`as`, since `From` is no constant function.)
const SILENCE: i64 = grid::SILENCE as i64;

// Where the time of the first record's report stands in a store.
const FIRST_TIME: usize = RECORD_WORDS + 2;

// Whether a float that reported at t stays when the clock steps to a time.
fn stays(time: i32, t: i32) -> bool
    ensures { result ≡ not (is_silent time t) }
{
    i64::from(time) < i64::from(t) + SILENCE
}

// How many floats stay when the clock steps to a time, in one pass without a branch: it looks at one word of each record.
#[tactic(auto, using(records::proofs::PlacesLaws::store_room))]
pub fn left_at(store: &[i32], time: i32) -> usize
    requires { IsStore store.now }
    ensures { result ≡ length (kept (stays_at time) (records_of store.now)) }
{
    let mut left = 0;
    for i in 0..held_of(store) {
        left += usize::from(stays(time, store[RECORD_WORDS * i + FIRST_TIME]));
    }
    left
}

// Whether the float of an id is held and stays when the clock steps to a time. A `match`: with `is_some_and` the goal `returns` stays open, since in a closure the
// range of the word that it reads is not known.
#[tactic(auto, using(records::proofs::PlacesLaws::store_room))]
pub fn has_left(store: &[i32], id: i32, time: i32) -> bool
    requires { HasAsked store.now }
    ensures { result ≡ has_id id (kept (stays_at time) (records_of store.now)) }
{
    match index_of(store, id) {
        Some(i) => stays(time, store[RECORD_WORDS * i + FIRST_TIME]),
        None => false,
    }
}

// One pass over the records: one that stays is written after those kept before it. Gives back how many are kept. The count and the words after them stay as
// they are: `keep_first` sets them. The pass of a clock step in crate store also writes each record that leaves: one function for both would be told what to
// do with those by a trait with a ghost member and two impls, since of what a closure writes nothing is known after its calls. That is no plainer.
#[tactic(auto, using(records::proofs::PlacesLaws::store_room))]
fn keep_staying(store: &mut [i32], time: i32) -> usize
    requires { IsStore store.old }
    ensures { KeptFirst (λ r. stays_at time r.report) store.old result store.new }
{
    let mut k = 0;
    for i in 0..held_of(store) {
        let r = Record::read_from(store, RECORD_WORDS * i + RECORD_WORDS);
        if stays(time, r.report.t) {
            write_record(store, RECORD_WORDS * k + RECORD_WORDS, r);
            k += 1;
        }
    }
    k
}

// Takes the records of silent floats out, where there are any: `left` is how many floats stay.
#[tactic(auto, using(records::proofs::PlacesLaws::store_room))]
pub fn retire(store: &mut [i32], time: i32, left: usize)
    requires { RetireAsked store.old time left }
    ensures { store.new ≡ store_of (now_of store.old) (kept (stays_at time) (records_of store.old)) }
{
    let n = held_of(store);
    if left == n {
        return;
    }
    let k = keep_staying(store, time);
    keep_first(store, k, n);
}
