// The record store of document 01, "Store and table": signed 32-bit words in records of 7, sorted by key, then id.
#![tactic(auto)]

ghost use Rattle.std.specs.Prelude.{◌≡◌, ◌<◌, ◌≤◌, ◌+◌, ◌^◌, nat_abs, length};
ghost use Rattle.records.specs.Records.{record_from, now_of, held_of};

use grid::Report;

pub mod order;
pub mod soundness;

// The most floats held.
pub const CAPACITY: usize = 1024;

// The words of a record, and of the store: record 0, then one for each float.
pub const RECORD_WORDS: usize = 7;

pub const STORE_WORDS: usize = RECORD_WORDS * (CAPACITY + 1);

// The words of the store but record 0.
pub const FLOAT_WORDS: usize = RECORD_WORDS * CAPACITY;

// A held float: its key, which is slot x 1,024 + curve number, and its report.
#[derive(Clone, Copy)]
pub struct Record {
    pub key: i32,
    pub report: Report,
}

impl Record {
    // The record whose first word stands at k.
    pub fn read_from(words: &[i32], k: usize) -> Record
        requires { k + 6 < length words.now }
        ensures { result ≡ record_from words.now k }
    {
        let report = Report {
            id: words[k + 1],
            t: words[k + 2],
            x: words[k + 3],
            y: words[k + 4],
            vx: words[k + 5],
            vy: words[k + 6],
        };
        Record {
            key: words[k],
            report,
        }
    }
}

// The time of a store.
pub fn now_of(store: &[i32]) -> i64
    requires { 0 < length store.now }
    ensures value { result ≡ now_of store.now }
    ensures result_bound { nat_abs result ≤ 2 ^ 31 }
{
    i64::from(store[0])
}

// The floats held: none where the number is below 0, as the definition says of every store.
pub fn held_of(store: &[i32]) -> usize
    requires { 1 < length store.now }
    ensures { result ≡ held_of store.now }
{
    store[1].max(0) as usize
}
