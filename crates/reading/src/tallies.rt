// The records of a run read: the listed ones are counted, with their cells, and their ids written one behind the other.
ghost use Rattle.std.specs.Prelude.{◌≡◌, cond};
ghost use Rattle.grid.specs.Reports.{is_listed};
ghost use Rattle.records.specs.Records.{records_of};
ghost use Rattle.reading.specs.Runs.{records_in};
ghost use Rattle.reading.specs.Tallies.{counted, CanCount, records_between, RunFits, RunAsked, RunRead};

use crate::runs::part_of;
use crate::timeslices::{Lists, Timeslice};
use grid::{Query, When};
use records::{RECORD_WORDS, Record};
use std::ops::Range;

// Counts on the way: floats listed, useful cells, and the key of the last float listed, or -1, which is no key: over 1,024 records an `Option` in its place
// took a tenth longer (4.1 microseconds against 3.8, the pass written in Rust).
#[derive(Clone, Copy)]
pub struct Tally {
    pub listed: usize,
    pub useful: usize,
    pub last: i32,
}

impl Tally {
    // A record counted where it is listed, without a branch.
    fn count(self, r: Record, is_listed: bool) -> Tally
        requires { CanCount self }
        ensures { result ≡ cond is_listed (counted self r) self }
    {
        let is_useful = is_listed & (r.key != self.last);
        Tally {
            listed: self.listed + usize::from(is_listed),
            useful: self.useful + usize::from(is_useful),
            last: if is_listed { r.key } else { self.last },
        }
    }
}

// A pass over the records of one run. Every id is written behind those listed so far, and only a listed one moves the place on: the loop has a branch only
// where the test has one.
fn read_by<L: Lists>(words: &[i32], test: L, ids: &mut [u16], before: Tally) -> Tally
    requires { RunFits words.now (L.query test) ids.old before }
    ensures { RunRead (is_listed (L.query test)) (records_in words.now) ids.old before ids.new result }
{
    let mut tally = before;
    for record in words.chunks_exact(RECORD_WORDS) {
        let r = Record::read_from(record, 0);
        ids[tally.listed] = r.report.id as u16;
        tally = tally.count(r, test.lists(r.report));
    }
    tally
}

// The kind of query is settled before the pass.
fn read_run(words: &[i32], query: Query, ids: &mut [u16], before: Tally) -> Tally
    requires { RunFits words.now query ids.old before }
    ensures { RunRead (is_listed query) (records_in words.now) ids.old before ids.new result }
{
    match query.when {
        When::At(time) => {
            let rect = query.rect;
            read_by(words, Timeslice { rect, time }, ids, before)
        }
        When::During(_, _) => read_by(words, query, ids, before),
    }
}

// Some records of a store read, through the part of the store that is their words.
pub fn read_between(
    store: &[i32],
    run: Range<usize>,
    query: Query,
    ids: &mut [u16],
    before: Tally,
) -> Tally
    requires { RunAsked store.now run query ids.old before }
    ensures { RunRead (is_listed query) (records_between run.start run.end (records_of store.now)) ids.old before ids.new result }
{
    read_run(&store[part_of(run)], query, ids, before)
}
