// The second half of a clock step of a store's records, when those of silent floats are gone: those whose phase lives on stay as they are, the others are
// placed in the phase of the time. The time itself is set by `writing::set_now`.
ghost use Rattle.std.specs.Prelude.{◌≡◌, ◌-◌};
ghost use Rattle.ints.specs.Lists.{passing};
ghost use Rattle.rows.specs.Phases.{phase_of};
ghost use Rattle.records.specs.Records.{now_of, held_of, records_of, store_of, all_records};
ghost use Rattle.store.specs.Inserting.{inserted_all};
ghost use Rattle.store.specs.Widening.{widened_by_all};
ghost use Rattle.store.specs.Stepping.{placed_in, lives_on, moves, replaced, moved_records};
ghost use Rattle.store.specs.Needs.{ReportAsked, AreTimes, IsStep, TakeAsked, KeptFirst, Taken, PlaceAsked, StepAsked};

use super::sorting::put_all;
use super::widening::widen_all;
use super::writing::{keep_first, write_record};
use grid::{CurveNumbers, Report};
use records::order::{key_by, phase_of_key};
use records::{RECORD_WORDS, Record, held_of};
use rows::{is_live, phase_of};

// A clock step: from now to a time, and the phases in which the two lie.
#[derive(Clone, Copy)]
pub struct Step {
    pub now: i64,
    pub time: i64,
    pub from: usize,
    pub to: usize,
}

impl Step {
    pub fn between(now: i64, time: i64) -> Step
        requires { AreTimes now time }
        ensures { (result.now ≡ now) × (result.time ≡ time) × (IsStep result) }
    {
        Step {
            now,
            time,
            from: phase_of(now),
            to: phase_of(time),
        }
    }

    // Whether a record's phase lives on: it stays as it is.
    fn lives_on(self, r: Record) -> bool
        requires { IsStep self }
        ensures { result ≡ lives_on self.now self.time r }
    {
        is_live(self.to, phase_of_key(self.from, r.key))
    }
}

// A report placed in phase p, by the curve numbers that a pass holds.
fn place_by(curve: &CurveNumbers, p: usize, r: Report) -> Record
    requires { ReportAsked p r }
    ensures { result ≡ placed_in p r }
{
    Record {
        key: key_by(curve, p, r),
        report: r,
    }
}

pub fn place_in(p: usize, r: Report) -> Record
    requires { ReportAsked p r }
    ensures { result ≡ placed_in p r }
{
    place_by(&CurveNumbers::new(), p, r)
}

// One pass over the records: one that stays is written after those kept before it, any other to `dead`, placed in the phase of the time. Gives back how
// many are kept. The count and the words after the kept records stay as they are: `take_dead` sets them. (The pass of crate retiring is apart: see there.)
#[tactic(auto, using(records::proofs::PlacesLaws::store_room))]
fn keep_live(store: &mut [i32], step: Step, dead: &mut [i32]) -> usize
    requires { TakeAsked store.old step dead.old }
    ensures kept_first { KeptFirst (lives_on step.now step.time) store.old result store.new }
    ensures taken { Taken (phase_of step.time) (moves step.now step.time) (records_of store.old) (held_of store.old - result) dead.new }
{
    let curve = CurveNumbers::new();
    let mut k = 0;
    for i in 0..held_of(store) {
        let r = Record::read_from(store, RECORD_WORDS * i + RECORD_WORDS);
        if step.lives_on(r) {
            write_record(store, RECORD_WORDS * k + RECORD_WORDS, r);
            k += 1;
        } else {
            write_record(
                dead,
                RECORD_WORDS * (i - k),
                place_by(&curve, step.to, r.report),
            );
        }
    }
    k
}

// Takes the records that move out of the store, and writes them to `dead`, placed in the phase of the time. Gives back how many: `dead` has room for all of
// them, since the project has no heap.
#[tactic(auto, using(records::proofs::PlacesLaws::store_room))]
fn take_dead(store: &mut [i32], step: Step, dead: &mut [i32]) -> usize
    requires { TakeAsked store.old step dead.old }
    ensures store_after { store.new ≡ store_of (now_of store.old) (passing (lives_on step.now step.time) (records_of store.old)) }
    ensures taken { Taken (phase_of step.time) (moves step.now step.time) (records_of store.old) result dead.new }
{
    let n = held_of(store);
    let k = keep_live(store, step, dead);
    keep_first(store, k, n);
    n - k
}

// Puts the records of `dead` into the store, and widens the row of each.
fn place_dead(store: &mut [i32], table: &mut [i16], dead: &[i32])
    requires { PlaceAsked store.old table.old dead.now }
    ensures store_after { store.new ≡ store_of (now_of store.old) (inserted_all (all_records dead.now) (records_of store.old)) }
    ensures table_after { table.new ≡ widened_by_all table.old (all_records dead.now) }
{
    if dead.is_empty() {
        return;
    }
    widen_all(table, dead);
    put_all(store, dead);
}

// The records that move are placed in the phase of the time, and the row of each is widened. The time itself is set apart.
pub fn move_records(store: &mut [i32], table: &mut [i16], step: Step)
    requires { StepAsked store.old table.old step }
    ensures store_after { store.new ≡ store_of (now_of store.old) (moved_records step.now step.time (records_of store.old)) }
    ensures table_after { table.new ≡ widened_by_all table.old (replaced (phase_of step.time) (moves step.now step.time) (records_of store.old)) }
{
    let mut dead = [0i32; records::FLOAT_WORDS];
    let m = take_dead(store, step, &mut dead);
    place_dead(store, table, &dead[..RECORD_WORDS * m]);
}
