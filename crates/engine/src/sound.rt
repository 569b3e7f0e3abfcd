// The calls over words known to be sound, which they do not test again: the checks that go by the numbers and the records, then the work. What
// each answers and leaves is what the public call of its name does. A call's answer is known before anything is written.
ghost use Rattle.std.specs.Prelude.{◌≡◌, true, ◌<◌, length};
ghost use Rattle.records.specs.Records.{records_of};
ghost use Rattle.records.specs.Words.{words, are_sound};
ghost use Rattle.words.specs.Needs.{CanStep};
ghost use Rattle.words.specs.Words.{stepped};
ghost use Rattle.ledger.specs.Refusals.{time_of};
ghost use Rattle.ledger.specs.declared.Answer.TheVariants.{Accepted};
ghost use Rattle.asking.specs.Asking.{GivesList};
ghost use Rattle.engine.specs.Index.{clock_out, changed, change_out, ask_out, call_out};
ghost use Rattle.engine.specs.Gives.{Gives, GivesCall};
ghost use Rattle.engine.specs.Sound.{CanMakeWith, CanApply, held_after, CanCount, Done};

use crate::checks::{ask_verdict, change_verdict, clock_verdict};
use ledger::{Answer, Ask, Call, Change};

// The answer of an accepted open: the floats held after it.
pub fn accepted(store: &[i32]) -> Answer
    requires { 1 < length store.now }
    ensures { result ≡ Accepted (length (records_of store.now)) }
{
    Answer::Accepted(records::held_of(store))
}

// A clock step that passed its check.
fn make_step(store: &mut [i32], table: &mut [i16], t: i32) -> Answer
    requires { CanStep (words store.old table.old) t }
    ensures { Done (stepped t (words store.old table.old)) result (words store.new table.new) }
{
    let left = retiring::left_at(&store[..], t);
    words::step(store, table, t, left);
    Answer::Accepted(left)
}

// The clock goes to time t.
pub fn clock(store: &mut [i32], table: &mut [i16], t: i32) -> Answer
    requires { are_sound (words store.old table.old) ≡ true }
    ensures { Gives (clock_out (words store.old table.old) t) result (words store.new table.new) }
{
    match clock_verdict(&store[..], t) {
        Err(why) => Answer::Refused(why),
        Ok(()) => make_step(store, table, t),
    }
}

// What a change does after the clock step.
fn apply(store: &mut [i32], table: &mut [i16], c: Change)
    requires { CanApply (words store.old table.old) c }
    ensures { words store.new table.new ≡ changed c (words store.old table.old) }
{
    match c {
        Change::Add(r) => words::place(store, table, r),
        Change::Report(r) => words::replace(store, table, r),
        Change::Drop(id, _) => words::take_out(store, table, id),
    }
}

// The floats held after a change that passed its checks, of those that stay at its clock step.
fn held_after(c: Change, left: usize) -> usize
    requires { CanCount c left }
    ensures { result ≡ held_after c left }
{
    match c {
        Change::Add(_) => left + 1,
        Change::Report(_) => left,
        Change::Drop(_, _) => left - 1,
    }
}

// A change that passed its checks: the clock step, then what it does. `left` is how many floats stay at the step.
fn make_change(store: &mut [i32], table: &mut [i16], c: Change, left: usize) -> Answer
    requires { CanMakeWith (words store.old table.old) c left }
    ensures { Done (changed c (stepped (time_of c) (words store.old table.old))) result (words store.new table.new) }
{
    let held = held_after(c, left);
    words::step(store, table, c.time(), left);
    apply(store, table, c);
    Answer::Accepted(held)
}

// A float is added, reports again or is dropped.
pub fn change(store: &mut [i32], table: &mut [i16], c: Change) -> Answer
    requires { are_sound (words store.old table.old) ≡ true }
    ensures { Gives (change_out (words store.old table.old) c) result (words store.new table.new) }
{
    let left = retiring::left_at(&store[..], c.time());
    match change_verdict(&store[..], c, left) {
        Err(why) => Answer::Refused(why),
        Ok(()) => make_change(store, table, c, left),
    }
}

// The floats that a query wants, by a method's choice of cells. The ids are written in front of the list.
pub fn ask(store: &[i32], table: &[i16], list: &mut [u16], ask: Ask) -> Answer
    requires { are_sound (words store.now table.now) ≡ true }
    ensures { GivesList (ask_out (words store.now table.now) ask list.old) result list.new }
{
    match ask_verdict(store, ask) {
        Err(why) => Answer::Refused(why),
        Ok(()) => asking::ask_sound(store, table, list, ask),
    }
}

// Any call after open. Only an ask touches the list.
pub fn call(store: &mut [i32], table: &mut [i16], list: &mut [u16], call: Call) -> Answer
    requires { are_sound (words store.old table.old) ≡ true }
    ensures { GivesCall (call_out (words store.old table.old) call list.old) result (words store.new table.new) list.new }
{
    match call {
        Call::Clock(t) => clock(store, table, t),
        Call::Change(c) => change(store, table, c),
        Call::Ask(a) => ask(&store[..], &table[..], list, a),
    }
}
