// The changes of the lent words, store and table together: opened, stepped to a time, a report placed, a float taken out. What each asks of the
// words is in specs/Needs.antt, what it makes of them in specs/Words.antt.
// Store and table stay two references, as C lends them. A struct of both with methods was tried and is no plainer: each contract then says two facts
// more, that both references are still the caller's (`take_out` proves so); under a Model view the caller's words after the call are left unknown.
#![tactic(auto)]

ghost use Rattle.std.specs.Prelude.{◌≡◌};
ghost use Rattle.records.specs.Words.{words};
ghost use Rattle.words.specs.Words.{opened, moved_on, stepped, placed, taken_out};
ghost use Rattle.words.specs.Needs.{RightLengths, CanStep, CanRetire, CanMove, Moved, CanChange, CanPlace, CanReplace};

use grid::Report;
use records::order::phase_at;
use store::stepping::Step;

// That time, no float held, every row empty, whatever the words were.
pub fn open(store: &mut [i32], table: &mut [i16], t: i32)
    requires { RightLengths (words store.old table.old) }
    ensures { words store.new table.new ≡ opened t (words store.old table.old) }
{
    store::opening::open_at(store, t);
    rows::empty_table(table);
}

// The clock moves on to a time of a later phase: newly live phases emptied, then the floats of dead phases placed in the current one.
fn step_phase(store: &mut [i32], table: &mut [i16], s: Step)
    requires { CanMove (words store.old table.old) s }
    ensures { Moved store.old table.old s store.new table.new }
{
    rows::empty_newly_live(table, s.from, s.to);
    store::stepping::move_records(store, table, s);
}

// The clock moves on to time t with the floats that are held. In the same phase only the time changes.
fn move_on(store: &mut [i32], table: &mut [i16], t: i32)
    requires { CanStep (words store.old table.old) t }
    ensures { words store.new table.new ≡ moved_on t (words store.old table.old) }
{
    let s = Step::between(records::now_of(store), i64::from(t));
    if s.to <= s.from {
        store::writing::set_now(store, t);
        return;
    }
    step_phase(store, table, s);
    store::writing::set_now(store, t);
}

// The clock step to time t: silent floats retire, then the clock moves on with the others. `left` is how many those are.
pub fn step(store: &mut [i32], table: &mut [i16], t: i32, left: usize)
    requires { CanRetire (words store.old table.old) t left }
    ensures { words store.new table.new ≡ stepped t (words store.old table.old) }
{
    retiring::retire(store, t, left);
    move_on(store, table, t);
}

// A report placed in the phase of its time: its record put in, its row widened.
pub fn place(store: &mut [i32], table: &mut [i16], r: Report)
    requires { CanPlace (words store.old table.old) r }
    ensures { words store.new table.new ≡ placed r (words store.old table.old) }
{
    let new = store::stepping::place_in(phase_at(r.t), r);
    store::inserting::insert(store, new);
    store::widening::widen(table, new);
}

// The float of an id taken out. Its row stays as it is: a row never narrows while its phase lives.
pub fn take_out(store: &mut [i32], table: &mut [i16], id: i32)
    requires { CanChange (words store.old table.old) }
    ensures { words store.new table.new ≡ taken_out id (words store.old table.old) }
{
    store::removing::remove(store, id);
}

// A held float's report placed anew.
pub fn replace(store: &mut [i32], table: &mut [i16], r: Report)
    requires { CanReplace (words store.old table.old) r }
    ensures { words store.new table.new ≡ placed r (taken_out r.id (words store.old table.old)) }
{
    take_out(store, table, r.id);
    place(store, table, r);
}
