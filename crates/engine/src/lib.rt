// The index: its public calls over lent buffers, with any numbers and any buffers. Each answers and leaves what its definition says. All but open
// test the buffers and then make the call of their name over sound ones; add, report and drop are changes.
// Store and table stay two slices here and in `sound`: the C interface lends them so, and a struct of both is no plainer (see the crate words).
#![tactic(auto)]

ghost use Rattle.records.specs.Words.{words};
ghost use Rattle.words.specs.Words.{opened};
ghost use Rattle.words.specs.Needs.{RightLengths};
ghost use Rattle.ledger.specs.declared.Change.TheVariants as Change;
ghost use Rattle.asking.specs.Asking.{GivesList};
ghost use Rattle.engine.specs.Index.{open_out, clock_out, change_out, ask_out};
ghost use Rattle.engine.specs.Gives.{Gives};
ghost use Rattle.engine.specs.Sound.{Done};

mod checks;
pub mod sound;

use grid::Report;
use ledger::{Answer, Ask, Change};

// An open that passed its checks.
fn make_open(store: &mut [i32], table: &mut [i16], t: i32) -> Answer
    requires { RightLengths (words store.old table.old) }
    ensures { Done (opened t (words store.old table.old)) result (words store.new table.new) }
{
    words::open(store, table, t);
    sound::accepted(store)
}

// Opens the index at time t, whatever the buffers held.
pub fn open(store: &mut [i32], table: &mut [i16], t: i32) -> Answer
    ensures { Gives (open_out (words store.old table.old) t) result (words store.new table.new) }
{
    match checks::open_verdict(&store[..], &table[..], t) {
        Err(why) => Answer::Refused(why),
        Ok(()) => make_open(store, table, t),
    }
}

// The clock goes to time t.
pub fn clock(store: &mut [i32], table: &mut [i16], t: i32) -> Answer
    ensures { Gives (clock_out (words store.old table.old) t) result (words store.new table.new) }
{
    match checks::lent_verdict(&store[..], &table[..]) {
        Err(why) => Answer::Refused(why),
        Ok(()) => sound::clock(store, table, t),
    }
}

// A float is added, reports again or is dropped.
pub fn change(store: &mut [i32], table: &mut [i16], c: Change) -> Answer
    ensures { Gives (change_out (words store.old table.old) c) result (words store.new table.new) }
{
    match checks::lent_verdict(&store[..], &table[..]) {
        Err(why) => Answer::Refused(why),
        Ok(()) => sound::change(store, table, c),
    }
}

// A float that was not held sends its first report.
pub fn add(store: &mut [i32], table: &mut [i16], r: Report) -> Answer
    ensures { Gives (change_out (words store.old table.old) (Change.Add r)) result (words store.new table.new) }
{
    change(store, table, Change::Add(r))
}

// A held float sends a new report.
pub fn report(store: &mut [i32], table: &mut [i16], r: Report) -> Answer
    ensures { Gives (change_out (words store.old table.old) (Change.Report r)) result (words store.new table.new) }
{
    change(store, table, Change::Report(r))
}

// A held float is taken out at time t.
pub fn drop(store: &mut [i32], table: &mut [i16], id: i32, t: i32) -> Answer
    ensures { Gives (change_out (words store.old table.old) (Change.Drop id t)) result (words store.new table.new) }
{
    change(store, table, Change::Drop(id, t))
}

// The floats that a query wants, by a method's choice of cells. The ids are written in front of the list.
pub fn ask(store: &[i32], table: &[i16], list: &mut [u16], ask: Ask) -> Answer
    ensures { GivesList (ask_out (words store.now table.now) ask list.old) result list.new }
{
    match checks::lent_verdict(store, table) {
        Err(why) => Answer::Refused(why),
        Ok(()) => sound::ask(store, table, list, ask),
    }
}
