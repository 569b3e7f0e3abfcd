// The index for programs in C and Rust: the seven calls over pointers and lengths, with any numbers and any buffers, and the soundness test alone.
// Each call gives back the number, the value and the counts that the documents have for its answer, and leaves the words that its definition says.
// Reports, rectangles and refusals are plain numbers here, and store and table two slices, as the C header has them.
#![tactic(auto)]

ghost use Rattle.std.specs.Prelude.{◌≡◌};
ghost use Rattle.records.specs.Words.{words, are_sound};
ghost use Rattle.ledger.specs.declared.Change.TheVariants as Change;
ghost use Rattle.engine.specs.Index.{open_out, clock_out, change_out, ask_out};
ghost use Rattle.grid.specs.Reports.{report_of};
ghost use Rattle.capi.specs.Replies.{reply_of, plain, Replies, RepliesList};
ghost use Rattle.ledger.specs.Calls.{ask_of, window_of};

use grid::Report;
use ledger::{Answer, Ask};

// What a call gives back: the number of a refusal (0: accepted), the value, and an accepted ask's cells read, useful cells and rounds.
#[repr(C)]
#[derive(Clone, Copy)]
pub struct Reply {
    pub number: usize,
    pub value: usize,
    pub cells: usize,
    pub useful: usize,
    pub rounds: usize,
}

// An answer without counts.
fn plain(number: usize, value: usize) -> Reply
    ensures { result ≡ plain number value }
{
    Reply {
        number,
        value,
        cells: 0,
        useful: 0,
        rounds: 0,
    }
}

fn reply_of(answer: Answer) -> Reply
    ensures { result ≡ reply_of answer }
{
    match answer {
        Answer::Accepted(held) => plain(0, held),
        Answer::Listed(listed, cells, useful, rounds) => Reply {
            number: 0,
            value: listed,
            cells,
            useful,
            rounds,
        },
        Answer::Refused(why) => plain(why.number(), why.value()),
    }
}

fn report_of(id: i32, t: i32, x: i32, y: i32, vx: i32, vy: i32) -> Report
    ensures { result ≡ report_of id t x y vx vy }
{
    Report {
        id,
        t,
        x,
        y,
        vx,
        vy,
    }
}

// Opens the index at time t, whatever the buffers held.
pub fn float_index_open(store: &mut [i32], table: &mut [i16], t: i32) -> Reply
    ensures { Replies (open_out (words store.old table.old) t) result (words store.new table.new) }
{
    reply_of(engine::open(store, table, t))
}

// The clock goes to time t.
pub fn float_index_clock(store: &mut [i32], table: &mut [i16], t: i32) -> Reply
    ensures { Replies (clock_out (words store.old table.old) t) result (words store.new table.new) }
{
    reply_of(engine::clock(store, table, t))
}

// A float that was not held sends its first report.
pub fn float_index_add(
    store: &mut [i32],
    table: &mut [i16],
    id: i32,
    t: i32,
    x: i32,
    y: i32,
    vx: i32,
    vy: i32,
) -> Reply
    ensures { Replies (change_out (words store.old table.old) (Change.Add (report_of id t x y vx vy))) result (words store.new table.new) }
{
    reply_of(engine::add(store, table, report_of(id, t, x, y, vx, vy)))
}

// A held float sends a new report.
pub fn float_index_report(
    store: &mut [i32],
    table: &mut [i16],
    id: i32,
    t: i32,
    x: i32,
    y: i32,
    vx: i32,
    vy: i32,
) -> Reply
    ensures { Replies (change_out (words store.old table.old) (Change.Report (report_of id t x y vx vy))) result (words store.new table.new) }
{
    reply_of(engine::report(store, table, report_of(id, t, x, y, vx, vy)))
}

// A held float is taken out at time t.
pub fn float_index_drop(store: &mut [i32], table: &mut [i16], id: i32, t: i32) -> Reply
    ensures { Replies (change_out (words store.old table.old) (Change.Drop id t)) result (words store.new table.new) }
{
    reply_of(engine::drop(store, table, id, t))
}

// The floats predicted inside a rectangle at the asked time, none before its report, by a method's choice of cells. The ids are written in front of
// the list.
pub fn float_index_ask(
    store: &[i32],
    table: &[i16],
    list: &mut [u16],
    method: i32,
    asked: i32,
    low_x: i32,
    low_y: i32,
    high_x: i32,
    high_y: i32,
) -> Reply
    ensures { RepliesList (ask_out (words store.now table.now) (ask_of method asked low_x low_y high_x high_y) list.old) result list.new }
{
    reply_of(engine::ask(
        store,
        table,
        list,
        Ask::of(method, asked, low_x, low_y, high_x, high_y),
    ))
}

// The same at some moment from a first time to a last one, fractions of a second included, and for each float from its report on.
pub fn float_index_ask_window(
    store: &[i32],
    table: &[i16],
    list: &mut [u16],
    method: i32,
    first: i32,
    last: i32,
    low_x: i32,
    low_y: i32,
    high_x: i32,
    high_y: i32,
) -> Reply
    ensures { RepliesList (ask_out (words store.now table.now) (window_of method first last low_x low_y high_x high_y) list.old) result list.new }
{
    reply_of(engine::ask(
        store,
        table,
        list,
        Ask::window(method, first, last, low_x, low_y, high_x, high_y),
    ))
}

// Whether a store and a table have their lengths and are sound, so that no call refuses them with 1 or 2.
pub fn float_index_is_sound(store: &[i32], table: &[i16]) -> bool
    ensures { result ≡ are_sound (words store.now table.now) }
{
    records::soundness::is_sound(store, table)
}
