// The library for C: each export calls the function of its name in the crate capi and promises the same.
#![tactic(auto)]

ghost use Rattle.std.specs.Prelude.{◌≡◌};
ghost use Rattle.records.specs.Words.{words, are_sound};
ghost use Rattle.ledger.specs.declared.Change.TheVariants as Change;
ghost use Rattle.engine.specs.Index.{open_out, clock_out, change_out, ask_out};
ghost use Rattle.grid.specs.Reports.{report_of};
ghost use Rattle.capi.specs.Replies.{reply_of, plain, Replies, RepliesList};
ghost use Rattle.ledger.specs.Calls.{ask_of, window_of};

use capi::Reply;

// Opens the index at time t, whatever the buffers held.
#[unsafe(no_mangle)]
pub extern "C" fn float_index_open(store: &mut [i32], table: &mut [i16], t: i32) -> Reply
    ensures { Replies (open_out (words store.old table.old) t) result (words store.new table.new) }
{
    capi::float_index_open(store, table, t)
}

// The clock goes to time t.
#[unsafe(no_mangle)]
pub extern "C" fn float_index_clock(store: &mut [i32], table: &mut [i16], t: i32) -> Reply
    ensures { Replies (clock_out (words store.old table.old) t) result (words store.new table.new) }
{
    capi::float_index_clock(store, table, t)
}

// A float that was not held sends its first report.
#[unsafe(no_mangle)]
pub extern "C" fn float_index_add(
    store: &mut [i32],
    table: &mut [i16],
    id: i32,
    t: i32,
    x: i32,
    y: i32,
    vx: i32,
    vy: i32,
) -> Reply
    ensures { Replies (change_out (words store.old table.old) (Change.Add (report_of id t x y vx vy))) result (words store.new table.new) }
{
    capi::float_index_add(store, table, id, t, x, y, vx, vy)
}

// A held float sends a new report.
#[unsafe(no_mangle)]
pub extern "C" fn float_index_report(
    store: &mut [i32],
    table: &mut [i16],
    id: i32,
    t: i32,
    x: i32,
    y: i32,
    vx: i32,
    vy: i32,
) -> Reply
    ensures { Replies (change_out (words store.old table.old) (Change.Report (report_of id t x y vx vy))) result (words store.new table.new) }
{
    capi::float_index_report(store, table, id, t, x, y, vx, vy)
}

// A held float is taken out at time t.
#[unsafe(no_mangle)]
pub extern "C" fn float_index_drop(store: &mut [i32], table: &mut [i16], id: i32, t: i32) -> Reply
    ensures { Replies (change_out (words store.old table.old) (Change.Drop id t)) result (words store.new table.new) }
{
    capi::float_index_drop(store, table, id, t)
}

// The floats predicted inside a rectangle at the asked time, none before its report, by a method's choice of cells. The ids are written in front of
// the list.
#[unsafe(no_mangle)]
pub extern "C" fn float_index_ask(
    store: &[i32],
    table: &[i16],
    list: &mut [u16],
    method: i32,
    asked: i32,
    low_x: i32,
    low_y: i32,
    high_x: i32,
    high_y: i32,
) -> Reply
    ensures { RepliesList (ask_out (words store.now table.now) (ask_of method asked low_x low_y high_x high_y) list.old) result list.new }
{
    capi::float_index_ask(
        store, table, list, method, asked, low_x, low_y, high_x, high_y,
    )
}

// The same at some moment from a first time to a last one, fractions of a second included, and for each float from its report on.
#[unsafe(no_mangle)]
pub extern "C" fn float_index_ask_window(
    store: &[i32],
    table: &[i16],
    list: &mut [u16],
    method: i32,
    first: i32,
    last: i32,
    low_x: i32,
    low_y: i32,
    high_x: i32,
    high_y: i32,
) -> Reply
    ensures { RepliesList (ask_out (words store.now table.now) (window_of method first last low_x low_y high_x high_y) list.old) result list.new }
{
    capi::float_index_ask_window(
        store, table, list, method, first, last, low_x, low_y, high_x, high_y,
    )
}

// Whether a store and a table have their lengths and are sound, so that no call refuses them with 1 or 2.
#[unsafe(no_mangle)]
pub extern "C" fn float_index_is_sound(store: &[i32], table: &[i16]) -> bool
    ensures { result ≡ are_sound (words store.now table.now) }
{
    capi::float_index_is_sound(store, table)
}
