// The calls after open and what a call gives back, in the index and in the plain ledger alike. The ledger itself is definitions only: see specs/.
#![tactic(auto)]

ghost use Rattle.std.specs.Prelude.{◌≡◌};
ghost use Rattle.ledger.specs.Answers.{refusal_number, refusal_value};
ghost use Rattle.ledger.specs.Refusals.{time_of, id_of};
ghost use Rattle.ledger.specs.Calls.{ask_of, window_of};

use grid::{Query, Rect, Report, When};

// A change of the floats held.
#[derive(Clone, Copy)]
pub enum Change {
    // A float that is not held sends its first report.
    Add(Report),
    // A held float sends a new report.
    Report(Report),
    // A held float is taken out: its id, the time.
    Drop(i32, i32),
}

impl Change {
    // The time that the clock goes to.
    pub fn time(self) -> i32
        ensures { result ≡ time_of self }
    {
        match self {
            Change::Add(r) | Change::Report(r) => r.t,
            Change::Drop(_, t) => t,
        }
    }

    // The float that it is about.
    pub fn id(self) -> i32
        ensures { result ≡ id_of self }
    {
        match self {
            Change::Add(r) | Change::Report(r) => r.id,
            Change::Drop(id, _) => id,
        }
    }
}

// An ask: the method by which cells are chosen, and the query. The method is any number that a caller gives: one outside 0 to 3 is refused by its check, after
// those of the time, so it becomes a `Method` only behind them.
#[derive(Clone, Copy)]
pub struct Ask {
    pub method: i32,
    pub query: Query,
}

impl Ask {
    // The timeslice ask of a call's six numbers.
    pub fn of(method: i32, time: i32, low_x: i32, low_y: i32, high_x: i32, high_y: i32) -> Ask
        ensures { result ≡ ask_of method time low_x low_y high_x high_y }
    {
        Ask {
            method,
            query: Query {
                rect: Rect::of(low_x, low_y, high_x, high_y),
                when: When::At(time),
            },
        }
    }

    // The window ask of a call's seven numbers.
    pub fn window(
        method: i32,
        first: i32,
        last: i32,
        low_x: i32,
        low_y: i32,
        high_x: i32,
        high_y: i32,
    ) -> Ask
        ensures { result ≡ window_of method first last low_x low_y high_x high_y }
    {
        Ask {
            method,
            query: Query {
                rect: Rect::of(low_x, low_y, high_x, high_y),
                when: When::During(first, last),
            },
        }
    }
}

// A call after open, with its numbers.
#[derive(Clone, Copy)]
pub enum Call {
    // The clock goes to a time.
    Clock(i32),
    Change(Change),
    Ask(Ask),
}

// No Result of two kinds of acceptance and a refusal: the theorems over every list of calls speak of these three, and one enum says them plainly.
#[derive(Clone, Copy)]
pub enum Answer {
    // An accepted open, clock, add, report or drop: the floats held.
    Accepted(usize),
    // An accepted ask: ids listed, cells read, useful cells, rounds.
    Listed(usize, usize, usize, usize),
    Refused(Refusal),
}

// Why a call is declined, by the documents' numbers, in the order of the checks: 10 stands right after 3.
#[derive(Clone, Copy)]
pub enum Refusal {
    // 1: store not 7,175 words or table not 12,288 numbers.
    WrongLength,
    // 2: store or table unsound.
    Unsound,
    // 3: time outside its range, below now, or too far from now for an ask.
    BadTime,
    // 10: window ask, last time before the first, or more than 3,600 after it.
    BadWindow,
    // 4: id, position, speed or method outside its range, or a bad rectangle.
    BadNumber,
    // 5: add, id already held.
    AlreadyHeld,
    // 6: report or drop, id not held.
    NotHeld,
    // 7: add, 1,024 held.
    Full,
    // 8: ask, list shorter than the ids needed.
    ListTooShort(usize),
}

impl Refusal {
    // The documents' number, which C and the lines have.
    pub fn number(self) -> usize
        ensures { result ≡ refusal_number self }
    {
        match self {
            Refusal::WrongLength => 1,
            Refusal::Unsound => 2,
            Refusal::BadTime => 3,
            Refusal::BadWindow => 10,
            Refusal::BadNumber => 4,
            Refusal::AlreadyHeld => 5,
            Refusal::NotHeld => 6,
            Refusal::Full => 7,
            Refusal::ListTooShort(_) => 8,
        }
    }

    // The value returned with it.
    pub fn value(self) -> usize
        ensures { result ≡ refusal_value self }
    {
        match self {
            Refusal::ListTooShort(needed) => needed,
            _ => 0,
        }
    }
}
