// Speed rows and the table that holds them: document 01, "Phases and speed rows". Speeds are centimetres per second, times seconds.
#![tactic(auto)]

ghost use Rattle.std.specs.Prelude.{◌≡◌, ◌<◌, ◌+◌, length};
ghost use Rattle.rows.specs.Row.{empty_row, joined, widened, holds, same_row, is_empty, valid_axis, valid_row};
ghost use Rattle.rows.specs.Table.{row_at, row_from, with_row, with_row_from};
ghost use Rattle.rows.specs.Needs.{empty_axis, HasRow};

mod phases;
mod table;

pub use phases::{is_live, phase_of, reference_time, slot_of};
pub use table::{empty_newly_live, empty_rows, empty_slot, empty_table, widen_row};

// The length of a phase, in seconds.
pub const PHASE_SECONDS: usize = 3600;

// How long after its start the reference time of a phase lies, in seconds.
pub const MID_PHASE: usize = 1800;

// The slots of the table.
pub const SLOTS: usize = 3;

// The numbers of a row, of a slot's third, and of the table.
pub const ROW_WORDS: usize = 4;

pub const SLOT_WORDS: usize = ROW_WORDS * grid::CELLS;

pub const TABLE_WORDS: usize = SLOTS * SLOT_WORDS;

// What a row takes in of a float's report: how it drifts.
#[derive(Clone, Copy)]
pub struct Drift {
    pub vx: i16,
    pub vy: i16,
}

// The least and the greatest of each speed seen in a cell of a phase.
#[derive(Clone, Copy, PartialEq, Eq)]
pub struct Row {
    pub least_vx: i16,
    pub greatest_vx: i16,
    pub least_vy: i16,
    pub greatest_vy: i16,
}

impl Row {
    // The greatest size of a speed.
    pub const LIMIT: i16 = 500;

    // The least and the greatest of an empty row, on either axis.
    pub const EMPTY_LEAST: i16 = Row::LIMIT + 1;

    pub const EMPTY_GREATEST: i16 = -Row::LIMIT - 1;

    pub fn empty() -> Row
        ensures { result ≡ empty_row }
    {
        Row {
            least_vx: Row::EMPTY_LEAST,
            greatest_vx: Row::EMPTY_GREATEST,
            least_vy: Row::EMPTY_LEAST,
            greatest_vy: Row::EMPTY_GREATEST,
        }
    }

    pub fn join(self, other: Row) -> Row
        ensures { result ≡ joined self other }
    {
        Row {
            least_vx: self.least_vx.min(other.least_vx),
            greatest_vx: self.greatest_vx.max(other.greatest_vx),
            least_vy: self.least_vy.min(other.least_vy),
            greatest_vy: self.greatest_vy.max(other.greatest_vy),
        }
    }

    pub fn widen(self, drift: Drift) -> Row
        ensures { result ≡ widened self drift }
    {
        Row {
            least_vx: self.least_vx.min(drift.vx),
            greatest_vx: self.greatest_vx.max(drift.vx),
            least_vy: self.least_vy.min(drift.vy),
            greatest_vy: self.greatest_vy.max(drift.vy),
        }
    }

    // Widened where it stands.
    pub fn widen_in(&mut self, drift: Drift)
        ensures { self.new ≡ widened self.old drift }
    {
        *self = self.widen(drift);
    }

    pub fn holds(self, drift: Drift) -> bool
        ensures { result ≡ holds self drift }
    {
        (self.least_vx..=self.greatest_vx).contains(&drift.vx)
            && (self.least_vy..=self.greatest_vy).contains(&drift.vy)
    }

    // `==`, by the name that its definition has (`same_row`), which the methods' definitions go by.
    pub fn same(self, other: Row) -> bool
        ensures { result ≡ same_row self other }
    {
        self == other
    }

    pub fn is_empty(self) -> bool
        ensures { result ≡ is_empty self }
    {
        self == Row::empty()
    }

    // An axis as an empty row has it.
    fn empty_axis(least: i16, greatest: i16) -> bool
        ensures { result ≡ empty_axis least greatest }
    {
        (least == Row::EMPTY_LEAST) & (greatest == Row::EMPTY_GREATEST)
    }

    // An axis as a row that is not empty may have it.
    fn valid_axis(least: i16, greatest: i16) -> bool
        ensures { result ≡ valid_axis least greatest }
    {
        (-Row::LIMIT <= least) & ((least <= greatest) & (greatest <= Row::LIMIT))
    }

    // Whether a sound table may hold it. No test waits for another: which rows are empty has no pattern, and a branch on it would be guessed wrong.
    pub fn is_valid(self) -> bool
        ensures { result ≡ valid_row self }
    {
        let empty_x = Row::empty_axis(self.least_vx, self.greatest_vx);
        let empty_y = Row::empty_axis(self.least_vy, self.greatest_vy);
        let valid_x = Row::valid_axis(self.least_vx, self.greatest_vx);
        let valid_y = Row::valid_axis(self.least_vy, self.greatest_vy);
        (empty_x & empty_y) | (valid_x & valid_y)
    }

    // The row whose first number stands at k.
    pub fn read_from(table: &[i16], k: usize) -> Row
        requires { k + 3 < length table.now }
        ensures { result ≡ row_from table.now k }
    {
        Row {
            least_vx: table[k],
            greatest_vx: table[k + 1],
            least_vy: table[k + 2],
            greatest_vy: table[k + 3],
        }
    }

    // The row of a slot and a curve number. They stand apart, here and at each call below: a pass keeps its slot and goes from number to number, and a struct of
    // the two would be made anew for each.
    pub fn read(table: &[i16], slot: usize, number: usize) -> Row
        requires { HasRow table.now slot number }
        ensures { result ≡ row_at table.now slot number }
    {
        Row::read_from(table, SLOT_WORDS * slot + ROW_WORDS * number)
    }

    // Written with its first number at k.
    pub fn write_to(self, words: &mut [i16], k: usize)
        requires { k + 3 < length words.old }
        ensures { words.new ≡ with_row_from words.old k self }
    {
        words[k] = self.least_vx;
        words[k + 1] = self.greatest_vx;
        words[k + 2] = self.least_vy;
        words[k + 3] = self.greatest_vy;
    }

    pub fn write(self, table: &mut [i16], slot: usize, number: usize)
        requires { HasRow table.old slot number }
        ensures { table.new ≡ with_row table.old slot number self }
    {
        self.write_to(table, SLOT_WORDS * slot + ROW_WORDS * number);
    }
}
