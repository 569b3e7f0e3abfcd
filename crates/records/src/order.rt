// Keys, the live phase of a key, and the order of records: document 01, "Store and table".
ghost use Rattle.std.specs.Prelude.{◌≡◌, unwrap_or};
ghost use Rattle.rows.specs.Phases.{phase_of, live_phases};
ghost use Rattle.records.specs.Records.{all_records};
ghost use Rattle.records.specs.Order.{key_at, key_in, slot_of_key, number_of_key, phase_with_slot, phase_of_key, precedes, is_sorted};
ghost use Rattle.records.specs.Needs.{CellOfSlot, CanKey, CanKeyIn};

use crate::{RECORD_WORDS, Record};
use grid::{CurveNumbers, Report};

// The slot of a key. Here and below a key below 0 counts as 0, as the definitions say of every key.
pub fn slot_of_key(key: i32) -> usize
    ensures { result ≡ slot_of_key key }
{
    key.max(0) as usize / grid::CELLS
}

// The curve number of a key.
pub fn number_of_key(key: i32) -> usize
    ensures { result ≡ number_of_key key }
{
    key.max(0) as usize % grid::CELLS
}

// The live phase with a slot, the current phase being c: as far back as the slots differ.
fn phase_with_slot(c: usize, slot: usize) -> Option<usize>
    ensures { unwrap_or result 0 ≡ phase_with_slot (live_phases c) slot }
{
    if rows::SLOTS <= slot {
        return None;
    }
    let back = (c % rows::SLOTS + rows::SLOTS - slot) % rows::SLOTS;
    c.checked_sub(back)
}

// The live phase of a key, the current phase being c. Where no live phase has its slot, phase 0, as its clause says of every key.
pub fn phase_of_key(c: usize, key: i32) -> usize
    ensures { result ≡ phase_of_key c key }
{
    phase_with_slot(c, slot_of_key(key)).unwrap_or(0)
}

// Whether a comes before b: by key, then id. No test waits for another: which records share a cell has no pattern.
pub fn precedes(a: Record, b: Record) -> bool
    ensures { result ≡ precedes a b }
{
    (a.key < b.key) | ((a.key == b.key) & (a.report.id < b.report.id))
}

// Whether the records of some words are in order, in one pass without a branch. By index, since each is read with the one before it.
pub fn is_sorted(words: &[i32]) -> bool
    ensures { result ≡ is_sorted (all_records words.now) }
{
    let mut sorted = true;
    for i in 1..words.len() / RECORD_WORDS {
        let a = Record::read_from(words, RECORD_WORDS * (i - 1));
        let b = Record::read_from(words, RECORD_WORDS * i);
        sorted &= precedes(a, b);
    }
    sorted
}

// The phase of a time.
pub fn phase_at(t: i32) -> usize
    ensures { result ≡ phase_of t }
{
    rows::phase_of(i64::from(t))
}

// The key of a cell of a slot.
pub fn key_of(slot: usize, number: usize) -> i32
    requires { CellOfSlot slot number }
    ensures { result ≡ key_at slot number }
{
    (slot * grid::CELLS + number) as i32
}

// The key of a report in phase p: the slot, and the curve number of the cell at the phase's reference time. `numbers` is the grid's table of curve numbers.
pub fn key_in(numbers: &[u16; grid::CELLS], p: usize, r: Report) -> i32
    requires { CanKeyIn numbers.now p r }
    ensures { result ≡ key_in p r }
{
    let number = grid::number_in(numbers, r.cell_at(rows::reference_time(p)));
    key_of(rows::slot_of(p), number)
}

// The same by the curve numbers that a pass holds, which are known to be the grid's.
pub fn key_by(curve: &CurveNumbers, p: usize, r: Report) -> i32
    requires { CanKey p r }
    ensures { result ≡ key_in p r }
{
    key_in(&curve.numbers, p, r)
}
