// The rows of a lent table, slot by slot: one widened, a slot's third emptied. Document 01, "Store and table".
ghost use Rattle.std.specs.Prelude.{◌≡◌, ◌/◌, ◌%◌, length};
ghost use Rattle.rows.specs.Table.{row_words, table_words, with_drift, empty_rows, with_slot_empty, with_newly_live_empty};
ghost use Rattle.rows.specs.Needs.{HasSlot, HasRow};

use crate::phases::slot_of;
use crate::{Drift, ROW_WORDS, Row, SLOT_WORDS, SLOTS};

// The row of a slot and a curve number widened by a drift.
pub fn widen_row(table: &mut [i16], slot: usize, number: usize, drift: Drift)
    requires { HasRow table.old slot number }
    ensures { table.new ≡ with_drift table.old slot number drift }
{
    let mut row = Row::read(table, slot, number);
    row.widen_in(drift);
    row.write(table, slot, number);
}

// Every row of some words emptied. It is lent their numbers alone, so it cannot touch another row.
pub fn empty_rows(words: &mut [i16])
    requires { length words.old % row_words ≡ 0 }
    ensures { words.new ≡ empty_rows (length words.old / row_words) }
{
    for i in 0..words.len() / ROW_WORDS {
        Row::empty().write_to(words, ROW_WORDS * i);
    }
}

// A new phase clears only its own slot's third of the table.
pub fn empty_slot(table: &mut [i16], slot: usize)
    requires { HasSlot table.old slot }
    ensures { table.new ≡ with_slot_empty table.old slot }
{
    let start = SLOT_WORDS * slot;
    empty_rows(&mut table[start..start + SLOT_WORDS]);
}

// Every row emptied, of every slot.
pub fn empty_table(table: &mut [i16])
    requires { length table.old ≡ table_words }
    ensures { table.new ≡ with_slot_empty (with_slot_empty (with_slot_empty table.old 0) 1) 2 }
{
    empty_rows(table);
}

// The rows of every newly live phase emptied: the current phase is c, and was `earlier`.
pub fn empty_newly_live(table: &mut [i16], earlier: usize, c: usize)
    requires { length table.old ≡ table_words }
    ensures { table.new ≡ with_newly_live_empty table.old earlier c }
{
    // Newest first: c, then c - 1 and c - 2 where not negative.
    for back in 0..SLOTS {
        if back <= c && earlier < c - back {
            empty_slot(table, slot_of(c - back));
        }
    }
}
