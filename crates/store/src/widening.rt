// The rows of a table widened by the speeds of records, each in the row of its cell.
ghost use Rattle.records.specs.Records.{all_records};
ghost use Rattle.std.specs.Prelude.{◌≡◌};
ghost use Rattle.records.specs.Needs.{CanFindRow};
ghost use Rattle.store.specs.Widening.{widened_by, widened_by_all};
ghost use Rattle.store.specs.Needs.{WidenAllAsked};

use records::order::{number_of_key, slot_of_key};
use records::soundness::drift_of;
use records::{RECORD_WORDS, Record};
use rows::widen_row;

// The row of a record's cell widened by its speeds.
pub fn widen(table: &mut [i16], r: Record)
    requires { CanFindRow table.old r }
    ensures { table.new ≡ widened_by table.old r }
{
    widen_row(
        table,
        slot_of_key(r.key),
        number_of_key(r.key),
        drift_of(r.report),
    );
}

// Widens the row of each of the records of `dead`.
pub fn widen_all(table: &mut [i16], dead: &[i32])
    requires { WidenAllAsked table.old dead.now }
    ensures { table.new ≡ widened_by_all table.old (all_records dead.now) }
{
    let (records, _) = dead.as_chunks::<RECORD_WORDS>();
    for words in records {
        widen(table, Record::read_from(words, 0));
    }
}
