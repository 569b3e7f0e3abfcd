// Several numbers written one after the other: those of a line, the ids of a list, and 16-bit numbers in any number of columns.
ghost use Rattle.std.specs.Prelude.{◌≡◌, map, ◌+◌, ◌*◌, ◌≤◌, length, pos};
ghost use Rattle.fields.specs.Fields.{width};
ghost use Rattle.fields.specs.Numbers.{fields, in_columns, FieldsRoom, ColumnsRoom};
ghost use Rattle.fields.specs.Put.{put};

use crate::{WIDTH, writing};

// The fields of some numbers from a place on.
pub fn write_numbers(out: &mut [u8], at: usize, numbers: &[i32])
    requires { FieldsRoom at numbers.now out.old }
    ensures { out.new ≡ put out.old at (fields numbers.now) }
{
    for (i, z) in numbers.iter().enumerate() {
        writing::write_field(out, at + WIDTH * i, *z);
    }
}

// Some numbers from a place on, each in so many columns. One function over these and the fields would take a closure that writes a number, and be
// no plainer.
pub fn write_unsigned(out: &mut [u8], at: usize, columns: usize, numbers: &[u16])
    requires { ColumnsRoom at columns numbers.now out.old }
    ensures { out.new ≡ put out.old at (in_columns columns numbers.now) }
{
    for (i, n) in numbers.iter().enumerate() {
        writing::write_columns(out, at + columns * i, columns, b' ', usize::from(*n));
    }
}

// The fields of some ids from a place on.
#[tactic(auto, using(crate::proofs::NumbersLaws::fields_columns))]
pub fn write_ids(out: &mut [u8], at: usize, ids: &[u16])
    requires { at + width * length ids.now ≤ length out.old }
    ensures { out.new ≡ put out.old at (fields (map pos ids.now)) }
{
    write_unsigned(out, at, WIDTH, ids);
}
