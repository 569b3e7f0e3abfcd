// One number of a line, right-justified in its columns: document 01, "Lines". Read, written, and several written one after the other,
// these in any number of columns too. Bytes are written into memory that is lent, and no String is made: the project has no heap.
#![tactic(auto)]

ghost use Rattle.std.specs.Prelude.{◌≡◌, ◌≤◌, pos};
ghost use Rattle.fields.specs.Fields.{greatest};

pub mod numbers;
pub mod reading;
pub mod writing;

// The columns of a number in a line.
pub const WIDTH: usize = 10;

// The greatest number in a line, and the size of the least.
pub const GREATEST: usize = 2147483647;

pub const LEAST_SIZE: usize = 999999999;

pub fn above(n: usize) -> i32
    requires { n ≤ greatest }
    ensures { result ≡ pos n }
{
    n as i32
}
