// One number written: its columns from the right to the left, in the place of some bytes whose rest is kept.
ghost use Rattle.std.specs.Prelude.{◌≡◌, true, ◌<◌, nat_abs};
ghost use Rattle.fields.specs.Fields.{digit, field_of, is_writable};
ghost use Rattle.fields.specs.Put.{put};
ghost use Rattle.fields.specs.Writing.{byte_of, lead_after, number_in, lead_of, NumberRoom, FieldRoom};

use crate::WIDTH;

fn digit_of(d: usize) -> u8
    requires { d < 10 }
    ensures { result ≡ digit d }
{
    b'0' + (d as u8)
}

fn byte_of(lead: u8, left: usize) -> u8
    ensures { result ≡ byte_of lead left }
{
    if left == 0 { lead } else { digit_of(left % 10) }
}

fn lead_after(lead: u8, left: usize) -> u8
    ensures { result ≡ lead_after lead left }
{
    if left == 0 { b' ' } else { lead }
}

// The columns of n from a place on, written from the right to the left, with `lead` before its digits. It is lent all the bytes and a
// place: with a slice of its columns alone each of its callers would have to put the slice back into the bytes by itself, which is no plainer.
pub fn write_columns(out: &mut [u8], at: usize, columns: usize, lead: u8, n: usize)
    requires { NumberRoom at columns out.old }
    ensures { out.new ≡ put out.old at (number_in columns lead n) }
{
    out[at + columns - 1] = digit_of(n % 10);
    let mut left = n / 10;
    let mut front = lead;
    for k in (0..columns - 1).rev() {
        out[at + k] = byte_of(front, left);
        front = lead_after(front, left);
        left /= 10;
    }
}

fn lead_of(z: i32) -> u8
    ensures { result ≡ lead_of z }
{
    if z < 0 { b'-' } else { b' ' }
}

fn size_of(z: i32) -> usize
    requires { is_writable z ≡ true }
    ensures { result ≡ nat_abs z }
{
    z.unsigned_abs() as usize
}

#[tactic(auto, using(crate::proofs::WritingLaws::field_columns))]
pub fn write_field(out: &mut [u8], at: usize, z: i32)
    requires { FieldRoom at z out.old }
    ensures { out.new ≡ put out.old at (field_of z) }
{
    write_columns(out, at, WIDTH, lead_of(z), size_of(z));
}
