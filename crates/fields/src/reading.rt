// One number read: its bytes one by one, then the number that they are.
ghost use Rattle.std.specs.Prelude.{◌≡◌, ◌+◌, ◌<◌, ◌≤◌, ◌^◌, length};
ghost use Rattle.fields.specs.Fields.{width};
ghost use Rattle.fields.specs.Reading.{size_seen, after, number_of, seen_at, field_at, unsigned_of, unsigned_at};

use crate::{GREATEST, LEAST_SIZE, WIDTH};

// What the bytes of a field are, as far as they have been read.
#[derive(Clone, Copy)]
pub enum Seen {
    Blanks,
    Minus,
    // The digit 0 alone.
    Zero,
    // Whether "-" came first, and the number of the digits, which is not 0: sign and size are read one after the other, and only the whole is a number.
    Digits(bool, usize),
    // No beginning of a number.
    Other,
}

impl Seen {
    // What is seen with one byte more.
    #[tactic(auto, unfolding(crate::specs::Reading::with_digit, crate::specs::Reading::after))]
    fn after(self, b: u8) -> Seen
        requires { size_seen self < 10 ^ width }
        ensures { result ≡ after self b }
    {
        match (self, b) {
            (Seen::Blanks, b' ') => Seen::Blanks,
            (Seen::Blanks, b'-') => Seen::Minus,
            (Seen::Blanks, b'0') => Seen::Zero,
            (Seen::Blanks, b'1'..=b'9') => Seen::Digits(false, usize::from(b - b'0')),
            (Seen::Minus, b'1'..=b'9') => Seen::Digits(true, usize::from(b - b'0')),
            (Seen::Digits(negative, n), b'0'..=b'9') => {
                Seen::Digits(negative, 10 * n + usize::from(b - b'0'))
            }
            _ => Seen::Other,
        }
    }

    // What the bytes of the field are that starts at a place of a line.
    #[tactic(auto, using(crate::proofs::ReadingLaws::next_seen, crate::proofs::ReadingLaws::seen_small), unfolding(crate::specs::Reading::seen_at))]
    fn at(line: &[u8], at: usize) -> Seen
        requires { at + width ≤ length line.now }
        ensures { result ≡ seen_at line.now at width }
    {
        let mut seen = Seen::Blanks;
        for b in &line[at..at + WIDTH] {
            seen = seen.after(*b);
        }
        seen
    }

    // The number of a field, if a line may have it.
    #[tactic(auto, unfolding(crate::specs::Reading::number_of))]
    fn number(self) -> Option<i32>
        ensures { result ≡ number_of self }
    {
        match self {
            Seen::Zero => Some(0),
            Seen::Digits(false, n) if n <= GREATEST => Some(crate::above(n)),
            Seen::Digits(true, n) if n <= LEAST_SIZE => Some(-crate::above(n)),
            _ => None,
        }
    }

    // The number from 0 on, which may be greater than a line's.
    #[tactic(auto, unfolding(crate::specs::Reading::unsigned_of))]
    fn unsigned(self) -> Option<usize>
        ensures { result ≡ unsigned_of self }
    {
        match self {
            Seen::Zero => Some(0),
            Seen::Digits(false, n) => Some(n),
            _ => None,
        }
    }
}

// The number of the field that starts at a place of a line.
pub fn read_field(line: &[u8], at: usize) -> Option<i32>
    requires { at + width ≤ length line.now }
    ensures { result ≡ field_at line.now at }
{
    Seen::at(line, at).number()
}

// The same of a number from 0 on, of up to ten digits, which may be greater than a field's: each of the two is a line over `Seen::at`, which they have in common.
pub fn read_unsigned(line: &[u8], at: usize) -> Option<usize>
    requires { at + width ≤ length line.now }
    ensures { result ≡ unsigned_at line.now at }
{
    Seen::at(line, at).unsigned()
}
