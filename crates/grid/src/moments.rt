// Whether a float passes through a rectangle at some moment of a window: document 02, A3. No fraction is formed: two moments are compared by
// products.
ghost use Rattle.std.specs.Prelude.{◌≡◌};
ghost use Rattle.grid.specs.Moments.{passage_of, in_time, in_turn, meeting};
ghost use Rattle.grid.specs.Small.{SmallStart, SmallPassageOver, SmallMeeting, SmallTurn};

use crate::Range;

// A float's way through a range along one axis: u seconds after the start it is inside exactly if after <= speed * u <= until. Centimetres, and
// centimetres per second; the speed is not below 0.
#[derive(Clone, Copy)]
pub struct Passage {
    pub after: i64,
    pub until: i64,
    pub speed: i64,
}

impl Passage {
    // Of a float that is at p at the start and goes at v. One that goes down comes in at the range's high end.
    pub fn of(p: i64, v: i64, range: Range) -> Passage
        requires { SmallStart p v range }
        ensures { result ≡ passage_of p v range }
    {
        if 0 <= v {
            Passage {
                after: range.low - p,
                until: range.high - p,
                speed: v,
            }
        } else {
            Passage {
                after: p - range.high,
                until: p - range.low,
                speed: -v,
            }
        }
    }

    // Whether the range is entered by d seconds after the start, and not left before the start.
    fn in_time(self, d: i64) -> bool
        requires { SmallPassageOver self d }
        ensures { result ≡ in_time self d }
    {
        self.after <= self.speed * d && 0 <= self.until
    }

    // Whether this range is entered no later than the other is left.
    fn in_turn(self, other: Passage) -> bool
        requires { SmallTurn self other }
        ensures { result ≡ in_turn self other }
    {
        self.after * other.speed <= other.until * self.speed
    }
}

// Whether two passages share a moment from the start to d seconds after it.
pub fn meet(x: Passage, y: Passage, d: i64) -> bool
    requires { SmallMeeting x y d }
    ensures { result ≡ meeting x y d }
{
    x.in_time(d) && y.in_time(d) && x.in_turn(y) && y.in_turn(x)
}
