// A jump over many steps by doubling: the map of one step, then of two, of four and so on, each applied where the number of steps has its bit.
ghost use Rattle.std.specs.Prelude.{◌≡◌};
ghost use Rattle.generator.specs.Generator.{jump};

use crate::steps::Affine;

pub fn jump(m: u64, start: u32) -> u32
    ensures { result ≡ jump m start }
{
    let mut f = Affine::one();
    let mut s = start;
    let mut left = m;
    // A `for` would have to know how many halvings there are.
    while 0 < left {
        if left % 2 != 0 {
            s = f.applied_to(s);
        }
        f = f.doubled();
        left /= 2;
    }
    s
}
