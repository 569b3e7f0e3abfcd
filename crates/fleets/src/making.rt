// One float of a fleet, by four draws.
ghost use Rattle.std.specs.Prelude.{◌≡◌, ◌<◌, ◌≤◌, pos, ◌-ℤ◌};
ghost use Rattle.grid.specs.Units.{capacity, speed_limit};
ghost use Rattle.fleets.specs.Fleets.{speeds};
ghost use Rattle.fleets.specs.Making.{Makes};

use generator::Generator;
use grid::{CELL_SIZE, Report, SIDE};
use rows::Row;

// How many positions there are on an axis, and how many speeds.
const POSITIONS: u32 = (SIDE * CELL_SIZE) as u32;

const SPEEDS: u32 = (2 * Row::LIMIT + 1) as u32;

fn speed_of(n: u32) -> i32
    requires { n < speeds }
    ensures { result ≡ pos n -ℤ pos speed_limit }
{
    n as i32 - i32::from(Row::LIMIT)
}

// Float k, by four draws of a generator, which is left in the state after them.
pub fn make_float(k: usize, generator: &mut Generator) -> Report
    requires { k ≤ capacity }
    ensures { Makes k generator.old.state result generator.new.state }
{
    let x = generator.draw(POSITIONS);
    let y = generator.draw(POSITIONS);
    let vx = generator.draw(SPEEDS);
    let vy = generator.draw(SPEEDS);
    Report {
        id: k as i32,
        t: 0,
        x: x as i32,
        y: y as i32,
        vx: speed_of(vx),
        vy: speed_of(vy),
    }
}
