// What is written for an input: the lines of its fleet but the skipped ones, or "?".
ghost use Rattle.std.specs.Prelude.{◌≡◌};
ghost use Rattle.fields.specs.Put.{put};
ghost use Rattle.lines.specs.Lines.{Written};
ghost use Rattle.fleets.specs.Fleets.{float_line, float_lines, written_floats, other_text, fleet_text};
ghost use Rattle.fleets.specs.Writing.{FloatRoom, FleetRoom, OtherRoom};

use crate::making::make_float;
use crate::reading::read_fleet;
use crate::{Fleet, MOST_FLOATS};
use fields::WIDTH;
use generator::{Generator, jump};
use grid::Report;
use ledger::{Call, Change};
use lines::Line;
use lines::writing::write_call;

// The draws of a float.
const DRAWS: u64 = 4;

// The bytes of a float's line, its newline the last, and of the largest fleet.
const FLOAT_BYTES: usize = 1 + 6 * WIDTH + 1;

pub const FLEET_BYTES: usize = MOST_FLOATS * FLOAT_BYTES;

fn write_float(out: &mut [u8], at: usize, report: Report)
    requires { FloatRoom at report out.old }
    ensures { out.new ≡ put out.old at (float_line report) }
{
    write_call(
        Line::Call(Call::Change(Change::Add(report))),
        &mut out[at..],
    );
    out[at + FLOAT_BYTES - 1] = b'\n';
}

// A skip is a jump over the draws of the floats that are skipped.
fn write_floats(out: &mut [u8], fleet: Fleet) -> usize
    requires { FleetRoom fleet out.old }
    ensures { Written (float_lines (written_floats fleet)) out.old out.new result }
{
    let count = fleet.floats - fleet.skip;
    let mut generator = Generator {
        state: jump(DRAWS * (fleet.skip as u64), fleet.start),
    };
    for i in 0..count {
        let report = make_float(fleet.skip + i + 1, &mut generator);
        write_float(out, FLOAT_BYTES * i, report);
    }
    FLOAT_BYTES * count
}

fn write_other(out: &mut [u8]) -> usize
    requires { OtherRoom out.old }
    ensures { Written other_text out.old out.new result }
{
    out[0] = b'?';
    out[1] = b'\n';
    2
}

// What is due for an input, in front of some bytes whose rest is kept; the bytes written are returned.
#[tactic(auto, unfolding(crate::specs::Fleets::text_of))]
pub fn write_fleet(input: &[u8], out: &mut [u8; FLEET_BYTES]) -> usize
    ensures { Written (fleet_text input.now) out.old out.new result }
{
    match read_fleet(input) {
        Some(fleet) => write_floats(out, fleet),
        None => write_other(out),
    }
}
