// The text of the curve table that the chart room prints: document 02, A1.
ghost use Rattle.std.specs.Prelude.{◌≡◌};
ghost use Rattle.fields.specs.Put.{put};
ghost use Rattle.drawing.specs.Chart.{chart_line, chart_text};
ghost use Rattle.drawing.specs.Needs.{LineRoom, ChartRoom};

use crate::drawn::drawn_curve;
use fields::numbers::write_unsigned;
use grid::SIDE;

// The columns of a number.
const NUMBER_COLUMNS: usize = 5;

// The bytes of a line, its newline the last, and of the whole text.
const LINE_BYTES: usize = SIDE * NUMBER_COLUMNS + 1;

pub const CHART_BYTES: usize = SIDE * LINE_BYTES;

fn write_line(out: &mut [u8], at: usize, numbers: &[u16])
    requires { LineRoom at numbers.now out.old }
    ensures { out.new ≡ put out.old at (chart_line numbers.now) }
{
    write_unsigned(out, at, NUMBER_COLUMNS, numbers);
    out[at + LINE_BYTES - 1] = b'\n';
}

fn write_lines(out: &mut [u8], numbers: &[u16])
    requires { ChartRoom numbers.now out.old }
    ensures { out.new ≡ chart_text }
{
    for row in 0..SIDE {
        let place = row * SIDE;
        write_line(out, row * LINE_BYTES, &numbers[place..place + SIDE]);
    }
}

// The whole text, of the curve drawn from its four shapes.
pub fn write_chart(out: &mut [u8; CHART_BYTES])
    ensures { out.new ≡ chart_text }
{
    let numbers = drawn_curve();
    write_lines(out, &numbers);
}
