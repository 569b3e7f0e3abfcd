// The chart program: document 02, A1. It prints the curve table of the grid, drawn from the four shapes, and reads nothing.
#![tactic(auto)]

ghost use Rattle.std.specs.Prelude.{◌≡◌};
ghost use Rattle.drawing.specs.Chart.{chart_text};

use drawing::{CHART_BYTES, write_chart};
use streams::Streams;

// It is lent the chart's text. That these bytes go to standard output has no definition; the one call below does it.
fn print(streams: Streams, text: &[u8; CHART_BYTES])
    requires { text.now ≡ chart_text }
{
    let _written = streams.write_out(text);
}

fn main(rt: HostRuntime) {
    let streams = Streams::of(&rt, b"chart");
    let mut text = [0u8; CHART_BYTES];
    write_chart(&mut text);
    print(streams, &text);
}
