// The fleet program: document 02, A5. It reads one line from standard input that says an invented fleet, and writes the call lines that add its floats,
// or "?". Nothing is written before the input has ended, since a second line would make it another input.
#![tactic(auto)]

ghost use Rattle.std.specs.Prelude.{◌≡◌, ◌≤◌, length};
ghost use Rattle.fleets.specs.Fleets.{fleet_text};
ghost use Rattle.fleet.specs.Program.{ReadsMore, ReadsInput};

use fleets::{FLEET_BYTES, write_fleet};
use streams::{Failure, Streams};

// One byte more than a line and its newline: of an input that has so many the rest does not matter, and it is not read.
const INPUT_BYTES: usize = 32;

// What is held of the input, by how many bytes.
#[derive(Clone, Copy)]
pub enum Held {
    // It has ended.
    Whole(usize),
    // No byte more matters.
    Enough(usize),
}

// Reads once, behind the bytes that are held: how many are held then, or none where no more came, at the end of the input.
fn read_more(streams: Streams, input: &mut [u8], held: usize) -> Result<Option<usize>, Failure>
    requires { held ≤ length input.old }
    ensures { ReadsMore input.old input.new held result }
{
    let came = streams.read_chunk(&mut input[held..])?;
    if came == 0 {
        return Ok(None);
    }
    Ok(Some(held + came))
}

// Reads until the input has ended, a read has failed or no byte more matters.
fn read_input(streams: Streams, input: &mut [u8]) -> Result<Held, Failure>
    ensures { ReadsInput input.new result }
{
    let mut held = 0;
    // How much comes at once is known only once it is read, so no `for` goes over it.
    while held < input.len() {
        let Some(more) = read_more(streams, input, held)? else {
            return Ok(Held::Whole(held));
        };
        held = more;
    }
    Ok(Held::Enough(held))
}

// It is lent the text that is due for the input. That these bytes go to standard output has no definition; the one call below does it.
fn print(streams: Streams, input: &[u8], text: &[u8])
    requires { text.now ≡ fleet_text input.now }
{
    let _written = streams.write_out(text);
}

fn main(rt: HostRuntime) {
    let streams = Streams::of(&rt, b"fleet");
    let mut input = [0u8; INPUT_BYTES];
    let mut text = [0u8; FLEET_BYTES];
    let held = match read_input(streams, &mut input) {
        Ok(Held::Whole(held) | Held::Enough(held)) => held,
        Err(_) => return,
    };
    let filled = write_fleet(&input[..held], &mut text);
    print(streams, &input[..held], &text[..filled]);
}
