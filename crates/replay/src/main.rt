// The replay program: document 01, "Lines". It opens the index at 0, reads call lines from standard input to its end, and answers each on standard
// output. What a chunk of input is answered is written before the next chunk is read, so one who types gets an answer to each line, and the memory
// does not grow with the input. Where a read or a write failed it stops there: a line that is cut off is no line, and gets no answer.
#![tactic(auto)]

ghost use Rattle.std.specs.Prelude.{◌≤◌, length};
ghost use Rattle.answering.specs.Answering.{answer_bytes};
ghost use Rattle.session.specs.Session.{begun};
ghost use Rattle.session.specs.Buffers.{Stands};
ghost use Rattle.streams.specs.Streams.{Moved};
ghost use Rattle.replay.specs.Program.{TakesChunk, AnswersRead, TakesRead, Runs, Replays};

use session::feeding::Buffers;
use streams::{Failure, Streams};

// How many bytes are read or written at once.
const CHUNK_BYTES: usize = 65536;

// A read or a write failed, after so many bytes had been taken.
#[derive(Clone, Copy)]
pub struct Stopped {
    pub taken: usize,
}

// The input has ended: how many bytes it had, and how many the answer to a last line has that lacks its newline.
#[derive(Clone, Copy)]
pub struct Ended {
    pub taken: usize,
    pub filled: usize,
}

// Answers the lines that end in a chunk, and writes the answers out: all its bytes are taken.
fn answer_chunk(streams: Streams, buffers: &mut Buffers, chunk: &[u8]) -> Result<usize, Stopped>
    ensures { TakesChunk chunk.now buffers.old buffers.new result }
{
    let mut out = [0u8; CHUNK_BYTES];
    let mut from = 0;
    // How much is taken at once is known only once it is answered, so no `for` goes over it.
    while from < chunk.len() {
        let fed = buffers.feed(&chunk[from..], &mut out);
        from += fed.taken;
        if streams.write_out(&out[..fed.filled]).is_err() {
            return Err(Stopped { taken: from });
        }
    }
    Ok(from)
}

// Answers what a read gave: as many bytes as it says, none at the end of the input.
fn answer_read(
    streams: Streams,
    buffers: &mut Buffers,
    chunk: &[u8],
    read: Result<usize, Failure>,
) -> Result<usize, Stopped>
    requires { Moved (length chunk.now) read }
    ensures { AnswersRead read chunk.now buffers.old buffers.new result }
{
    match read {
        Ok(came) => answer_chunk(streams, buffers, &chunk[..came]),
        Err(_) => Err(Stopped { taken: 0 }),
    }
}

// Reads once, and answers what came.
fn read_once(streams: Streams, buffers: &mut Buffers, chunk: &mut [u8]) -> Result<usize, Stopped>
    ensures { TakesRead chunk.new buffers.old buffers.new result }
{
    let read = streams.read_chunk(chunk);
    answer_read(streams, buffers, chunk, read)
}

// Answers all of the input but a last line that lacks its newline: how many bytes it had. A proved loop has to end, and nothing says that the input
// does: each turn that goes on takes a byte or more of those that are left, and no machine reads so many.
fn run(streams: Streams, buffers: &mut Buffers, chunk: &mut [u8]) -> Result<usize, Stopped>
    ensures { Runs buffers.old buffers.new result }
{
    let most = usize::MAX - chunk.len();
    let mut taken = 0;
    while taken < most {
        match read_once(streams, buffers, chunk) {
            Ok(0) => return Ok(taken),
            Ok(came) => taken += came,
            Err(stop) => {
                return Err(Stopped {
                    taken: taken + stop.taken,
                });
            }
        }
    }
    Err(Stopped { taken })
}

// All of it, over buffers at the start. Only at the end of the input is a last line that lacks its newline a line.
fn replay(
    streams: Streams,
    buffers: &mut Buffers,
    chunk: &mut [u8],
    out: &mut [u8],
) -> Result<Ended, Stopped>
    requires begun { Stands begun buffers.old }
    requires room { answer_bytes ≤ length out.old }
    ensures { Replays buffers.new out.new result }
{
    let taken = run(streams, buffers, chunk)?;
    let filled = buffers.finish(out);
    let _written = streams.write_out(&out[..filled]);
    Ok(Ended { taken, filled })
}

fn main(rt: HostRuntime) {
    let streams = Streams::of(&rt, b"replay");
    let mut buffers = Buffers::new();
    let mut chunk = [0u8; CHUNK_BYTES];
    let mut out = [0u8; CHUNK_BYTES];
    let _end = replay(streams, &mut buffers, &mut chunk, &mut out);
}
