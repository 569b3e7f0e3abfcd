// Standard input read and standard output written. A call that was interrupted, or that would have to wait, is made again: it is neither the end of
// the input nor a failure. A failure is told in one line on standard error, which begins with the program's name, or with a line that the caller gives, and ends
// with the system's words.
#![tactic(auto)]

ghost use Rattle.std.specs.Prelude.{◌≡◌, ◌≤◌, length, IfOk};
ghost use Rattle.streams.specs.Streams.{Moved, TakesSome};

use std::io::{Error, ErrorKind, Print, Read, Stderr, Stdin, Stdout, Write};
use std::thread::yield_now;

// A read or a write that failed. It has been told already.
#[derive(Clone, Copy, Debug, PartialEq, Eq)]
pub enum Failure {
    Read,
    Write,
}

// The standard streams of a program, and the name under which it tells a failure.
#[derive(Clone, Copy)]
pub struct Streams<'a> {
    pub program: &'a [u8],
    pub input: Stdin,
    pub output: Stdout,
    pub errors: Stderr,
}

// Bytes enough for the system's words for an error, and its number.
const TEXT_BYTES: usize = 128;

// Whether the call that has just failed is to be made again. Where it would have to wait, whoever it waits for is let run first.
fn tries_again(error: &Error) -> bool {
    match error.kind() {
        ErrorKind::WouldBlock => {
            yield_now();
            true
        }
        ErrorKind::Interrupted => true,
        _ => false,
    }
}

// How many bytes of an error's text are the system's words: the library puts a space and the error's number in parentheses behind them.
fn words_of(text: &[u8]) -> usize
    ensures { result ≤ length text.now }
{
    match text.iter().position(|b| *b == b'(') {
        Some(at) => at.saturating_sub(1),
        None => text.len(),
    }
}

// An error's text in front of some bytes; how many it has. No String: the project has no heap.
fn text_of(error: &Error, text: &mut [u8; TEXT_BYTES]) -> usize
    ensures { result ≤ 128 }
{
    let mut rest = &mut text[..];
    let _written = write!(rest, "{error}").is_ok();
    TEXT_BYTES.saturating_sub(rest.len())
}

impl Failure {
    fn text(self) -> &'static [u8] {
        match self {
            Failure::Read => b": cannot read standard input",
            Failure::Write => b": cannot write standard output",
        }
    }
}

impl<'a> Streams<'a> {
    // Those that `main` is given.
    pub fn of(rt: &HostRuntime, program: &'a [u8]) -> Self
        ensures { result.program.now ≡ program.now }
    {
        Streams {
            program,
            input: rt.stdin(),
            output: rt.stdout(),
            errors: rt.stderr(),
        }
    }

    // A failure told on standard error: who and what, then the system's words. Where that cannot be written either, nobody can be told.
    fn tell(self, failure: Failure, who: &[u8], what: &[u8], error: &Error) -> Failure {
        let mut text = [0u8; TEXT_BYTES];
        let n = text_of(error, &mut text);
        let words = words_of(&text[..n]);
        let _who = self.errors.write_all(who).is_ok();
        let _what = self.errors.write_all(what).is_ok();
        let _colon = self.errors.write_all(b": ").is_ok();
        let _words = self.errors.write_all(&text[..words]).is_ok();
        let _end = self.errors.write_all(b"\n").is_ok();
        failure
    }

    // How many bytes came of standard input, which stand at the start of the chunk: none at the end of the input. A proved loop has to end: this many
    // calls that give nothing take longer than any machine lasts.
    fn read_told(self, chunk: &mut [u8], who: &[u8], what: &[u8]) -> Result<usize, Failure>
        ensures { Moved (length chunk.new) result }
    {
        let mut input = self.input;
        for _ in 0..u64::MAX {
            match input.read(chunk) {
                Ok(got) => return Ok(got),
                Err(error) => {
                    if !tries_again(&error) {
                        return Err(self.tell(Failure::Read, who, what, &error));
                    }
                }
            }
        }
        Err(Failure::Read)
    }

    // How many bytes standard output took of these. To take none is a failure.
    fn write_some(self, out: &[u8], who: &[u8], what: &[u8]) -> Result<usize, Failure>
        ensures { TakesSome (length out.now) result }
    {
        for _ in 0..u64::MAX {
            match self.output.write_some(out) {
                Ok(0) => {
                    let error = Error::from(ErrorKind::WriteZero);
                    return Err(self.tell(Failure::Write, who, what, &error));
                }
                Ok(put) => return Ok(put),
                Err(error) => {
                    if !tries_again(&error) {
                        return Err(self.tell(Failure::Write, who, what, &error));
                    }
                }
            }
        }
        Err(Failure::Write)
    }

    // Writes all of it. A write may take a part: the next goes on behind it.
    fn write_told(self, out: &[u8], who: &[u8], what: &[u8]) -> Result<(), Failure> {
        let mut rest = out;
        // How much a write takes is known only once it is made, so no `for` goes over it.
        while !rest.is_empty() {
            let put = self.write_some(rest, who, what)?;
            rest = &rest[put..];
        }
        Ok(())
    }

    // Reads once. A failure is told under the program's name.
    pub fn read_chunk(self, chunk: &mut [u8]) -> Result<usize, Failure>
        ensures { Moved (length chunk.new) result }
    {
        self.read_told(chunk, self.program, Failure::Read.text())
    }

    // Writes all of it. A failure is told under the program's name.
    pub fn write_out(self, out: &[u8]) -> Result<(), Failure> {
        self.write_told(out, self.program, Failure::Write.text())
    }
}

// Reads once, for a caller that gives the line of a failure.
pub fn read_chunk(streams: Streams, chunk: &mut [u8], failure: &[u8]) -> Result<usize, Failure>
    ensures { Moved (length chunk.new) result }
{
    streams.read_told(chunk, failure, b"")
}

// Writes all of it, for a caller that gives the line of a failure.
pub fn write_out(streams: Streams, out: &[u8], failure: &[u8]) -> Result<(), Failure> {
    streams.write_told(out, failure, b"")
}
