// The bytes of the input, taken one by one: document 01, "Lines". A newline ends a line, which is answered; only the first bytes of a line are held,
// so the memory does not grow with it.
ghost use Rattle.std.specs.Prelude.{◌≤◌, ◌+◌, length};
ghost use Rattle.records.specs.Words.{words};
ghost use Rattle.session.specs.Session.{lent};
ghost use Rattle.session.specs.Feeding.{CanFeed, Holds, EndsLine, Takes, FeedsKept, EndsKept};

use answering::OpenIndex;

// How many bytes of a line are held: one more than the longest call line has, so that a longer line is told from it.
pub const LINE_BYTES: usize = lines::LONGEST_CALL + 1;

// The bytes of the longest answer, every id listed, with its newline.
pub const ANSWER_BYTES: usize = 1
    + fields::WIDTH * (answers::ANSWER_NUMBERS + records::CAPACITY)
    + 1;

// The index, and the first bytes of the line that has not ended yet: all that is kept of an input, for one who owns it: `feed` and `finish` beside it
// take it lent. The line has a fixed place and the number of bytes held in it, since the project has no heap.
#[derive(Drop)]
pub struct Buffers {
    pub index: OpenIndex,
    pub line: [u8; LINE_BYTES],
    pub held: usize,
    pub ghost few: { held ≤ length line },
}

// How many bytes of a chunk were taken, how many bytes of the answers are there to be written, and how many of the line are held.
#[derive(Clone, Copy)]
pub struct Fed {
    pub taken: usize,
    pub filled: usize,
    pub held: usize,
}

// One more byte of the line held, unless it is longer than any call line already.
fn hold(line: &mut [u8], held: &mut usize, b: u8)
    requires { held.old ≤ length line.old }
    ensures { Holds b line.old held.old line.new held.new }
{
    if *held < line.len() {
        line[*held] = b;
        *held += 1;
    }
}

// The line that is held, answered.
fn end_line(
    store: &mut [i32],
    table: &mut [i16],
    list: &mut [u16],
    line: &[u8],
    held: usize,
    out: &mut [u8],
) -> usize
    requires { CanFeed store.old table.old list.old line.now held out.old }
    ensures { EndsLine (lent store.old table.old line.now held) (words store.new table.new) out.old out.new result }
{
    answering::answer_line(store, table, list, &line[..held], out)
}

// How many bytes of an answer are there to be written: none within a line. After a newline the next line begins.
fn take_byte(
    store: &mut [i32],
    table: &mut [i16],
    list: &mut [u16],
    line: &mut [u8],
    held: &mut usize,
    b: u8,
    out: &mut [u8],
) -> usize
    requires { CanFeed store.old table.old list.old line.old held.old out.old }
    ensures { Takes b (lent store.old table.old line.old held.old) (lent store.new table.new line.new held.new) out.old out.new result }
{
    if b == b'\n' {
        let filled = end_line(store, table, list, line, *held, out);
        *held = 0;
        return filled;
    }
    hold(line, held, b);
    0
}

// Takes the bytes of a chunk, in order, over buffers that are lent, until all are taken or the answers leave no room for one more.
pub fn feed(
    store: &mut [i32],
    table: &mut [i16],
    list: &mut [u16],
    line: &mut [u8],
    held: usize,
    chunk: &[u8],
    out: &mut [u8],
) -> Fed
    requires { CanFeed store.old table.old list.old line.old held out.old }
    ensures { FeedsKept chunk.now (lent store.old table.old line.old held) (lent store.new table.new line.new result.held) out.new result }
{
    let last = out.len() - ANSWER_BYTES;
    let mut held = held;
    let mut filled = 0;
    for (taken, b) in chunk.iter().enumerate() {
        if last < filled {
            return Fed {
                taken,
                filled,
                held,
            };
        }
        filled += take_byte(store, table, list, line, &mut held, *b, &mut out[filled..]);
    }
    Fed {
        taken: chunk.len(),
        filled,
        held,
    }
}

// Answers a last line that lacks its newline, over buffers that are lent.
pub fn finish(
    store: &mut [i32],
    table: &mut [i16],
    list: &mut [u16],
    line: &mut [u8],
    held: usize,
    out: &mut [u8],
) -> usize
    requires { CanFeed store.old table.old list.old line.old held out.old }
    ensures { EndsKept (lent store.old table.old line.old held) (words store.new table.new) out.new result }
{
    if held == 0 {
        return 0;
    }
    end_line(store, table, list, line, held, out)
}

impl Buffers {
    ghost use Rattle.answering.specs.Answering.{answer_bytes};
    ghost use Rattle.session.specs.Session.{begun};
    ghost use Rattle.session.specs.Buffers.{Stands, Feeds, Ends};

    // Before the first byte of an input.
    pub fn new() -> Self
        ensures { Stands begun result }
    {
        Buffers {
            index: OpenIndex::new(),
            line: [0; LINE_BYTES],
            held: 0,
        }
    }

    // Takes the bytes of a chunk, in order, until all are taken or the answers leave no room for one more.
    pub fn feed(&mut self, chunk: &[u8], out: &mut [u8]) -> Fed
        requires { answer_bytes ≤ length out.old }
        ensures { Feeds chunk.now self.old self.new out.new result }
    {
        let index = &mut self.index;
        let fed = feed(
            &mut index.store,
            &mut index.table,
            &mut index.list,
            &mut self.line,
            self.held,
            chunk,
            out,
        );
        self.held = fed.held;
        fed
    }

    // Answers a last line that lacks its newline.
    pub fn finish(&mut self, out: &mut [u8]) -> usize
        requires { answer_bytes ≤ length out.old }
        ensures { Ends self.old self.new out.new result }
    {
        let index = &mut self.index;
        let filled = finish(
            &mut index.store,
            &mut index.table,
            &mut index.list,
            &mut self.line,
            self.held,
            out,
        );
        self.held = 0;
        filled
    }
}
