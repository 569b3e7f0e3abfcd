// One line answered: its call read, made on the index and its answer written. Store and table are known to be at a point of a list of calls, so
// they are sound and no call tests them.
#![tactic(auto)]

ghost use Rattle.std.specs.Prelude.{◌≡◌, ◌≤◌, length, pos};
ghost use Rattle.ledger.specs.Machine.{opened};
ghost use Rattle.history.specs.Points.{Point};
ghost use Rattle.records.specs.Words.{words};
ghost use Rattle.lines.specs.declared.Line.TheVariants as Lines;
ghost use Rattle.lines.specs.Lines.{letter_of};
ghost use Rattle.lines.specs.Reading.{read_line};
ghost use Rattle.answering.specs.Answering.{answer_bytes, longest_answer, ids_told, AtPoint, CanAnswer, CanTell, Answers, AnswersLine};

use ledger::{Answer, Call};
use lines::Line;
use records::{CAPACITY, STORE_WORDS};
use rows::TABLE_WORDS;

// An index that has been opened, and the list to which an ask writes its ids, for one who owns them: `answer_line` beside it takes them lent.
#[derive(Drop)]
pub struct OpenIndex {
    pub store: [i32; STORE_WORDS],
    pub table: [i16; TABLE_WORDS],
    pub list: [u16; CAPACITY],
    pub ghost at_point: { ∥ AtPoint store table ∥₁ },
}

// How many ids a call wrote in front of its list.
fn ids_told(answer: Answer) -> usize
    ensures { result ≡ ids_told answer }
{
    match answer {
        Answer::Accepted(_) => 0,
        Answer::Listed(listed, _, _, _) => listed,
        Answer::Refused(_) => 0,
    }
}

fn answer_call(
    store: &mut [i32],
    table: &mut [i16],
    list: &mut [u16],
    letter: u8,
    call: Call,
    out: &mut [u8],
) -> usize
    requires { CanTell (Lines.Call call) letter store.old table.old list.old out.old }
    ensures { Answers (Lines.Call call) (words store.old table.old) (words store.new table.new) out.old out.new result }
{
    let answer = engine::sound::call(store, table, list, call);
    let n = ids_told(answer);
    answers::write_answer(letter, answer, &list[..n], out)
}

fn answer_open(store: &mut [i32], table: &mut [i16], t: i32, out: &mut [u8]) -> usize
    requires at_point { ∥ AtPoint store.old table.old ∥₁ }
    requires room { longest_answer ≤ length out.old }
    ensures { Answers (Lines.Open t) (words store.old table.old) (words store.new table.new) out.old out.new result }
{
    let answer = engine::open(store, table, t);
    answers::write_answer(b'O', answer, &[], out)
}

// A line answered, without a newline: a call's answer has the letter of its line.
fn answer_said(
    store: &mut [i32],
    table: &mut [i16],
    list: &mut [u16],
    line: &[u8],
    out: &mut [u8],
) -> usize
    requires { CanAnswer longest_answer store.old table.old list.old out.old }
    ensures { Answers (read_line line.now) (words store.old table.old) (words store.new table.new) out.old out.new result }
{
    match lines::reading::read_call(line) {
        Line::Open(t) => answer_open(store, table, t, out),
        Line::Call(call) => answer_call(store, table, list, line[0], call, out),
        Line::NoCall => answers::write_no_call(out),
    }
}

// A line answered over buffers that are lent, its newline included: the bytes written are returned.
pub fn answer_line(
    store: &mut [i32],
    table: &mut [i16],
    list: &mut [u16],
    line: &[u8],
    out: &mut [u8],
) -> usize
    requires { CanAnswer answer_bytes store.old table.old list.old out.old }
    ensures { AnswersLine line.now (words store.old table.old) (words store.new table.new) out.old out.new result }
{
    let last = out.len() - 1;
    let n = answer_said(store, table, list, line, &mut out[..last]);
    out[n] = b'\n';
    n + 1
}

impl OpenIndex {
    ghost use Rattle.answering.specs.Index.{words_in};

    // Opened at 0.
    pub fn new() -> Self
        ensures { Point (opened (pos 0)) (words_in result) }
    {
        let mut store = [0; STORE_WORDS];
        let mut table = [0; TABLE_WORDS];
        engine::open(&mut store, &mut table, 0);
        OpenIndex {
            store,
            table,
            list: [0; CAPACITY],
        }
    }

    // A line answered, its newline included: the bytes written are returned.
    pub fn answer_line(&mut self, line: &[u8], out: &mut [u8]) -> usize
        requires { answer_bytes ≤ length out.old }
        ensures { AnswersLine line.now (words_in self.old) (words_in self.new) out.old out.new result }
    {
        answer_line(&mut self.store, &mut self.table, &mut self.list, line, out)
    }
}
