// A call line written in front of some bytes whose rest is kept.
#![tactic(auto, unfolding(crate::specs::Lines::change_numbers, crate::specs::Lines::numbers_of, crate::specs::Lines::letter_of, crate::specs::Lines::call_line))]

ghost use Rattle.std.specs.Prelude.{◌≡◌, true};
ghost use Rattle.ledger.specs.declared.Call.TheVariants as Calls;
ghost use Rattle.fields.specs.Numbers.{are_writable};
ghost use Rattle.lines.specs.Lines.{line_of, report_numbers, change_numbers, rect_numbers, ask_numbers, numbers_of, call_line, Room, Written};

use crate::Line;
use fields::WIDTH;
use fields::numbers::write_numbers;
use grid::{Rect, Report, When};
use ledger::{Ask, Call, Change};

// A letter and some numbers.
pub fn write_line(letter: u8, numbers: &[i32], out: &mut [u8]) -> usize
    requires { Room numbers.now out.old }
    ensures { Written (line_of letter numbers.now) out.old out.new result }
{
    out[0] = letter;
    write_numbers(out, 1, numbers);
    1 + WIDTH * numbers.len()
}

// ---- a call line

fn write_report(letter: u8, r: Report, out: &mut [u8]) -> usize
    requires { Room (report_numbers r) out.old }
    ensures { Written (line_of letter (report_numbers r)) out.old out.new result }
{
    write_line(letter, &[r.id, r.t, r.x, r.y, r.vx, r.vy], out)
}

fn write_change(change: Change, out: &mut [u8]) -> usize
    requires { Room (change_numbers change) out.old }
    ensures { Written (call_line (Line.Call (Calls.Change change))) out.old out.new result }
{
    match change {
        Change::Add(r) => write_report(b'A', r, out),
        Change::Report(r) => write_report(b'U', r, out),
        Change::Drop(id, t) => write_line(b'D', &[id, t], out),
    }
}

// A rectangle's numbers, in the order in which a line has them.
fn corners_of(rect: Rect) -> [i32; 4]
    requires { are_writable (rect_numbers rect) ≡ true }
    ensures { result ≡ rect_numbers rect }
{
    [
        rect.x.low as i32,
        rect.y.low as i32,
        rect.x.high as i32,
        rect.y.high as i32,
    ]
}

fn write_ask(ask: Ask, out: &mut [u8]) -> usize
    requires { Room (ask_numbers ask) out.old }
    ensures { Written (call_line (Line.Call (Calls.Ask ask))) out.old out.new result }
{
    let method = ask.method;
    let [low_x, low_y, high_x, high_y] = corners_of(ask.query.rect);
    match ask.query.when {
        When::At(time) => write_line(b'Q', &[method, time, low_x, low_y, high_x, high_y], out),
        When::During(first, last) => write_line(
            b'W',
            &[method, first, last, low_x, low_y, high_x, high_y],
            out,
        ),
    }
}

// A call's line in front, the rest kept; the bytes written are returned. What is no call writes nothing.
pub fn write_call(line: Line, out: &mut [u8]) -> usize
    requires { Room (numbers_of line) out.old }
    ensures { Written (call_line line) out.old out.new result }
{
    match line {
        Line::Open(t) => write_line(b'O', &[t], out),
        Line::Call(Call::Clock(t)) => write_line(b'C', &[t], out),
        Line::Call(Call::Change(change)) => write_change(change, out),
        Line::Call(Call::Ask(ask)) => write_ask(ask, out),
        Line::NoCall => 0,
    }
}
