// A call line read: its numbers one by one, then the call of its letter.
ghost use Rattle.std.specs.Prelude.{◌≡◌, ◌≤◌, MatchOption};
ghost use Rattle.lines.specs.Lines.{most_numbers};
ghost use Rattle.lines.specs.Reading.{numbers_read, report_in, BeginsNone, call_of, count_of, read_line};

use crate::{Line, MOST_NUMBERS};
use fields::WIDTH;
use fields::reading::read_field;
use grid::Report;
use ledger::{Ask, Call, Change};

// The numbers of a line that has just so many and nothing more, with 0 past them.
fn read_numbers(line: &[u8], count: usize) -> Option<[i32; MOST_NUMBERS]>
    requires { count ≤ most_numbers }
    ensures { result ≡ numbers_read line.now count }
{
    if line.len() != 1 + WIDTH * count {
        return None;
    }
    let mut numbers = [0; MOST_NUMBERS];
    for k in 0..count {
        numbers[k] = read_field(line, 1 + WIDTH * k)?;
    }
    Some(numbers)
}

// How many numbers follow a letter that begins a call.
#[tactic(auto, unfolding(crate::specs::Lines::change_numbers, crate::specs::Lines::numbers_of, crate::specs::Reading::call_of, crate::specs::Reading::count_of))]
fn count_of(letter: u8) -> Option<usize>
    ensures { MatchOption result (BeginsNone letter) (λ n. n ≡ count_of letter) }
{
    match letter {
        b'O' | b'C' => Some(1),
        b'D' => Some(2),
        b'A' | b'U' | b'Q' => Some(6),
        b'W' => Some(7),
        _ => None,
    }
}

fn report_of(n: &[i32; MOST_NUMBERS]) -> Report
    ensures { result ≡ report_in n.now }
{
    Report {
        id: n[0],
        t: n[1],
        x: n[2],
        y: n[3],
        vx: n[4],
        vy: n[5],
    }
}

#[tactic(auto, unfolding(crate::specs::Reading::call_of))]
fn call_of(letter: u8, n: &[i32; MOST_NUMBERS]) -> Line
    ensures { result ≡ call_of letter n.now }
{
    match letter {
        b'O' => Line::Open(n[0]),
        b'C' => Line::Call(Call::Clock(n[0])),
        b'A' => Line::Call(Call::Change(Change::Add(report_of(n)))),
        b'U' => Line::Call(Call::Change(Change::Report(report_of(n)))),
        b'D' => Line::Call(Call::Change(Change::Drop(n[0], n[1]))),
        b'Q' => Line::Call(Call::Ask(Ask::of(n[0], n[1], n[2], n[3], n[4], n[5]))),
        b'W' => Line::Call(Call::Ask(Ask::window(n[0], n[1], n[2], n[3], n[4], n[5], n[6]))),
        _ => Line::NoCall,
    }
}

#[tactic(auto, using(crate::proofs::ReadingLaws::read_call_laws))]
pub fn read_call(line: &[u8]) -> Line
    ensures { result ≡ read_line line.now }
{
    let Some(&letter) = line.first() else {
        return Line::NoCall;
    };
    let Some(count) = count_of(letter) else {
        return Line::NoCall;
    };
    match read_numbers(line, count) {
        Some(numbers) => call_of(letter, &numbers),
        None => Line::NoCall,
    }
}
