// An answer line written in front of some bytes whose rest is kept: document 01, "Lines". A line here has no newline.
#![tactic(auto)]

ghost use Rattle.std.specs.Prelude.{◌≤◌, [], ◌∷◌, length, pos};
ghost use Rattle.lines.specs.Lines.{line_length, line_of, Room, Written};
ghost use Rattle.answers.specs.Answers.{answer_line, no_call_line, AnswerRoom};

use fields::numbers::write_ids;
use fields::{WIDTH, above};
use ledger::Answer;
use lines::writing::write_line;

// The numbers of an accepted ask's answer before the ids: number, ids listed, cells, useful, rounds.
pub const ANSWER_NUMBERS: usize = 5;

// The letter, the number and the value returned.
fn write_start(letter: u8, number: usize, value: usize, out: &mut [u8]) -> usize
    requires { Room (pos number ∷ pos value ∷ []) out.old }
    ensures { Written (line_of letter (pos number ∷ pos value ∷ [])) out.old out.new result }
{
    write_line(letter, &[above(number), above(value)], out)
}

// The line of what is no call: `?`, 9, 0.
#[tactic(auto, unfolding(ints::specs::Lists::every, lines::specs::Lines::letter_of, crate::specs::Answers::no_call_line))]
pub fn write_no_call(out: &mut [u8]) -> usize
    requires { line_length 2 ≤ length out.old }
    ensures { Written no_call_line out.old out.new result }
{
    write_start(b'?', 9, 0, out)
}

// An answer's line in front, the rest kept; the bytes written are returned.
pub fn write_answer(letter: u8, answer: Answer, ids: &[u16], out: &mut [u8]) -> usize
    requires { AnswerRoom answer ids.now out.old }
    ensures { Written (answer_line letter answer ids.now) out.old out.new result }
{
    match answer {
        Answer::Accepted(held) => write_start(letter, 0, held, out),
        // the ids listed, cells, useful and rounds, then the ids
        Answer::Listed(listed, cells, useful, rounds) => {
            let numbers = [0, above(listed), above(cells), above(useful), above(rounds)];
            let end = write_line(letter, &numbers, out);
            write_ids(out, end, ids);
            end + WIDTH * ids.len()
        }
        Answer::Refused(why) => write_start(letter, why.number(), why.value(), out),
    }
}
