// The input read: one line of three numbers in 10 columns, whose newline may be missing.
ghost use Rattle.std.specs.Prelude.{◌≡◌, ◌≤◌, length};
ghost use Rattle.fleets.specs.Inputs.{line_columns, is_line, fleet_of, numbers_say, read_fleet};

use crate::{Fleet, MOST_FLOATS};
use fields::WIDTH;
use fields::reading::read_unsigned;

// The numbers of the line.
const NUMBERS: usize = 3;

// The last state.
const LAST_STATE: usize = 4294967295;

#[tactic(auto, unfolding(crate::specs::Inputs::is_line))]
fn is_line(input: &[u8]) -> bool
    ensures { result ≡ is_line input.now }
{
    let columns = NUMBERS * WIDTH;
    input.len() == columns || input.len() == columns + 1 && input[columns] == b'\n'
}

// The fleet of three numbers, each in its range.
#[tactic(auto, unfolding(crate::specs::Inputs::is_fleet, crate::specs::Inputs::fleet_of))]
fn fleet_of(start: usize, floats: usize, skip: usize) -> Option<Fleet>
    ensures { result ≡ fleet_of start floats skip }
{
    if start <= LAST_STATE && (1..=MOST_FLOATS).contains(&floats) && skip <= floats {
        Some(Fleet {
            start: start as u32,
            floats,
            skip,
        })
    } else {
        None
    }
}

#[tactic(auto, unfolding(crate::specs::Inputs::three_say, crate::specs::Inputs::numbers_say))]
fn read_numbers(line: &[u8]) -> Option<Fleet>
    requires { line_columns ≤ length line.now }
    ensures { result ≡ numbers_say line.now }
{
    let start = read_unsigned(line, 0)?;
    let floats = read_unsigned(line, WIDTH)?;
    let skip = read_unsigned(line, 2 * WIDTH)?;
    fleet_of(start, floats, skip)
}

// The fleet that an input says; any other input says none.
#[tactic(auto, using(crate::proofs::InputsLaws::line_long), unfolding(crate::specs::Inputs::read_fleet))]
pub fn read_fleet(input: &[u8]) -> Option<Fleet>
    ensures { result ≡ read_fleet input.now }
{
    if is_line(input) {
        read_numbers(input)
    } else {
        None
    }
}
