// The four methods over the rows of one slot of a lent table.
ghost use Rattle.std.specs.Prelude.{◌≡◌, min};
ghost use Rattle.rows.specs.Row.{empty_row};
ghost use Rattle.methods.specs.Aims.{aim_of};
ghost use Rattle.methods.specs.Methods.{cells_found, expanded_block, naive_block, semi_naive_block, iterative_search, iterated, most_rounds};
ghost use Rattle.methods.specs.Numbered.{number_of};
ghost use Rattle.choosing.specs.Choose.{found_of, FoundIs, SearchIs, ChosenBy, CanChoose, CanFind, CanMarkFound};
ghost use Rattle.choosing.specs.Mark.{Marked, CanSearch};
ghost use Rattle.choosing.specs.Slot.{rows_in};
ghost use Rattle.reaching.specs.Reaching.{CanExpandView};

use crate::Searched;
use crate::bounds::{block_bounds_in, phase_bounds_in};
use crate::mark::{clear, mark_block_by};
use crate::reached::mark_reached_in;
use crate::slot::SlotRows;
use grid::CurveNumbers;
use methods::{Block, Method, View};
use reaching::{block_of, expanded};
use rows::Row;

// The most rounds of the iterative method: more than columns and rows of any block allow.
const MOST_ROUNDS: usize = grid::SIDE + grid::SIDE;

// The block of the rectangle expanded by bounds, or none where they are missing.
fn expanded_block(bounds: Row, view: View) -> Option<Block>
    requires { CanExpandView view bounds }
    ensures { FoundIs result (expanded_block bounds (aim_of view)) }
{
    if bounds.is_empty() {
        return None;
    }
    Some(block_of(expanded(view, bounds)))
}

// The naive method's block: expanded by the phase's bounds.
fn naive_block(rows: &SlotRows, view: View) -> Option<Block>
    requires { CanFind (rows_in rows.now) view }
    ensures { FoundIs result (naive_block (rows_in rows.now) (aim_of view)) }
{
    expanded_block(phase_bounds_in(rows), view)
}

// The semi-naive method's block: expanded by the bounds of the naive block's rows.
fn semi_naive_block(rows: &SlotRows, view: View) -> Option<Block>
    requires { CanFind (rows_in rows.now) view }
    ensures { FoundIs result (semi_naive_block (rows_in rows.now) (aim_of view)) }
{
    let naive = naive_block(rows, view)?;
    expanded_block(block_bounds_in(rows, naive), view)
}

// The rounds of the iterative method, from the naive block.
fn search(rows: &SlotRows, view: View, naive: Block) -> Searched
    requires { CanSearch (rows_in rows.now) view naive }
    ensures { SearchIs result (iterated most_rounds (rows_in rows.now) (aim_of view) empty_row naive 0) }
{
    let mut before = Row::empty();
    let mut block = naive;
    for rounds in 0..MOST_ROUNDS {
        let bounds = block_bounds_in(rows, block);
        if bounds.is_empty() {
            return Searched {
                found: None,
                rounds: rounds + 1,
            };
        }
        if bounds.same(before) {
            return Searched {
                found: Some(block),
                rounds,
            };
        }
        before = bounds;
        block = block_of(expanded(view, bounds));
    }
    Searched {
        found: Some(block),
        rounds: MOST_ROUNDS,
    }
}

// What the iterative method comes to: where there is no naive block, none in no round.
fn iterative_search(rows: &SlotRows, view: View) -> Searched
    requires { CanFind (rows_in rows.now) view }
    ensures { SearchIs result (iterative_search (rows_in rows.now) (aim_of view) (naive_block (rows_in rows.now) (aim_of view))) }
{
    match naive_block(rows, view) {
        None => Searched {
            found: None,
            rounds: 0,
        },
        Some(naive) => search(rows, view, naive),
    }
}

// Marks the cells of a block, if there is one.
fn mark_found(curve: &CurveNumbers, found: Option<Block>, marks: &mut [u8])
    requires { CanMarkFound found marks.old }
    ensures { Marked marks.old (cells_found (found_of found)) marks.new }
{
    if let Some(block) = found {
        mark_block_by(curve, block, marks);
    }
}

// The method of a number; every number from 3 on is the optimal method. It chooses what the number does: `method_chooses` (proofs/ChooseLaws.antt).
pub fn method_of(number: usize) -> Method
    ensures { number_of result ≡ min number 3 }
{
    match number {
        0 => Method::Naive,
        1 => Method::SemiNaive,
        2 => Method::Iterative,
        _ => Method::Optimal,
    }
}

// The choice of a method, as marks by curve number, and its rounds. How many cells are marked is not given: cells are counted where they are read.
pub fn choose_by(table: &[i16], slot: usize, method: Method, view: View, marks: &mut [u8]) -> usize
    requires { CanChoose table.now slot view marks.old }
    ensures { ChosenBy (number_of method) table.now slot (aim_of view) marks.new result }
{
    clear(marks);
    let rows = SlotRows::new(table, slot);
    match method {
        Method::Naive => {
            mark_found(&rows.curve, naive_block(&rows, view), marks);
            0
        }
        Method::SemiNaive => {
            mark_found(&rows.curve, semi_naive_block(&rows, view), marks);
            0
        }
        Method::Iterative => {
            let searched = iterative_search(&rows, view);
            mark_found(&rows.curve, searched.found, marks);
            searched.rounds
        }
        Method::Optimal => {
            mark_reached_in(&rows, view, marks);
            0
        }
    }
}

// `choose_by`, for a caller that has the method by its number, any number: from 3 on it is the optimal method.
pub fn choose(table: &[i16], slot: usize, method: usize, view: View, marks: &mut [u8]) -> usize
    requires { CanChoose table.now slot view marks.old }
    ensures { ChosenBy method table.now slot (aim_of view) marks.new result }
{
    choose_by(table, slot, method_of(method), view, marks)
}
