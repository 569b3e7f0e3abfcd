// The four shapes, each drawn by way of the others, of half the size, until the side is 1: document 02, A1.
ghost use Rattle.std.specs.Prelude.{◌≡◌};
ghost use Rattle.grid.specs.Curve.{IsCurve};
ghost use Rattle.shapes.specs.Shapes.{ShapeA, ShapeB, ShapeC, ShapeD};
ghost use Rattle.drawing.specs.Needs.{Fits};
ghost use Rattle.drawing.specs.Drawn.{drawn};

use crate::squares::{ORDER, Square};
use grid::{CELLS, Cell};

// The corners that a quarter lies at, as cells of a square of side 2.
const LOWER_LEFT: Cell = Cell { column: 0, row: 0 };

const LOWER_RIGHT: Cell = Cell { column: 1, row: 0 };

const UPPER_LEFT: Cell = Cell { column: 0, row: 1 };

const UPPER_RIGHT: Cell = Cell { column: 1, row: 1 };

// These stay four functions: document 02 asks for shapes drawn by way of one another, four functions in a cycle of calls, the order falling at each call.

#[cycle(draw_a_draw_b_draw_c_draw_d)]
fn draw_a(out: &mut [u16; CELLS], square: Square)
    requires { Fits square }
    ensures { out.new ≡ drawn ShapeA square out.old }
{
    if square.order == 0 {
        square.number_cell(out);
        return;
    }
    draw_b(out, square.quarter(0, LOWER_LEFT));
    draw_a(out, square.quarter(1, UPPER_LEFT));
    draw_a(out, square.quarter(2, UPPER_RIGHT));
    draw_c(out, square.quarter(3, LOWER_RIGHT));
}

#[cycle(draw_a_draw_b_draw_c_draw_d)]
fn draw_b(out: &mut [u16; CELLS], square: Square)
    requires { Fits square }
    ensures { out.new ≡ drawn ShapeB square out.old }
{
    if square.order == 0 {
        square.number_cell(out);
        return;
    }
    draw_a(out, square.quarter(0, LOWER_LEFT));
    draw_b(out, square.quarter(1, LOWER_RIGHT));
    draw_b(out, square.quarter(2, UPPER_RIGHT));
    draw_d(out, square.quarter(3, UPPER_LEFT));
}

#[cycle(draw_a_draw_b_draw_c_draw_d)]
fn draw_c(out: &mut [u16; CELLS], square: Square)
    requires { Fits square }
    ensures { out.new ≡ drawn ShapeC square out.old }
{
    if square.order == 0 {
        square.number_cell(out);
        return;
    }
    draw_d(out, square.quarter(0, UPPER_RIGHT));
    draw_c(out, square.quarter(1, UPPER_LEFT));
    draw_c(out, square.quarter(2, LOWER_LEFT));
    draw_a(out, square.quarter(3, LOWER_RIGHT));
}

#[cycle(draw_a_draw_b_draw_c_draw_d)]
fn draw_d(out: &mut [u16; CELLS], square: Square)
    requires { Fits square }
    ensures { out.new ≡ drawn ShapeD square out.old }
{
    if square.order == 0 {
        square.number_cell(out);
        return;
    }
    draw_c(out, square.quarter(0, UPPER_RIGHT));
    draw_d(out, square.quarter(1, LOWER_RIGHT));
    draw_d(out, square.quarter(2, LOWER_LEFT));
    draw_b(out, square.quarter(3, UPPER_LEFT));
}

// The curve table of the grid, each cell's number by 32 times its row and its column: shape A drawn in the whole grid.
pub fn drawn_curve() -> [u16; CELLS]
    ensures { IsCurve result }
{
    let mut numbers = [0u16; CELLS];
    let grid = Square {
        order: ORDER,
        column: 0,
        row: 0,
        first: 0,
    };
    draw_a(&mut numbers, grid);
    numbers
}
