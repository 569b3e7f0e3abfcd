// What a window and a cell reach: document 02, A3, the smallest around what they reach at both its times.
ghost use Rattle.std.specs.Prelude.{◌≡◌};
ghost use Rattle.methods.specs.Reach.{around_ranges, around_rects, expanded_window};
ghost use Rattle.reaching.specs.Reaching.{CanExpandWindow};

use crate::expanded_slice;
use grid::{Range, Rect};
use methods::{Slice, Window};
use rows::Row;

// The smallest range that holds two.
fn around_ranges(a: Range, b: Range) -> Range
    ensures { result ≡ around_ranges a b }
{
    Range {
        low: a.low.min(b.low),
        high: a.high.max(b.high),
    }
}

// The smallest rectangle that holds two.
fn around_rects(a: Rect, b: Rect) -> Rect
    ensures { result ≡ around_rects a b }
{
    Rect {
        x: around_ranges(a.x, b.x),
        y: around_ranges(a.y, b.y),
    }
}

// The rectangle expanded by bounds, for both times.
pub fn expanded_window(w: Window, bounds: Row) -> Rect
    requires { CanExpandWindow w bounds }
    ensures { result ≡ expanded_window w bounds }
{
    let rect = w.rect;
    let at_first = expanded_slice(Slice { rect, d: w.first }, bounds);
    let at_last = expanded_slice(Slice { rect, d: w.last }, bounds);
    around_rects(at_first, at_last)
}
