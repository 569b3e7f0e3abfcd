// What tells whether a report is listed: a query of any kind, or document 01's timeslice query, which makes every comparison and has no branch.
ghost use Rattle.std.specs.Prelude.{◌≡◌};
ghost use Rattle.grid.specs.Reports.{is_listed};
ghost use Rattle.grid.specs.Small.{SmallListing};
ghost use Rattle.grid.specs.declared.Query.{Query};
ghost use Rattle.ints.specs.Whole.{between};
ghost use Rattle.reading.specs.Timeslices.{query_of};

use grid::{Query, Range, Rect, Report};

// A test that a pass over records makes of each report: whether the query behind it lists the report.
pub trait Lists: Copy {
    ghost query: { Self → Query };

    fn lists(self, r: Report) -> bool
        requires { SmallListing r (query self) }
        ensures { result ≡ is_listed (query self) r };
}

impl Lists for Query {
    ghost query = { λ query. query };

    fn lists(self, r: Report) -> bool {
        r.is_listed(self)
    }
}

// The floats in a rectangle at a time.
#[derive(Clone, Copy)]
pub struct Timeslice {
    pub rect: Rect,
    pub time: i32,
}

// Whether a range holds a number, by two comparisons and no branch.
fn is_within(range: Range, z: i64) -> bool
    ensures { result ≡ between range.low range.high z }
{
    (range.low <= z) & (z <= range.high)
}

impl Lists for Timeslice {
    ghost query = { query_of };

    fn lists(self, r: Report) -> bool {
        let s = i64::from(self.time);
        (r.t <= self.time) & (is_within(self.rect.x, r.x_at(s)) & is_within(self.rect.y, r.y_at(s)))
    }
}
