// The bounds of many rows, 16 rows at a time: their 64 numbers are folded lane by lane, without a branch, into 64 least and 64 greatest, and the 16 lane rows are joined at the end.
ghost use Rattle.std.specs.Prelude.{◌≡◌, ◌<◌, length};
ghost use Rattle.grid.specs.Units.{cells};
ghost use Rattle.rows.specs.Row.{empty_row, bounds_of};
ghost use Rattle.rows.specs.Table.{slot_rows};
ghost use Rattle.rows.specs.Needs.{HasSlot};
ghost use Rattle.lanes.specs.Lanes.{lanes, lane_row_count, Folded, lane_row, lane_bounds};

use rows::{ROW_WORDS, Row, SLOT_WORDS};

// The rows folded together, and their numbers.
const LANE_ROWS: usize = 16;

const LANES: usize = ROW_WORDS * LANE_ROWS;

// The least and the greatest number so far of each lane.
#[derive(Drop)]
struct Lanes {
    least: [i16; LANES],
    greatest: [i16; LANES],
}

impl Lanes {
    // Before the first row.
    fn empty() -> Self
        ensures { lane_bounds result.least result.greatest ≡ empty_row }
    {
        Lanes {
            least: [Row::EMPTY_LEAST; LANES],
            greatest: [Row::EMPTY_GREATEST; LANES],
        }
    }

    // The numbers of 16 rows folded, each into its lane.
    fn fold(&mut self, block: &[i16])
        requires { length block.now ≡ lanes }
        ensures { Folded block.now self.old.least self.old.greatest self.new.least self.new.greatest }
    {
        for j in 0..LANES {
            let v = block[j];
            self.least[j] = v.min(self.least[j]);
            self.greatest[j] = v.max(self.greatest[j]);
        }
    }

    fn row(&self, j: usize) -> Row
        requires { j < lane_row_count }
        ensures { result ≡ lane_row self.now.least self.now.greatest j }
    {
        let k = ROW_WORDS * j;
        Row {
            least_vx: self.least[k],
            greatest_vx: self.greatest[k + 1],
            least_vy: self.least[k + 2],
            greatest_vy: self.greatest[k + 3],
        }
    }

    // The lane rows joined.
    fn join(&self) -> Row
        ensures { result ≡ lane_bounds self.now.least self.now.greatest }
    {
        let mut bounds = Row::empty();
        // From the last row to the first: in the other order the compiler moves half of the lanes from register to register, and the bounds of three
        // slots take 1.0 us, not 0.8.
        for j in (0..LANE_ROWS).rev() {
            bounds = self.row(j).join(bounds);
        }
        bounds
    }
}

// The bounds of all rows of a slot, in one pass: 16 rows at a time are folded into the lanes.
pub fn slot_bounds(table: &[i16], slot: usize) -> Row
    requires { HasSlot table.now slot }
    ensures { result ≡ bounds_of (slot_rows table.now slot 0 cells) }
{
    let mut lanes = Lanes::empty();
    for block in 0..grid::CELLS / LANE_ROWS {
        let start = SLOT_WORDS * slot + LANES * block;
        lanes.fold(&table[start..start + LANES]);
    }
    lanes.join()
}
