// The curve table of the grid drawn from the four shapes of document 02, A1, and the text of it that the chart room prints.
#![tactic(auto)]

mod chart;
mod drawn;
mod squares;

pub use chart::{CHART_BYTES, write_chart};
pub use drawn::drawn_curve;
