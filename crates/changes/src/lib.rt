// Changes of a run: a row added or withdrawn, and Sigma of the run as it then is, of lent sheets into two lent trays.
#![tactic(auto)]

mod calls;
pub mod exports;
mod results;
mod tables;

pub use calls::{add_row, withdraw_row};
use steps::Refusal;

// The byte lengths of the run's sheet and of the pushed one.
#[derive(Clone, Copy, Debug, PartialEq, Eq)]
pub struct Lengths {
    pub run: usize,
    pub pushed: usize,
}

// The answer of a change.
pub type Changed = Result<Lengths, Refusal>;
