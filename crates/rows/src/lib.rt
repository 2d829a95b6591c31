// A row of an instance in working arrays: judged before it is added, put at its table's end, and taken out.
#![tactic(auto)]

pub mod adding;
pub mod judge;
pub mod withdrawing;
