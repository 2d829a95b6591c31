// Queries: Sigma along H of Pi along G of Delta along F, of lent sheets. F goes from the second schema to the first, G from the second to the third, H
// from the third to the fourth.
#![tactic(auto)]

mod answer;
pub mod exports;
pub mod open;
mod printing;
mod tables;

pub use answer::query;
pub use printing::dig;
