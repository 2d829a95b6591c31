// Composed mappings: of F from S to T and G from T to U, the mapping from S to U, of lent sheets.
#![tactic(auto)]

mod call;
pub mod exports;
mod images;
mod writing;

pub use call::compose;
