// Delta, Sigma, Pi and matchings on lent sheets. Every call takes sheets of any length and content, and answers with a result or with the
// first refusal that applies.
#![tactic(auto)]

mod checks;
mod explain;
pub mod exports;
mod first;
mod joins;
mod matchings;
mod migrate;
mod printing;
mod sides;
mod turnings;

pub use checks::{check_instance, check_mapping, check_pushed, check_raw, check_schema};
pub use explain::path_chain;
pub use first::first_path;
pub use joins::pi;
pub use migrate::{delta, sigma};
pub use printing::push;
pub use schema::faults::Fault;
pub use steps::{Refusal, Verdict, Written};
pub use turnings::{pushed_to_raw, raw_to_pushed};

// The answer to which steps lead from one path to another: the byte length of the chain's sheet, or that there is none, the paths being unequal.
pub type Explained = Result<Option<usize>, Refusal>;
