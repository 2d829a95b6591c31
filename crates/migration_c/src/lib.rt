// The static library: every call of include/migration.h, under its name and with the clauses of the function that it calls. A slice is its address and its
// length, and an answer is one number, as the exports of `migration`, `query`, `changes` and `compose` say.
#![tactic(auto)]

mod changing;
mod checks;
mod composing;
mod equal_paths;
mod matchings;
mod migrations;
mod querying;
