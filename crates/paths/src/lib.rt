// Paths of a schema: the table of all of them, with their classes.
#![tactic(auto)]

pub mod chains;
pub mod classes;
pub mod table;
pub mod walk;

ghost use Rattle.schema.specs.Decoded.{schema_of};
ghost use Rattle.schema.specs.Judged.{Sound};
ghost use Rattle.paths.specs.Classes.{IsPaths};

use schema::Schema;

// All paths of a graph, numbered in the paper's order. For each path: its start, its end and its length; the number of the path without its
// last edge, and that edge; the number of the first path of its class. The paths that follow path i by one edge stand from first[i] on, in
// the order of the edges; an edge's rank is its place among those that leave its source.
// Kept: an array for each number and not one of rows, since walks and look-ups are lent the one or two that they read, as bytes side by side.
#[derive(Clone, Copy)]
pub struct Paths {
    pub count: usize,
    pub start: [u8; Schema::PATHS],
    pub end: [u8; Schema::PATHS],
    pub length: [u8; Schema::PATHS],
    pub parent: [u8; Schema::PATHS],
    pub last: [u8; Schema::PATHS],
    pub class: [u8; Schema::PATHS],
    pub first: [u16; Schema::PATHS + 1],
    pub rank: [u8; Schema::EDGES],
}

// The table of paths of a judged schema, with their classes.
pub fn path_table(t: Schema) -> Paths
    requires { Sound t }
    ensures { IsPaths (schema_of t) result }
{
    table::fill(t)
}
