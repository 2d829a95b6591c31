// Schemas: the judges of a schema sheet and of a path sheet.
#![tactic(auto)]

pub mod count;
pub mod decode;
pub mod faults;
pub mod heights;
pub mod well_formed;

ghost use Rattle.std.specs.Prelude.{◌≡◌, ◌≤◌, IfOk};
ghost use Rattle.meaning.specs.Judge.{test_schema, judge_schema, judge_path};
ghost use Rattle.schema.specs.Decoded.{empty_path, graph_of, path_of, schema_of, Limits};
ghost use Rattle.schema.specs.Faults.{judged_of};
ghost use Rattle.schema.specs.Judged.{Sound, SoundPath};

use bits::reader::{ends_at, lacks_at};
use decode::Counts;
use faults::Fault;

// Nodes (tables) and edges (links): all that paths depend on.
// Kept: two arrays and not one of edges, since what goes over columns is lent the edges' sources as it is lent the attributes' nodes: as bytes side by side.
#[derive(Clone, Copy)]
pub struct Graph {
    pub nodes: usize,
    pub edges: usize,
    pub source: [u8; Schema::EDGES],
    pub target: [u8; Schema::EDGES],
}

// A path: a start node and edges that join up.
// Kept: a length beside its array, since no memory is asked for, and arrays of paths are filled with one, which a vector of bounded length can't be.
#[derive(Clone, Copy)]
pub struct Path {
    pub start: u8,
    pub length: u8,
    pub edges: [u8; Path::EDGES],
}

impl Path {
    // Room for a path's edges: a length of 4 bits is at most 15.
    pub const EDGES: usize = 16;

    // The trivial path at node 0.
    pub fn empty() -> Path
        ensures { result ≡ empty_path }
    {
        Path {
            start: 0,
            length: 0,
            edges: [0u8; Path::EDGES],
        }
    }
}

// What a schema sheet says.
#[derive(Clone, Copy)]
pub struct Schema {
    pub graph: Graph,
    pub attributes: usize,
    pub node: [u8; Schema::ATTRIBUTES],
    pub kind: [u8; Schema::ATTRIBUTES],
    pub equations: usize,
    pub left: [Path; Schema::EQUATIONS],
    pub right: [Path; Schema::EQUATIONS],
}

impl Schema {
    pub const NODES: usize = 16;

    pub const EDGES: usize = 32;

    pub const ATTRIBUTES: usize = 16;

    pub const EQUATIONS: usize = 32;

    pub const PATHS: usize = 256;
}

// Tests 4, 5 and 6, of which the first that fails counts. Where there are too many paths to go over, a loop shows in their counts.
fn test_schema(t: Schema) -> Result<(), Fault>
    requires { Limits t }
    ensures says { judged_of (λ _. schema_of t) result ≡ test_schema (schema_of t) }
    ensures sound { IfOk result (λ _. Sound t) }
{
    if !well_formed::is_well_formed(t) {
        return Err(Fault::Stray);
    }
    let g = t.graph;
    let count = count::count_paths(g);
    if count.paths > Schema::PATHS {
        return Err(if count.looped {
            Fault::Ring
        } else {
            Fault::Crowd
        });
    }
    if heights::has_loop(g) {
        return Err(Fault::Ring);
    }
    Ok(())
}

// A schema sheet judged: what it says, or the first fault that it has.
#[inline(always)]
pub fn judge_schema(s: &[u8]) -> Result<Schema, Fault>
    ensures says { judged_of schema_of result ≡ judge_schema s.now }
    ensures sound { IfOk result Sound }
{
    if lacks_at(s, 0, Counts::BITS) {
        return Err(Fault::Cut);
    }
    let c = decode::read_counts(s);
    if !decode::in_limits(c) {
        return Err(Fault::Count);
    }
    let t = decode::decode_body(s, c)?;
    test_schema(t)?;
    Ok(t)
}

// A path sheet judged: the path, or the first fault of the sheet.
pub fn judge_path(g: Graph, s: &[u8]) -> Result<Path, Fault>
    requires { g.edges ≤ 32 }
    ensures says { judged_of path_of result ≡ judge_path (graph_of g) s.now }
    ensures sound { IfOk result (SoundPath g) }
{
    let read = decode::read_path(s, 0).ok_or(Fault::Cut)?;
    if !ends_at(s, read.next) {
        return Err(Fault::Tail);
    }
    if well_formed::follow(g, read.path).is_none() {
        return Err(Fault::Stray);
    }
    Ok(read.path)
}
