// What a schema sheet and a path sheet hold, read into structs: refusals 1, 2 and 3.
ghost use Rattle.std.specs.Prelude.{◌≡◌, ◌+◌, ◌*◌, ◌≤◌, length, IfOk};
ghost use Rattle.bits.specs.Field.{field};
ghost use Rattle.meaning.specs.Formats.{counts_in_limits};
ghost use Rattle.meaning.proofs.Formats.{counts_in};
ghost use Rattle.schema.specs.Decoded.{Block, Column, Near, GraphTaken, PathFound, EquationFound, TablesTaken, counts_of, schema_of, on_body, InLimits, Limits};
ghost use Rattle.schema.specs.Faults.{judged_of};

use crate::faults::Fault;
use crate::{Graph, Path, Schema};
use bits::reader::{ends_at, field_at, lacks_at};

// A field of at most 8 bits.
pub fn small(s: &[u8], at: usize, width: usize) -> u8
    requires { (width ≤ 8) × (at + width ≤ 8 * length s.now) }
    ensures { result ≡ field s.now at width }
{
    field_at(s, at, width) as u8
}

// n fields, step bits apart.
pub fn column(s: &[u8], at: usize, step: usize, width: usize, n: usize) -> [u8; 16]
    requires { Block s.now at step width n }
    ensures { Column s.now at step width 16 n result }
{
    let mut out = [0u8; 16];
    for i in 0..n {
        out[i] = small(s, at + step * i, width);
    }
    out
}

// A path, and where what follows it begins.
#[derive(Clone, Copy)]
pub struct PathRead {
    pub next: usize,
    pub path: Path,
}

// The path from a position on, if the bits do not end before it does.
pub fn read_path(s: &[u8], at: usize) -> Option<PathRead>
    requires { Near s.now at 83 }
    ensures { PathFound s.now at result }
{
    if lacks_at(s, at, 8) {
        return None;
    }
    let start = small(s, at, 4);
    let length = small(s, at + 4, 4);
    let n = usize::from(length);
    if lacks_at(s, at + 8, 5 * n) {
        return None;
    }
    let edges = column(s, at + 8, 5, 5, n);
    Some(PathRead {
        next: at + 8 + 5 * n,
        path: Path {
            start,
            length,
            edges,
        },
    })
}

// Two paths, one after the other, and where what follows them begins.
#[derive(Clone, Copy)]
struct EquationRead {
    next: usize,
    left: Path,
    right: Path,
}

// The equation from a position on, if the bits do not end before it does.
fn read_equation(s: &[u8], at: usize) -> Option<EquationRead>
    requires { Near s.now at 166 }
    ensures { EquationFound s.now at result }
{
    let left = read_path(s, at)?;
    let right = read_path(s, left.next)?;
    Some(EquationRead {
        next: right.next,
        left: left.path,
        right: right.path,
    })
}

// The edges, which follow the leading counts.
fn read_graph(s: &[u8], nodes: usize, edges: usize) -> Graph
    requires { (edges ≤ 32) × (22 + 8 * edges ≤ 8 * length s.now) }
    ensures { GraphTaken s.now nodes edges result }
{
    let mut source = [0u8; Schema::EDGES];
    let mut target = [0u8; Schema::EDGES];
    for i in 0..edges {
        let p = Counts::BITS + 8 * i;
        source[i] = small(s, p, 4);
        target[i] = small(s, p + 4, 4);
    }
    Graph {
        nodes,
        edges,
        source,
        target,
    }
}

// The leading counts.
#[derive(Clone, Copy)]
pub(crate) struct Counts {
    nodes: usize,
    edges: usize,
    attributes: usize,
    equations: usize,
}

impl Counts {
    pub(crate) const BITS: usize = 22;
}

// The leading counts of a sheet.
pub(crate) fn read_counts(s: &[u8]) -> Counts
    requires { 22 ≤ 8 * length s.now }
    ensures { counts_of result ≡ counts_in s.now }
{
    Counts {
        nodes: usize::from(small(s, 0, 5)),
        edges: usize::from(small(s, 5, 6)),
        attributes: usize::from(small(s, 11, 5)),
        equations: usize::from(small(s, 16, 6)),
    }
}

// Whether each count is within its limit, and there is a node.
pub(crate) fn in_limits(c: Counts) -> bool
    ensures { result ≡ counts_in_limits (counts_of c) }
{
    1 <= c.nodes
        && c.nodes <= Schema::NODES
        && c.edges <= Schema::EDGES
        && c.attributes <= Schema::ATTRIBUTES
        && c.equations <= Schema::EQUATIONS
}

// The edges and the attributes, with no equation read yet.
fn read_tables(s: &[u8], c: Counts) -> Schema
    requires { InLimits (counts_of c) × (22 + 8 * c.edges + 8 * c.attributes ≤ 8 * length s.now) }
    ensures { TablesTaken (counts_of c) s.now result }
{
    let attributes = c.attributes;
    let middle = Counts::BITS + 8 * c.edges;
    let graph = read_graph(s, c.nodes, c.edges);
    let node = column(s, middle, 8, 4, attributes);
    let kind = column(s, middle + 4, 8, 4, attributes);
    let none = Path::empty();
    let sides = [none; Schema::EQUATIONS];
    Schema {
        graph,
        attributes,
        node,
        kind,
        equations: c.equations,
        left: sides,
        right: sides,
    }
}

// What follows the leading counts, before any test of its sense.
pub(crate) fn decode_body(s: &[u8], c: Counts) -> Result<Schema, Fault>
    requires { (22 ≤ 8 * length s.now) × InLimits (counts_of c) }
    ensures says { judged_of schema_of result ≡ on_body (counts_of c) s.now }
    ensures limits { IfOk result Limits }
{
    let mut p = Counts::BITS + 8 * c.edges + 8 * c.attributes;
    if lacks_at(s, 0, p) {
        return Err(Fault::Cut);
    }
    let mut t = read_tables(s, c);
    for i in 0..c.equations {
        let equation = read_equation(s, p).ok_or(Fault::Cut)?;
        t.left[i] = equation.left;
        t.right[i] = equation.right;
        p = equation.next;
    }
    if !ends_at(s, p) {
        return Err(Fault::Tail);
    }
    Ok(t)
}
