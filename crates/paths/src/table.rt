// The table of all paths, shortest first: each path is followed by the edges that leave its end.
ghost use Rattle.std.specs.Prelude.{◌≤◌};
ghost use Rattle.schema.specs.Decoded.{graph_of, schema_of};
ghost use Rattle.schema.specs.Counted.{Fit};
ghost use Rattle.schema.specs.Judged.{Sound};
ghost use Rattle.paths.specs.Table.{Ranked, Trivial};
ghost use Rattle.paths.specs.Classes.{IsPaths};

use crate::Paths;
use crate::chains::{chain, next_place};
use crate::classes::class_numbers;
use schema::{Graph, Schema};

// For each edge its place among those that leave its source.
fn rank_edges(g: Graph) -> [u8; Schema::EDGES]
    requires { Fit g }
    ensures { Ranked (graph_of g) result }
{
    let edges = g.edges;
    let mut seen = [0u8; Schema::NODES];
    let mut rank = [0u8; Schema::EDGES];
    for e in 0..edges {
        let node = usize::from(g.source[e]);
        rank[e] = seen[node];
        seen[node] += 1;
    }
    rank
}

// The trivial paths.
fn trivial_paths(nodes: usize) -> Paths
    requires { nodes ≤ 16 }
    ensures { Trivial nodes result }
{
    let zeros = [0u8; Schema::PATHS];
    let mut number = [0u8; Schema::PATHS];
    let mut first = [0u16; Schema::PATHS + 1];
    first[0] = nodes as u16;
    for n in 0..nodes {
        number[n] = n as u8;
    }
    Paths {
        count: 0,
        start: number,
        end: number,
        length: zeros,
        parent: number,
        last: zeros,
        class: zeros,
        first,
        rank: [0u8; Schema::EDGES],
    }
}

// The whole table, with the classes: path h is followed by the edges from e on, and the next row is row n.
pub fn fill(schema: Schema) -> Paths
    requires { Sound schema }
    ensures { IsPaths (schema_of schema) result }
{
    let g = schema.graph;
    let mut next = [None; Schema::EDGES];
    let mut leaving = [None; Schema::NODES];
    chain(&g.source, g.edges, &mut next, &mut leaving);
    let mut t = trivial_paths(g.nodes);
    let mut n = g.nodes;
    let mut h = 0;
    let mut e = 0;
    while h < n {
        let node = t.end[h];
        match next_place(&next, &leaving, node, e) {
            Some(edge) => {
                let k = usize::from(edge);
                let start = t.start[h];
                let longer = t.length[h] + 1;
                t.start[n] = start;
                t.end[n] = g.target[k];
                t.length[n] = longer;
                t.parent[n] = h as u8;
                t.last[n] = edge as u8;
                n += 1;
                e = k + 1;
            }
            None => {
                h += 1;
                t.first[h] = n as u16;
                e = 0;
            }
        }
    }
    let rank = rank_edges(g);
    t.count = n;
    t.rank = rank;
    let class = class_numbers(schema, t).of;
    t.class = class;
    t
}
