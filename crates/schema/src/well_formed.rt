// Refusal 4: whether a decoded schema names only nodes and edges that exist, and its equations join.
ghost use Rattle.std.specs.Prelude.{◌≡◌, ◌&&◌, ◌≤◌, ltb};
ghost use Rattle.meaning.specs.Lists.{all};
ghost use Rattle.meaning.specs.Judge.{edge_fits, attribute_fits, equation_fits, is_well_formed};
ghost use Rattle.schema.specs.Decoded.{graph_of, equation_of, schema_of, Limits};
ghost use Rattle.schema.specs.Judged.{Followed};

use crate::{Graph, Path, Schema};

// Where a path ends, if its start and edges exist and join up.
pub fn follow(g: Graph, p: Path) -> Option<u8>
    requires { (g.edges ≤ 32) × (p.length ≤ 15) }
    ensures { Followed g p result }
{
    if usize::from(p.start) >= g.nodes {
        return None;
    }
    let mut node = p.start;
    for edge in &p.edges[..usize::from(p.length)] {
        let e = usize::from(*edge);
        if e >= g.edges {
            return None;
        }
        if g.source[e] != node {
            return None;
        }
        node = g.target[e];
    }
    Some(node)
}

// Whether both sides of an equation are paths, with one start and one end.
fn equation_fits(g: Graph, left: Path, right: Path) -> bool
    requires { (g.edges ≤ 32) × (left.length ≤ 15) × (right.length ≤ 15) }
    ensures { result ≡ equation_fits (graph_of g) (equation_of left right) }
{
    let (Some(a), Some(b)) = (follow(g, left), follow(g, right)) else {
        return false;
    };
    left.start == right.start && a == b
}

// Whether both ends of an edge exist.
fn edge_fits(nodes: usize, source: u8, target: u8) -> bool
    ensures { result ≡ (ltb source nodes && ltb target nodes) }
{
    usize::from(source) < nodes && usize::from(target) < nodes
}

// Whether the ends of all edges exist.
fn edges_fit(g: Graph) -> bool
    requires { g.edges ≤ 32 }
    ensures { result ≡ all (edge_fits (graph_of g)) (graph_of g).edges }
{
    (0..g.edges).all(|i| edge_fits(g.nodes, g.source[i], g.target[i]))
}

// Whether the nodes of all attributes exist.
fn attributes_fit(t: Schema) -> bool
    requires { Limits t }
    ensures { result ≡ all (attribute_fits (graph_of t.graph)) (schema_of t).attributes }
{
    let nodes = t.graph.nodes;
    let node = t.node;
    node[..t.attributes].iter().all(|n| usize::from(*n) < nodes)
}

// Whether all equations join. Where there are none, the arrays of their sides are not copied.
fn equations_fit(t: Schema) -> bool
    requires { Limits t }
    ensures { result ≡ all (equation_fits (graph_of t.graph)) (schema_of t).equations }
{
    let n = t.equations;
    if n == 0 {
        return true;
    }
    let g = t.graph;
    let left = t.left;
    let right = t.right;
    (0..n).all(|i| equation_fits(g, left[i], right[i]))
}

// Whether all that a schema names exists and joins.
pub fn is_well_formed(t: Schema) -> bool
    requires { Limits t }
    ensures { result ≡ is_well_formed (schema_of t) }
{
    edges_fit(t.graph) && attributes_fit(t) && equations_fit(t)
}
