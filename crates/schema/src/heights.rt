// Heights of nodes, and refusal 5: whether the edges form a loop.
// Only graphs with few paths come here: the two methods that call each other go over every path from a node.
ghost use Rattle.std.specs.Prelude.{◌≡◌};
ghost use Rattle.meaning.specs.Schema.{has_loop};
ghost use Rattle.schema.specs.Decoded.{graph_of};
ghost use Rattle.schema.specs.Counted.{Fit};
ghost use Rattle.schema.specs.Heights.{Lists, Node, Edges, node_height, edges_height};

use crate::{Graph, Schema};

// The edges that leave a node, from the last to the first: for each node the last edge that leaves it, and for each edge its target and the last edge before
// it that leaves its source.
#[derive(Clone, Copy)]
struct Leaving {
    last: [Option<u8>; Schema::NODES],
    target: [u8; Schema::EDGES],
    before: [Option<u8>; Schema::EDGES],
}

impl Leaving {
    // The edges of a graph.
    fn list(g: Graph) -> Leaving
        requires { Fit g }
        ensures { Lists (graph_of g) result }
    {
        let mut last = [None; Schema::NODES];
        let mut before = [None; Schema::EDGES];
        for e in 0..g.edges {
            let node = usize::from(g.source[e]);
            before[e] = last[node];
            last[node] = Some(e as u8);
        }
        Leaving {
            last,
            target: g.target,
            before,
        }
    }

    // The height of a node, for paths of at most depth edges.
    #[cycle(height)]
    fn node_height(&self, depth: usize, node: u8) -> usize
        requires { Node self.now depth node }
        ensures { node_height self.now depth node result }
    {
        if depth == 0 {
            0
        } else {
            self.edges_height(depth - 1, self.last[usize::from(node)])
        }
    }

    // One more than the largest height over the targets of an edge and of those before it that leave its source, for paths of at most depth edges behind
    // them; 0 where there is no edge.
    #[cycle(height)]
    fn edges_height(&self, depth: usize, edge: Option<u8>) -> usize
        requires { Edges self.now depth edge }
        ensures { edges_height self.now depth edge result }
    {
        let Some(e) = edge else {
            return 0;
        };
        let k = usize::from(e);
        let rest = self.edges_height(depth, self.before[k]);
        if rest == depth + 1 {
            return rest;
        }
        let h = self.node_height(depth, self.target[k]) + 1;
        rest.max(h)
    }
}

// Whether as many edges as there are nodes can be followed from some node.
pub fn has_loop(g: Graph) -> bool
    requires { Fit g }
    ensures { result ≡ has_loop (graph_of g) }
{
    let lists = Leaving::list(g);
    for n in 0..g.nodes {
        if lists.node_height(g.nodes, n as u8) == g.nodes {
            return true;
        }
    }
    false
}
