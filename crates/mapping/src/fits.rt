// Refusal 7: whether the images exist in T, an edge's image joins up and ends right, and an attribute's has its kind and sits at its node's image.
ghost use Rattle.std.specs.Prelude.{◌≡◌, ◌&&◌, ◌≤◌, ◌<◌, get_or, ltb, eqb};
ghost use Rattle.theory.specs.Schema.{endpoint};
ghost use Rattle.meaning.specs.Lists.{upto, all};
ghost use Rattle.meaning.specs.Schema.{target, joins};
ghost use Rattle.meaning.specs.Judge.{edge_image_fits, attribute_image_fits, images_fit};
ghost use Rattle.schema.specs.Decoded.{graph_of, schema_of, front_of};
ghost use Rattle.schema.specs.Judged.{Sound};
ghost use Rattle.mapping.specs.Decoded.{image_of, mapping_of, Short};
ghost use Rattle.mapping.specs.Judged.{NodesIn};

use crate::{Image, Mapping};
use schema::well_formed::follow;
use schema::{Graph, Path, Schema};

// Whether the images of n nodes are below a bound.
fn nodes_fit(node: &[u8; Mapping::NODES], n: usize, bound: usize) -> bool
    requires { n ≤ 16 }
    ensures { result ≡ all (λ d. ltb d bound) (front_of n node.now) }
{
    node[..n].iter().all(|d| usize::from(*d) < bound)
}

// Whether edges join up, from one node to another.
fn image_fits(g: Graph, image: Image, start: u8, end: u8) -> bool
    requires { (g.edges ≤ 32) × (image.length ≤ 15) × (start < g.nodes) }
    ensures { result ≡ (joins (graph_of g) start (image_of image) && eqb (endpoint (target (graph_of g)) start (image_of image)) end) }
{
    let edges = image.edges;
    let path = Path {
        start,
        length: image.length,
        edges,
    };
    follow(g, path) == Some(end)
}

// Whether each edge's image joins up, from the image of its source to that of its target.
fn edges_fit(s: Schema, t: Schema, f: Mapping) -> bool
    requires { Sound s × Sound t × NodesIn s t f × Short s.graph.edges f.edge }
    ensures { result ≡ all (edge_image_fits (schema_of s) (schema_of t) (mapping_of s f)) (upto s.graph.edges) }
{
    let g = s.graph;
    let h = t.graph;
    let node = f.node;
    let edge = f.edge;
    for e in 0..g.edges {
        let source = usize::from(g.source[e]);
        let target = usize::from(g.target[e]);
        if !image_fits(h, edge[e], node[source], node[target]) {
            return false;
        }
    }
    true
}

// Whether attribute b of count is there, of a kind and at a node.
fn attribute_fits(
    node: &[u8; Schema::ATTRIBUTES],
    kind: &[u8; Schema::ATTRIBUTES],
    count: usize,
    b: usize,
    at_node: u8,
    of_kind: u8,
) -> bool
    requires { count ≤ 16 }
    ensures { result ≡ (ltb b count && eqb (get_or kind.now b 0) of_kind && eqb (get_or node.now b 0) at_node) }
{
    b < count && kind[b] == of_kind && node[b] == at_node
}

// Whether each attribute's image has its kind, and sits at its node's image.
fn attributes_fit(s: Schema, t: Schema, f: Mapping) -> bool
    requires { Sound s × Sound t }
    ensures { result ≡ all (attribute_image_fits (schema_of s) (schema_of t) (mapping_of s f)) (upto s.attributes) }
{
    let node = t.node;
    let kind = t.kind;
    let homes = s.node;
    let kinds = s.kind;
    let images = f.node;
    let columns = f.attribute;
    for a in 0..s.attributes {
        let home = usize::from(homes[a]);
        let b = usize::from(columns[a]);
        if !attribute_fits(&node, &kind, t.attributes, b, images[home], kinds[a]) {
            return false;
        }
    }
    true
}

// Refusal 7 (misfit).
pub fn images_fit(s: Schema, t: Schema, f: Mapping) -> bool
    requires { Sound s × Sound t × Short s.graph.edges f.edge }
    ensures { result ≡ images_fit (schema_of s) (schema_of t) (mapping_of s f) }
{
    let node = f.node;
    nodes_fit(&node, s.graph.nodes, t.graph.nodes) && edges_fit(s, t, f) && attributes_fit(s, t, f)
}
