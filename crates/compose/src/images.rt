// The images of a composed mapping: of nodes and attributes the image's image, of an edge its image path's images, joined.
ghost use Rattle.std.specs.Prelude.{◌≡◌, ◌++◌, map, ◌+◌, ◌≤◌, get_or};
ghost use Rattle.meaning.specs.Composition as meaning;
ghost use Rattle.schema.specs.Decoded.{front_of};
ghost use Rattle.mapping.specs.Decoded.{image_of, mapping_of, Short};
ghost use Rattle.compose.specs.Composed.{Below, Joinable, EdgesJoinable, IsJoined, AreJoined, AllSound};

use mapping::{Image, Mapping};
use schema::Schema;

// The images of n numbers below the length of a list of images.
fn images_of(
    l: &[u8; Schema::NODES],
    n: usize,
    image: &[u8; Schema::NODES],
    m: usize,
) -> [u8; Schema::NODES]
    requires { Below n l.now m × (n ≤ 16) × (m ≤ 16) }
    ensures { front_of n result ≡ map (λ c. get_or (front_of m image.now) c 0) (front_of n l.now) }
{
    let mut r = [0u8; Schema::NODES];
    for (i, c) in l[..n].iter().enumerate() {
        r[i] = image[usize::from(*c)];
    }
    r
}

// Two images, one behind the other.
fn joined(a: Image, b: Image) -> Image
    requires { a.length + b.length ≤ 15 }
    ensures { (image_of result ≡ image_of a ++ image_of b) × (result.length ≡ a.length + b.length) }
{
    let from = usize::from(a.length);
    let n = usize::from(b.length);
    let mut edges = a.edges;
    edges[from..from + n].copy_from_slice(&b.edges[..n]);
    Image {
        length: a.length + b.length,
        edges,
    }
}

// A path's image: its edges' images, joined.
fn path_image(edge: &[Image; Mapping::EDGES], p: Image) -> Image
    requires { Joinable edge.now p }
    ensures { IsJoined edge.now p result }
{
    let n = usize::from(p.length);
    let mut image = Image::empty();
    for e in &p.edges[..n] {
        let next = edge[usize::from(*e)];
        image = joined(image, next);
    }
    image
}

// The images of the first n paths.
fn path_images(
    edge: &[Image; Mapping::EDGES],
    paths: &[Image; Mapping::EDGES],
    n: usize,
) -> [Image; Mapping::EDGES]
    requires { EdgesJoinable edge.now paths.now n }
    ensures { AreJoined edge.now paths.now n result }
{
    let mut r = [Image::empty(); Mapping::EDGES];
    for (i, path) in paths[..n].iter().enumerate() {
        r[i] = path_image(edge, *path);
    }
    r
}

// F and then G.
pub(crate) fn composite(s: Schema, t: Schema, u: Schema, f: Mapping, g: Mapping) -> Mapping
    requires { AllSound s t u f g }
    ensures { (mapping_of s result ≡ meaning.composite (mapping_of s f) (mapping_of t g)) × Short s.graph.edges result.edge }
{
    let nodes = f.node;
    let edges = f.edge;
    let attributes = f.attribute;
    let node_images = g.node;
    let edge_images = g.edge;
    let attribute_images = g.attribute;
    let node = images_of(&nodes, s.graph.nodes, &node_images, t.graph.nodes);
    let edge = path_images(&edge_images, &edges, s.graph.edges);
    let attribute = images_of(&attributes, s.attributes, &attribute_images, t.attributes);
    Mapping {
        node,
        edge,
        attribute,
    }
}
