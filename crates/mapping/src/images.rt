// Images of paths of S as their numbers among the paths of T; and refusal 8: whether the sides of each equation have equal images.
ghost use Rattle.std.specs.Prelude.{◌≡◌, get_or};
ghost use Rattle.meaning.specs.Judge.{keeps_equations};
ghost use Rattle.schema.specs.Decoded.{path_of, schema_of, category_of};
ghost use Rattle.paths.specs.Table.{Filled};
ghost use Rattle.paths.specs.PathWalks.{walk_from};
ghost use Rattle.mapping.specs.Decoded.{mapping_of};
ghost use Rattle.mapping.specs.Judged.{Imageable, image_number, Testable, joined_images, Walkable};

use crate::{Image, Mapping};
use paths::Paths;
use paths::classes::same_class;
use paths::walk::walk;
use schema::{Path, Schema};

// A path's image: its parent's, followed by the image of its last edge.
pub fn path_images(
    s: Schema,
    t: Schema,
    source_paths: Paths,
    target_paths: Paths,
    f: Mapping,
) -> [u8; Mapping::PATHS]
    requires { Imageable s t source_paths target_paths f }
    ensures { Filled 256 (image_number (schema_of s) (schema_of t) (mapping_of s f)) source_paths.count result }
{
    let count = source_paths.count;
    let parents = source_paths.parent;
    let lasts = source_paths.last;
    let first = target_paths.first;
    let rank = target_paths.rank;
    let node = f.node;
    let edge = f.edge;
    let mut path = [0u8; Mapping::PATHS];
    for k in 0..count {
        if k < s.graph.nodes {
            path[k] = node[k];
        } else {
            let parent = usize::from(parents[k]);
            let last = usize::from(lasts[k]);
            let image = edge[last];
            let start = usize::from(path[parent]);
            let n = usize::from(image.length);
            path[k] = walk(&first, &rank, start, &image.edges, n) as u8;
        }
    }
    path
}

// The number of the image of a path: from the trivial path at the image of its start, the images of its edges are walked.
fn image_number(
    first: &[u16; Schema::PATHS + 1],
    rank: &[u8; Schema::EDGES],
    node: &[u8; Mapping::NODES],
    edge: [Image; Mapping::EDGES],
    p: Path,
) -> usize
    requires { Walkable first.now rank.now node.now edge p }
    ensures { result ≡ walk_from first.now rank.now (get_or node.now p.start 0) (joined_images edge (path_of p).edges) }
{
    let n = usize::from(p.length);
    let mut x = usize::from(node[usize::from(p.start)]);
    for e in &p.edges[..n] {
        let image = edge[usize::from(*e)];
        x = walk(first, rank, x, &image.edges, usize::from(image.length));
    }
    x
}

// Refusal 8: whether the sides of each equation have images of one class. Where there are no equations, nothing is copied.
pub fn sides_agree(
    s: Schema,
    t: Schema,
    first: &[u16; Schema::PATHS + 1],
    rank: &[u8; Schema::EDGES],
    class: &[u8; Schema::PATHS],
    f: Mapping,
) -> bool
    requires { Testable s t first.now rank.now class.now f }
    ensures { result ≡ keeps_equations (category_of s) (category_of t) (mapping_of s f) }
{
    let n = s.equations;
    if n == 0 {
        return true;
    }
    let lefts = s.left;
    let rights = s.right;
    let node = f.node;
    let edge = f.edge;
    for q in 0..n {
        let left = image_number(first, rank, &node, edge, lefts[q]);
        let right = image_number(first, rank, &node, edge, rights[q]);
        if !same_class(class, left, right) {
            return false;
        }
    }
    true
}
