// What Sigma asks of a mapping, evenness, and what it takes of it: the lift of an edge, the attribute over an attribute, and where a node's rows
// stand in the joined list.
#![tactic(auto)]

pub mod even;

ghost use Rattle.std.specs.Prelude.{◌≡◌, ◌+◌, ◌*◌, ◌≤◌, ◌<◌, get_or, length};
ghost use Rattle.meaning.specs.Lists.{upto, filter, head_or};
ghost use Rattle.mapping.specs.Judged.{Schemas, Sound};
ghost use Rattle.lifts.specs.Even.{is_over};
ghost use Rattle.lifts.specs.Lifts.{EdgeLifts, joined_before};

use crate::even::image_classes;
use mapping::Mapping;
use paths::Paths;
use schema::Schema;

// The first of n numbers at which home has c and image has b, or the number none.
// Of paths, where home has their starts and image the classes of their images, it is the lift of class b at c, with the trivial path c as none;
// of attributes, where home has their nodes and image their images, the one at c over b, with none 0.
// Kept: a number for none is what the crates above are promised.
pub fn first_over(home: &[u8], image: &[u8], n: usize, c: u8, b: u8, none: usize) -> usize
    requires { (n ≤ length home.now) × (n ≤ length image.now) }
    ensures { result ≡ head_or none (filter (is_over home.now image.now c b) (upto n)) }
{
    (0..n)
        .find(|k| home[*k] == c && image[*k] == b)
        .unwrap_or(none)
}

// The class of an edge of T as a path, from its source d on.
fn edge_class(target_paths: Paths, d: usize, e: usize) -> u8
    requires { (d < 257) × (e < 32) × (get_or target_paths.first d 0 + get_or target_paths.rank e 0 < 256) }
    ensures { result ≡ get_or target_paths.class (get_or target_paths.first d 0 + get_or target_paths.rank e 0) 0 }
{
    let x = usize::from(target_paths.first[d]) + usize::from(target_paths.rank[e]);
    target_paths.class[x]
}

// For each edge e of T and each node c of S at whose image it begins, at 16 * e + c: the number of the first path from c over e, or c.
pub fn edge_lifts(
    s: Schema,
    t: Schema,
    source_paths: Paths,
    target_paths: Paths,
    f: Mapping,
) -> [u8; Mapping::LIFTS]
    requires { Schemas s t source_paths target_paths × Sound s t f }
    ensures { EdgeLifts s t source_paths f (16 * t.graph.edges) result }
{
    let over = image_classes(s, t, source_paths, target_paths, f);
    let g = t.graph;
    let mut lifts = [0u8; Mapping::LIFTS];
    for e in 0..g.edges {
        for c in 0..s.graph.nodes {
            let d = f.node[c];
            if g.source[e] == d {
                let b = edge_class(target_paths, usize::from(d), e);
                lifts[Schema::NODES * e + c] = first_over(
                    &source_paths.start,
                    &over,
                    source_paths.count,
                    c as u8,
                    b,
                    c,
                ) as u8;
            }
        }
    }
    lifts
}

// The rows that the first n nodes give to the table at d: with n a node over d, the place of its first row in the joined list.
pub fn rows_before(
    node: &[u8; Mapping::NODES],
    counts: &[u32; Mapping::NODES],
    n: usize,
    d: u8,
) -> usize
    requires { n ≤ 16 }
    ensures { result ≡ joined_before node.now counts.now d n }
{
    let mut rows = 0;
    for c in 0..n {
        if node[c] == d {
            rows += counts[c] as usize;
        }
    }
    rows
}
