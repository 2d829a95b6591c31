// Refusal 12: whether a mapping is even. At each node c every path from F(c), trivial ones included, has one lift up to equality; and
// each attribute at F(c) is the image of exactly one at c.
ghost use Rattle.std.specs.Prelude.{◌≡◌, ◌≤◌, ◌<◌, length};
ghost use Rattle.meaning.specs.Lists.{upto, filter, all};
ghost use Rattle.meaning.specs.Evenness.{even};
ghost use Rattle.schema.specs.Decoded.{schema_of, category_of};
ghost use Rattle.paths.specs.Table.{Filled};
ghost use Rattle.mapping.specs.Decoded.{mapping_of};
ghost use Rattle.mapping.specs.Judged.{Schemas, Imageable, Sound};
ghost use Rattle.lifts.specs.Even.{image_class, lift_classes, unique_at, has_lift_at, each_has_one_lift, even_paths_at, is_over, even_column_at, even_columns_at};

use mapping::Mapping;
use mapping::images::path_images;
use paths::Paths;
use schema::Schema;

// The class of the image of each path of S.
pub fn image_classes(
    s: Schema,
    t: Schema,
    source_paths: Paths,
    target_paths: Paths,
    f: Mapping,
) -> [u8; Mapping::PATHS]
    requires { Imageable s t source_paths target_paths f }
    ensures { Filled 256 (image_class (schema_of s) (schema_of t) (mapping_of s f)) source_paths.count result }
{
    let path = path_images(s, t, source_paths, target_paths, f);
    let class = target_paths.class;
    let mut over = [0u8; Mapping::PATHS];
    for i in 0..source_paths.count {
        over[i] = class[usize::from(path[i])];
    }
    over
}

// For each class of T the class of a path from c over it, if there is one.
fn lift_classes(paths: &Paths, over: &[u8; Mapping::PATHS], c: u8) -> [Option<u8>; Schema::PATHS]
    requires { paths.now.count ≤ 256 }
    ensures { result ≡ lift_classes paths.now.start paths.now.class over.now c paths.now.count }
{
    let mut lifts = [None; Schema::PATHS];
    for i in 0..paths.count {
        if paths.start[i] == c {
            lifts[usize::from(over[i])] = Some(paths.class[i]);
        }
    }
    lifts
}

// Whether each path from c has the class that lifts has over the class of its image.
fn lifts_unique(
    paths: &Paths,
    over: &[u8; Mapping::PATHS],
    lifts: &[Option<u8>; Schema::PATHS],
    c: u8,
) -> bool
    requires { paths.now.count ≤ 256 }
    ensures { result ≡ all (unique_at paths.now.start paths.now.class over.now lifts.now c) (upto paths.now.count) }
{
    (0..paths.count).all(|i| paths.start[i] != c
        || lifts[usize::from(over[i])] == Some(paths.class[i]))
}

// Whether lifts has a class over each path of T from d.
fn each_has_lift(paths: &Paths, lifts: &[Option<u8>; Schema::PATHS], d: u8) -> bool
    requires { paths.now.count ≤ 256 }
    ensures { result ≡ all (has_lift_at paths.now.start paths.now.class lifts.now d) (upto paths.now.count) }
{
    (0..paths.count).all(|j| paths.start[j] != d || lifts[usize::from(paths.class[j])].is_some())
}

// Whether each path of T from d has one lift at c among the paths of S; over has the class of the image of each of these.
fn each_has_one_lift(
    source_paths: &Paths,
    target_paths: &Paths,
    over: &[u8; Mapping::PATHS],
    c: u8,
    d: u8,
) -> bool
    requires { (source_paths.now.count ≤ 256) × (target_paths.now.count ≤ 256) }
    ensures { result ≡ each_has_one_lift source_paths.now.start source_paths.now.class over.now source_paths.now.count target_paths.now.start target_paths.now.class target_paths.now.count c d }
{
    let lifts = lift_classes(source_paths, over, c);
    lifts_unique(source_paths, over, &lifts, c) && each_has_lift(target_paths, &lifts, d)
}

// Whether each path of T from the image of a node has one lift at that node, for each of the nodes.
fn paths_even(
    nodes: usize,
    source_paths: &Paths,
    target_paths: &Paths,
    over: &[u8; Mapping::PATHS],
    node: &[u8; Mapping::NODES],
) -> bool
    requires { (nodes ≤ 16) × (source_paths.now.count ≤ 256) × (target_paths.now.count ≤ 256) }
    ensures { result ≡ all (even_paths_at source_paths.now target_paths.now over.now node.now) (upto nodes) }
{
    (0..nodes).all(|c| each_has_one_lift(source_paths, target_paths, over, c as u8, node[c]))
}

// How many of the first n attributes sit at c and have the image b.
fn count_over(
    home: &[u8; Schema::ATTRIBUTES],
    image: &[u8; Mapping::ATTRIBUTES],
    n: usize,
    c: u8,
    b: u8,
) -> usize
    requires { n ≤ 16 }
    ensures { result ≡ length (filter (is_over home.now image.now c b) (upto n)) }
{
    (0..n).filter(|a| home[*a] == c && image[*a] == b).count()
}

// Whether each attribute of T at d, of the first count, is the image of exactly one at c.
fn columns_even(
    home: &[u8; Schema::ATTRIBUTES],
    image: &[u8; Mapping::ATTRIBUTES],
    n: usize,
    target_home: &[u8; Schema::ATTRIBUTES],
    count: usize,
    c: u8,
    d: u8,
) -> bool
    requires { (n ≤ 16) × (count ≤ 16) }
    ensures { result ≡ all (even_column_at home.now image.now n target_home.now c d) (upto count) }
{
    (0..count).all(|b| target_home[b] != d || count_over(home, image, n, c, b as u8) == 1)
}

// Whether, for each node c of S, each attribute at its image is the image of exactly one at c.
fn attributes_even(s: Schema, t: Schema, f: Mapping) -> bool
    requires { (s.graph.nodes ≤ 16) × (s.attributes ≤ 16) × (t.attributes ≤ 16) }
    ensures { result ≡ all (even_columns_at s t f) (upto s.graph.nodes) }
{
    (0..s.graph.nodes).all(|c| {
        columns_even(
            &s.node,
            &f.attribute,
            s.attributes,
            &t.node,
            t.attributes,
            c as u8,
            f.node[c],
        )
    })
}

// Whether a mapping is even.
pub fn is_even(s: Schema, t: Schema, source_paths: Paths, target_paths: Paths, f: Mapping) -> bool
    requires { Schemas s t source_paths target_paths × Sound s t f }
    ensures { result ≡ even (category_of s) (category_of t) (mapping_of s f) }
{
    let over = image_classes(s, t, source_paths, target_paths, f);
    paths_even(s.graph.nodes, &source_paths, &target_paths, &over, &f.node)
        && attributes_even(s, t, f)
}
