// Joined lists stored in a working array, node by node.
ghost use Rattle.std.specs.Prelude.{◌≡◌, ℕ, ◌+◌, ◌*◌, ◌≤◌, ◌<◌, length, get_or};
ghost use Rattle.theory.specs.Instance as theory;
ghost use Rattle.instance.specs.Decoded.{Limits};
ghost use Rattle.instance.specs.Followed.{link_in};
ghost use Rattle.instance.specs.Stored.{Leads, Stored};
ghost use Rattle.mapping.specs.Decoded.{image_of};
ghost use Rattle.meaning.specs.Lists.{sum_of};
ghost use Rattle.schema.specs.Decoded.{front_of};
ghost use Rattle.sigma.specs.Joined.{EachOver, JoinedStored, attribute_in, value_over, AttributesOver};
ghost use Rattle.sigma.specs.Lifted.{LiftLeads, LiftsLead, lift_row};

use instance::Instance;
use instance::copy::copy_column;
use instance::follow::follow;
use lifts::{first_over, rows_before};
use mapping::edges::path_edges;
use mapping::{Image, Mapping};
use paths::Paths;
use schema::Schema;

// A joined list, from a base on: for each of n nodes over d, ascending, `fill` writes the rows of its table behind those before them. It holds the
// numbers g for any g that tells what each call of `fill` stores.
fn join<F: Fn(usize, usize, &mut [u32], usize)>(
    n: usize,
    node: &[u8],
    counts: &[u32],
    d: u8,
    fill: F,
    out: &mut [u32],
    base: usize,
)
    requires room { (n ≤ length node.now) × (n ≤ length counts.now) × (sum_of (front_of n counts.now) ≤ 512) × (base + 512 ≤ length out.old) }
    requires callable { EachOver node.now d n (λ c. (place : ℕ) (o : _) → place + get_or counts.now c 0 ≤ length o.now → F.pre fill c (get_or counts.now c 0) o place) }
    ensures { (g : ℕ → ℕ → ℕ) → EachOver node.now d n (λ c. (place : ℕ) (o p : _) → F.post fill c (get_or counts.now c 0) o place tt p → Stored (g c) (get_or counts.now c 0) place o.now p.now) → JoinedStored node.now counts.now d n g base out.old out.new }
{
    let mut place = base;
    for c in 0..n {
        if node[c] == d {
            let rows = counts[c] as usize;
            fill(c, rows, out, place);
            place += rows;
        }
    }
}

// The column at node c over attribute b: its first rows, copied.
fn copy_over(
    s: Schema,
    f: Mapping,
    values: &[u32],
    b: usize,
    c: usize,
    rows: usize,
    out: &mut [u32],
    place: usize,
)
    requires { (s.attributes ≤ 16) × (b < 16) × (c < 16) × (512 * attribute_in s f b c + rows ≤ length values.now) × (place + rows ≤ length out.old) }
    ensures { Stored (value_over s f values.now b c) rows place out.old out.new }
{
    let home = s.node;
    let image = f.attribute;
    let a = first_over(&home, &image, s.attributes, c as u8, b as u8, 0);
    copy_column(values, Instance::ROWS * a, rows, out, place);
}

// The joined list of attribute b, at node d of T.
pub fn value_column(
    s: Schema,
    f: Mapping,
    run: Instance,
    values: &[u32],
    b: usize,
    d: u8,
    out: &mut [u32],
)
    requires { (s.graph.nodes ≤ 16) × (s.attributes ≤ 16) × Limits s run × (b < 16) × (512 * s.attributes ≤ length values.now) × AttributesOver s f b d × (512 * b + 512 ≤ length out.old) }
    ensures { JoinedStored f.node run.counts d s.graph.nodes (value_over s f values.now b) (512 * b) out.old out.new }
{
    let fill = |c: usize, rows: usize, out: &mut [u32], place: usize| {
        copy_over(s, f, values, b, c, rows, out, place);
    };
    join(
        s.graph.nodes,
        &f.node,
        &run.counts,
        d,
        fill,
        out,
        Instance::ROWS * b,
    );
}

// For each of the first rows, the place to which edges lead it in the joined list, where the rows of their end begin at first.
// Kept: with first = 0 this is delta's follow_column; neither crate uses the other, and one below both would offer it for four lines.
fn place_column(
    links: &[u32],
    image: Image,
    first: usize,
    rows: usize,
    out: &mut [u32],
    base: usize,
)
    requires { (image.length ≤ 15) × (first ≤ 512) × Leads links.now (image_of image) rows × (base + rows ≤ length out.old) }
    ensures { Stored (λ x. first + theory.follow (link_in links.now) (image_of image) x) rows base out.old out.new }
{
    let n = usize::from(image.length);
    let edges = image.edges;
    for (x, place) in out[base..base + rows].iter_mut().enumerate() {
        let row = follow(links, &edges, n, x);
        *place = (first + row) as u32;
    }
}

// The places to which path i leads each of the first rows.
fn lift_rows(
    paths: Paths,
    f: Mapping,
    run: Instance,
    links: &[u32],
    i: usize,
    rows: usize,
    out: &mut [u32],
    base: usize,
)
    requires { LiftLeads paths f.node run.counts links.now i rows × (base + rows ≤ length out.old) }
    ensures { Stored (lift_row paths f.node run.counts links.now i) rows base out.old out.new }
{
    let image = path_edges(paths, i);
    let end = usize::from(paths.end[i]);
    let d = f.node[end];
    let first = rows_before(&f.node, &run.counts, end, d);
    place_column(links, image, first, rows, out, base);
}

// The joined list of the links along edge e, from node d of T; the number of its lift at node c stands at 16 * e + c in lifts.
pub fn link_column(
    s: Schema,
    paths: Paths,
    f: Mapping,
    run: Instance,
    lifts: &[u8],
    links: &[u32],
    e: usize,
    d: u8,
    out: &mut [u32],
)
    requires { (s.graph.nodes ≤ 16) × Limits s run × (e < 32) × (length lifts.now ≡ 512) × LiftsLead paths f.node run.counts lifts.now links.now s.graph.nodes e d × (512 * e + 512 ≤ length out.old) }
    ensures { JoinedStored f.node run.counts d s.graph.nodes (λ c. lift_row paths f.node run.counts links.now (get_or lifts.now (16 * e + c) 0)) (512 * e) out.old out.new }
{
    let fill = |c: usize, rows: usize, out: &mut [u32], place: usize| {
        let i = usize::from(lifts[Schema::NODES * e + c]);
        lift_rows(paths, f, run, links, i, rows, out, place);
    };
    join(
        s.graph.nodes,
        &f.node,
        &run.counts,
        d,
        fill,
        out,
        Instance::ROWS * e,
    );
}
