// Classes of equal paths: each path starts as a class of its own, and each step of an equation joins two classes under the lower number.
ghost use Rattle.std.specs.Prelude.{◌≡◌, map, ◌+◌, ◌<◌, ◌≤◌, get_or, length, eqb};
ghost use Rattle.meaning.specs.Lists.{upto};
ghost use Rattle.schema.specs.Decoded.{graph_of, schema_of};
ghost use Rattle.schema.specs.Judged.{Sound};
ghost use Rattle.paths.specs.Table.{Filled, IsTable};
ghost use Rattle.paths.specs.Chains.{Chained};
ghost use Rattle.paths.specs.Classes.{renamed_to, join_classes, join_numbers, run_pairs, follower_pairs, RunsIn, equation_pairs, Joinable, class_at};

use crate::Paths;
use crate::chains::chain;
use crate::walk::walk;
use schema::{Path, Schema};

// The class number of each path.
#[derive(Clone, Copy)]
pub struct Classes {
    pub of: [u8; Schema::PATHS],
}

// Each path in a class of its own.
fn own_classes() -> Classes
    ensures { result.of ≡ upto 256 }
{
    let mut of = [0u8; Schema::PATHS];
    for i in 0..Schema::PATHS {
        of[i] = i as u8;
    }
    Classes { of }
}

// Class old gets the number new.
fn rename(of: &mut [u8; Schema::PATHS], old: u8, new: u8)
    ensures { of.new ≡ map (renamed_to old new) of.old }
{
    for x in of.iter_mut() {
        *x = if *x == old { new } else { *x };
    }
}

// Two classes joined under the lower number.
fn join(of: &mut [u8; Schema::PATHS], x: u8, y: u8)
    ensures { of.new ≡ join_classes x y of.old }
{
    if x < y {
        rename(of, y, x);
        return;
    }
    rename(of, x, y);
}

// The classes of n paths from a on and of n from b on, joined in turn.
fn join_runs(of: &mut [u8; Schema::PATHS], a: usize, b: usize, n: usize)
    requires { (a + n ≤ 256) × (b + n ≤ 256) }
    ensures { of.new ≡ join_numbers (run_pairs a b n) of.old }
{
    for j in 0..n {
        let x = of[a + j];
        let y = of[b + j];
        if x != y {
            join(of, x, y);
        }
    }
}

// The same of paths a and b, which have one end, and of what follows them by the same edges: depth lengths of them.
fn join_followers(
    first: &[u16; Schema::PATHS + 1],
    of: &mut [u8; Schema::PATHS],
    a: usize,
    b: usize,
    depth: usize,
)
    requires { RunsIn first.now a b 1 depth }
    ensures { of.new ≡ join_numbers (follower_pairs first.now a b 1 depth) of.old }
{
    let mut x = a;
    let mut y = b;
    let mut n = 1;
    for _done in 0..depth {
        if n == 0 {
            return;
        }
        join_runs(of, x, y, n);
        let next = usize::from(first[x]);
        n = usize::from(first[x + n]) - next;
        x = next;
        y = usize::from(first[y]);
    }
}

// The classes that an equation joins: behind each path u that ends at its start. Of each path, next has the next one with its end, and of each node,
// ends has the first, where there is one.
fn join_equation(
    p: Paths,
    next: &[Option<u16>],
    ends: &[Option<u16>; Schema::NODES],
    of: &mut [u8; Schema::PATHS],
    left: Path,
    right: Path,
    nodes: usize,
)
    requires { Joinable p nodes left right × (p.count ≤ length next.now) × Chained p.end p.count 0 next.now ends.now }
    ensures { of.new ≡ join_numbers (equation_pairs p nodes left right) of.old }
{
    let first = p.first;
    let rank = p.rank;
    let mut at = ends[usize::from(left.start)];
    while let Some(path) = at {
        let u = usize::from(path);
        let a = walk(&first, &rank, u, &left.edges, usize::from(left.length));
        let b = walk(&first, &rank, u, &right.edges, usize::from(right.length));
        join_followers(&first, of, a, b, nodes);
        at = next[u];
    }
}

// The class number of each path of a table. Where there are no equations, the table is not copied.
pub fn class_numbers(t: Schema, p: Paths) -> Classes
    requires { Sound t × IsTable (graph_of t.graph) p }
    ensures { Filled 256 (class_at (schema_of t)) p.count result.of }
{
    let n = t.equations;
    if n == 0 {
        return own_classes();
    }
    let nodes = t.graph.nodes;
    let lefts = t.left;
    let rights = t.right;
    let end = p.end;
    let mut next = [None; Schema::PATHS];
    let mut ends = [None; Schema::NODES];
    chain(&end, p.count, &mut next, &mut ends);
    let mut c = own_classes();
    for q in 0..n {
        join_equation(p, &next, &ends, &mut c.of, lefts[q], rights[q], nodes);
    }
    c
}

// Whether two paths are in one class.
pub fn same_class(class: &[u8; Schema::PATHS], a: usize, b: usize) -> bool
    requires { (a < 256) × (b < 256) }
    ensures { result ≡ eqb (get_or class.now a 0) (get_or class.now b 0) }
{
    class[a] == class[b]
}
