// A path's number, found by walking the table of paths.
ghost use Rattle.std.specs.Prelude.{◌≡◌, ◌+◌, ◌≤◌, get_or};
ghost use Rattle.theory.specs.Numbering.{tabulate};
ghost use Rattle.schema.specs.Decoded.{path_of};
ghost use Rattle.paths.specs.PathWalks.{walk_from, WalkIn};

use crate::Paths;
use schema::{Path, Schema};

// The number of the path that follows by an edge of a rank, where those that follow begin at first.
pub fn sum(first: u16, rank: u8) -> usize
    ensures { result ≡ first + rank }
{
    usize::from(first) + usize::from(rank)
}

// The number of path from, followed by n edges that join up with it.
pub fn walk(
    first: &[u16; Schema::PATHS + 1],
    rank: &[u8; Schema::EDGES],
    from: usize,
    edges: &[u8; Path::EDGES],
    n: usize,
) -> usize
    requires { (n ≤ 16) × WalkIn first.now rank.now «from» (tabulate n (λ i. get_or edges.now i 0)) }
    ensures { result ≡ walk_from first.now rank.now «from» (tabulate n (λ i. get_or edges.now i 0)) }
{
    let mut x = from;
    for e in &edges[..n] {
        x = sum(first[x], rank[usize::from(*e)]);
    }
    x
}

// A path's number.
pub fn path_number(p: Paths, w: Path) -> usize
    requires { (w.length ≤ 16) × WalkIn p.first p.rank w.start (path_of w).edges }
    ensures { result ≡ walk_from p.first p.rank w.start (path_of w).edges }
{
    walk(
        &p.first,
        &p.rank,
        usize::from(w.start),
        &w.edges,
        usize::from(w.length),
    )
}
