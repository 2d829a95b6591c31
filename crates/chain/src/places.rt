// One step by its numbers, in the table of paths: the number of the path that it makes of a path.
ghost use Rattle.std.specs.Prelude.{◌≡◌, ◌≤◌, ◌<◌, get_or, unwrap_or};
ghost use Rattle.paths.specs.PathWalks.{walk_from, WalkIn};
ghost use Rattle.chain.specs.Places.{Prefixes, rest_edges, LandIn, landing_at};

use paths::Paths;
use paths::walk::{sum, walk};
use schema::Path;

// The front of path x with i edges, for each i, by its number.
pub fn prefixes(p: &Paths, x: usize) -> [u8; Path::EDGES]
    requires { (x < 256) × (get_or p.now.length x 0 ≤ 15) }
    ensures { Prefixes p.now.parent x (get_or p.now.length x 0) result }
{
    let mut l = [0u8; Path::EDGES];
    let mut y = x;
    for i in (0..usize::from(p.length[x])).rev() {
        l[i + 1] = y as u8;
        y = usize::from(p.parent[y]);
    }
    l[0] = y as u8;
    l
}

// From path y by the edges of a path of n edges behind its first i.
fn walk_rest(p: &Paths, prefix: &[u8; Path::EDGES], i: usize, n: usize, y: usize) -> usize
    requires { (n ≤ 15) × (i ≤ n) × WalkIn p.now.first p.now.rank y (rest_edges p.now.last prefix.now i n) }
    ensures { result ≡ walk_from p.now.first p.now.rank y (rest_edges p.now.last prefix.now i n) }
{
    let mut x = y;
    for j in i..n {
        let e = usize::from(p.last[usize::from(prefix[j + 1])]);
        x = sum(p.first[x], p.rank[e]);
    }
    x
}

// The path that is made of one of n edges, by its prefixes, where old is replaced by new behind its first b edges; none where old does not stand there.
pub fn landing(
    p: &Paths,
    prefix: &[u8; Path::EDGES],
    n: usize,
    old: Path,
    new: Path,
    b: usize,
) -> Option<usize>
    requires { LandIn p.now.end p.now.last p.now.first p.now.rank prefix.now n old new b }
    ensures { unwrap_or result 256 ≡ landing_at p.now.end p.now.last p.now.first p.now.rank prefix.now n old new b }
{
    let m = usize::from(old.length);
    if n < b + m {
        return None;
    }
    let u = usize::from(prefix[b]);
    if p.end[u] != old.start {
        return None;
    }
    let a = walk(&p.first, &p.rank, u, &old.edges, m);
    if a != usize::from(prefix[b + m]) {
        return None;
    }
    let y = walk(&p.first, &p.rank, u, &new.edges, usize::from(new.length));
    Some(walk_rest(p, prefix, b + m, n, y))
}
