// How many steps each path is from one path, found by levels: what one step makes of a path of a level, and is of no level yet, is of the next.
ghost use Rattle.std.specs.Prelude.{◌≡◌, ◌<◌, ◌≤◌, get_or};
ghost use Rattle.schema.specs.Decoded.{schema_of};
ghost use Rattle.schema.specs.Judged.{Sound};
ghost use Rattle.paths.specs.Classes.{IsPaths};
ghost use Rattle.chain.specs.Places.{LandsIn, landings};
ghost use Rattle.chain.specs.Levels.{mark, mark_all, path_steps, level, Linked, Reaches};

use crate::places::{landing, prefixes};
use paths::Paths;
use schema::{Path, Schema};

// What stands in place of a number of steps for a path that is of no level yet.
const NO_LEVEL: u16 = 256;

// The number of steps from each path; NO_LEVEL for one that is of no level yet.
#[derive(Clone, Copy)]
pub struct Distances {
    pub of: [u16; Schema::PATHS],
}

// Puts path y, where it is one and of no level yet, into level k.
fn mark_path(of: &mut [u16; Schema::PATHS], y: usize, k: u16)
    ensures { of.new ≡ mark k y of.old }
{
    if y < Schema::PATHS && of[y] == NO_LEVEL {
        of[y] = k;
    }
}

// The same of every path that is made where old is replaced by new in a path of n edges.
fn mark_places(
    p: &Paths,
    prefix: &[u8; Path::EDGES],
    n: usize,
    old: Path,
    new: Path,
    of: &mut [u16; Schema::PATHS],
    k: u16,
)
    requires { LandsIn p.now.end p.now.last p.now.first p.now.rank prefix.now n old new }
    ensures { of.new ≡ mark_all k (landings p.now.end p.now.last p.now.first p.now.rank prefix.now n old new) of.old }
{
    for b in 0..=n {
        if let Some(y) = landing(p, prefix, n, old, new, b) {
            mark_path(of, y, k);
        }
    }
}

// The same of every path that one step makes of path x.
fn mark_steps(t: Schema, p: Paths, x: usize, of: &mut [u16; Schema::PATHS], k: u16)
    requires { Sound t × IsPaths (schema_of t) p × (x < p.count) }
    ensures { of.new ≡ mark_all k (path_steps (schema_of t) x) of.old }
{
    let lefts = t.left;
    let rights = t.right;
    let n = usize::from(p.length[x]);
    let prefix = prefixes(&p, x);
    for q in 0..t.equations {
        let left = lefts[q];
        let right = rights[q];
        mark_places(&p, &prefix, n, left, right, of, k);
        mark_places(&p, &prefix, n, right, left, of, k);
    }
}

// The level behind level k.
fn mark_level(t: Schema, p: Paths, of: &mut [u16; Schema::PATHS], k: u16)
    requires { Sound t × IsPaths (schema_of t) p × (k < 255) }
    ensures { of.new ≡ level (schema_of t) k p.count of.old }
{
    for x in 0..p.count {
        if of[x] == k {
            mark_steps(t, p, x, of, k + 1);
        }
    }
}

// The number of steps from each path to path y, up to the level of path x, which equals path y.
pub fn find_distances(t: Schema, p: Paths, x: usize, y: usize) -> Distances
    requires { Sound t × IsPaths (schema_of t) p × Linked (schema_of t) x y }
    ensures { Reaches (schema_of t) x y result.of }
{
    let mut d = Distances {
        of: [NO_LEVEL; Schema::PATHS],
    };
    d.of[y] = 0;
    let mut k = 0;
    while d.of[x] == NO_LEVEL {
        mark_level(t, p, &mut d.of, k);
        k += 1;
    }
    d
}
