// From a path down the levels: at each path the least step that comes one nearer.
ghost use Rattle.std.specs.Prelude.{◌≡◌, ◌≤◌, ◌<◌, ◌&&◌, get_or, length, eqb, ltb};
ghost use Rattle.schema.specs.Decoded.{schema_of};
ghost use Rattle.schema.specs.Judged.{Sound};
ghost use Rattle.paths.specs.Classes.{IsPaths};
ghost use Rattle.chain.specs.Places.{LandsIn};
ghost use Rattle.chain.specs.Nearer.{is_at, NearestPlace, NearestStep, Descends, Descended};

use crate::places::{landing, prefixes};
use paths::Paths;
use schema::{Path, Schema};

// A step as one number, and the path that it makes; of a place, the number of edges before it.
#[derive(Clone, Copy)]
pub struct Move {
    pub step: usize,
    pub path: usize,
}

// Whether y is a path, and k steps away.
fn is_at(of: &[u16; Schema::PATHS], y: usize, k: usize) -> bool
    ensures { result ≡ is_at of.now y k }
{
    y < Schema::PATHS && usize::from(of[y]) == k
}

// The first place of a path of n edges at which old can be replaced by new so that the path made is k steps away.
fn nearer_place(
    p: &Paths,
    prefix: &[u8; Path::EDGES],
    n: usize,
    old: Path,
    new: Path,
    of: &[u16; Schema::PATHS],
    k: usize,
) -> Option<Move>
    requires { LandsIn p.now.end p.now.last p.now.first p.now.rank prefix.now n old new }
    ensures { NearestPlace p.now.end p.now.last p.now.first p.now.rank prefix.now n old new of.now k result }
{
    for b in 0..=n {
        if let Some(path) = landing(p, prefix, n, old, new, b) {
            if is_at(of, path, k) {
                return Some(Move { step: b, path });
            }
        }
    }
    None
}

// The least step of path x that makes a path k steps away.
fn nearer_step(t: Schema, p: Paths, of: &[u16; Schema::PATHS], x: usize, k: usize) -> Option<Move>
    requires { Sound t × IsPaths (schema_of t) p × (x < p.count) }
    ensures { NearestStep (schema_of t) of.now x k result }
{
    let lefts = t.left;
    let rights = t.right;
    let n = usize::from(p.length[x]);
    let prefix = prefixes(&p, x);
    for q in 0..t.equations {
        let left = lefts[q];
        let right = rights[q];
        if let Some(there) = nearer_place(&p, &prefix, n, left, right, of, k) {
            let step = 32 * q + there.step;
            return Some(Move {
                step,
                path: there.path,
            });
        }
        if let Some(back) = nearer_place(&p, &prefix, n, right, left, of, k) {
            let step = 32 * q + 16 + back.step;
            return Some(Move {
                step,
                path: back.path,
            });
        }
    }
    None
}

// The n steps from path x, which is n steps away, down the levels.
pub fn descend(
    t: Schema,
    p: Paths,
    of: &[u16; Schema::PATHS],
    x: usize,
    n: usize,
    steps: &mut [u32],
)
    requires { Sound t × IsPaths (schema_of t) p × Descends (schema_of t) of.now x n × (n ≤ length steps.old) }
    ensures { Descended (schema_of t) of.now x n steps.new }
{
    let mut at = x;
    for i in 0..n {
        let Some(nearest) = nearer_step(t, p, of, at, n - i - 1) else {
            return;
        };
        steps[i] = nearest.step as u32;
        at = nearest.path;
    }
}
