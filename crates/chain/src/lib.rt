// The chain of steps between two paths: how many steps each path is from the second one, found by levels; then, from the first one on, the least step
// that comes one nearer.
#![tactic(auto)]

pub mod levels;
pub mod nearer;
pub mod places;

ghost use Rattle.std.specs.Prelude.{◌≡◌, ◌≤◌, length};
ghost use Rattle.meaning.specs.PathChain.{first_chain};
ghost use Rattle.schema.specs.Decoded.{path_of, schema_of};
ghost use Rattle.schema.specs.Judged.{Sound, SoundPath};
ghost use Rattle.chain.specs.Found.{chain_of};

use levels::find_distances;
use nearer::descend;
use paths::classes::same_class;
use paths::path_table;
use paths::walk::path_number;
use schema::{Path, Schema};

// The most steps that a chain has: one fewer than there are paths.
pub const STEPS: usize = 255;

// The number of steps that is given for no chain.
// Kept: a number for no chain is what the crates above are promised.
pub const NONE: usize = 256;

// The first of the shortest chains from path a to path b: each step as one number, of 5, 1 and 4 bits, and how many there are, or NONE.
pub fn first_chain(t: Schema, a: Path, b: Path, steps: &mut [u32]) -> usize
    requires { Sound t × SoundPath t.graph a × SoundPath t.graph b × (255 ≤ length steps.old) }
    ensures { chain_of result steps.new ≡ first_chain (schema_of t) (path_of a) (path_of b) }
{
    let p = path_table(t);
    let x = path_number(p, a);
    let y = path_number(p, b);
    if same_class(&p.class, x, y) {
        let d = find_distances(t, p, x, y);
        let n = usize::from(d.of[x]);
        descend(t, p, &d.of, x, n, steps);
        return n;
    }
    NONE
}
