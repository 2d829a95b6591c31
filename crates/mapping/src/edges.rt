// The edges of a path, by its number in a table of paths; and those of the first path of a class.
ghost use Rattle.std.specs.Prelude.{◌≤◌, ◌<◌, get_or};
ghost use Rattle.schema.specs.Judged.{Sound, SoundPath};
ghost use Rattle.mapping.specs.PathEdges.{EdgesTaken, FirstTaken};

use crate::Image;
use paths::walk::path_number;
use paths::{Paths, path_table};
use schema::{Path, Schema};

// The edges of path i, from the last back to the first.
pub fn path_edges(paths: Paths, i: usize) -> Image
    requires { (i < 256) × (get_or paths.length i 0 ≤ 15) }
    ensures { EdgesTaken paths i result }
{
    let mut edges = [0u8; Path::EDGES];
    let length = paths.length[i];
    let mut x = i;
    for k in (0..usize::from(length)).rev() {
        edges[k] = paths.last[x];
        x = usize::from(paths.parent[x]);
    }
    Image { length, edges }
}

// The edges of the first path of the class of a judged path, which has its start.
pub fn first_edges(t: Schema, w: Path) -> Image
    requires { Sound t × SoundPath t.graph w }
    ensures { FirstTaken t w result }
{
    let p = path_table(t);
    let x = path_number(p, w);
    let first = usize::from(p.class[x]);
    path_edges(p, first)
}
