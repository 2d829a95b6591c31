// How many paths there are, counted length by length without going over them; 257 stands for any larger number.
ghost use Rattle.std.specs.Prelude.{◌≡◌, min, ◌+◌, ◌≤◌};
ghost use Rattle.meaning.proofs.PathCounts.{total};
ghost use Rattle.schema.specs.Counted.{Fit, row, Few, Blank, First, Next, Counted};

use crate::{Graph, Schema};

// Stands for any number of paths above the limit.
const MANY: u16 = 257;

// Room for a row of numbers for each length from 0 to the number of nodes: how many paths of that length start at each node.
const TALLY: usize = Schema::NODES * (Schema::NODES + 1);

// A number of paths, with one for any above the limit.
fn capped(x: u16) -> u16
    ensures { result ≡ min 257 x }
{
    x.min(MANY)
}

// The row of length 0: at each node the trivial path starts.
fn first_row(nodes: usize, tally: &mut [u16; TALLY])
    requires { (nodes ≤ 16) × Blank tally.old 0 }
    ensures { First nodes tally.new }
{
    tally[..nodes].fill(1);
}

// The row behind the one at a position, for the next length: an edge hands its target's number to its source.
fn next_row(g: Graph, tally: &mut [u16; TALLY], at: usize)
    requires { (Fit g × Few g.nodes tally.old at) × ((at + 32 ≤ 272) × Blank tally.old (at + 16)) }
    ensures { Next g tally.old at tally.new }
{
    for e in 0..g.edges {
        let node = at + Schema::NODES + usize::from(g.source[e]);
        let behind = at + usize::from(g.target[e]);
        tally[node] = capped(tally[node] + tally[behind]);
    }
}

// How many paths there are in all of the length whose row is at a position.
fn sum_nodes(nodes: usize, tally: &[u16; TALLY], at: usize) -> u16
    requires { (nodes ≤ 16) × ((at + 16 ≤ 272) × Few nodes tally.now at) }
    ensures { result ≡ min 257 (total (row tally.now at) nodes) }
{
    let mut sum = 0u16;
    for paths in &tally[at..at + nodes] {
        sum = capped(sum + *paths);
    }
    sum
}

// How many paths have fewer edges than there are nodes, and whether any has as many.
#[derive(Clone, Copy)]
pub struct Count {
    pub paths: usize,
    pub looped: bool,
}

// Where a length has no paths, no longer one has any.
pub fn count_paths(g: Graph) -> Count
    requires { Fit g }
    ensures { Counted g result }
{
    let nodes = g.nodes;
    let mut tally = [0u16; TALLY];
    first_row(nodes, &mut tally);
    let mut paths = 0u16;
    for k in 0..nodes {
        let sum = sum_nodes(nodes, &tally, Schema::NODES * k);
        if sum == 0 {
            return Count {
                paths: usize::from(paths),
                looped: false,
            };
        }
        paths = capped(paths + sum);
        next_row(g, &mut tally, Schema::NODES * k);
    }
    Count {
        paths: usize::from(paths),
        looped: sum_nodes(nodes, &tally, Schema::NODES * nodes) > 0,
    }
}
