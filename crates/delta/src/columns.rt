// Columns stored in a working array, number by number, and the counts of tables as an array.
ghost use Rattle.std.specs.Prelude.{◌+◌, ◌≤◌, length};
ghost use Rattle.theory.specs.Instance as theory;
ghost use Rattle.instance.specs.Decoded.{rows_of, Columns};
ghost use Rattle.instance.specs.Followed.{link_in};
ghost use Rattle.instance.specs.Stored.{Counts, Leads, Stored};
ghost use Rattle.mapping.specs.Decoded.{image_of};

use instance::follow::follow;
use mapping::Image;
use schema::Schema;

// For each of n nodes, the rows of the table at its image.
pub fn count_column(n: usize, node: &[u8], counts: &[u32]) -> [u32; Schema::NODES]
    requires { (n ≤ 16) × Columns n node.now counts.now }
    ensures { Counts n (rows_of node.now counts.now) result }
{
    let mut out = [0; Schema::NODES];
    for (c, &image) in node[..n].iter().enumerate() {
        out[c] = counts[usize::from(image)];
    }
    out
}

// The row to which the edges of an image lead, for each of the first rows.
pub fn follow_column(links: &[u32], image: Image, rows: usize, out: &mut [u32], base: usize)
    requires { (image.length ≤ 15) × Leads links.now (image_of image) rows × (base + rows ≤ length out.old) }
    ensures { Stored (theory.follow (link_in links.now) (image_of image)) rows base out.old out.new }
{
    let n = usize::from(image.length);
    let edges = image.edges;
    for (x, row) in out[base..base + rows].iter_mut().enumerate() {
        *row = follow(links, &edges, n, x) as u32;
    }
}
