// Links followed along paths, and refusal 11: whether the rows obey the equations.
ghost use Rattle.std.specs.Prelude.{◌≡◌, true, [], ◌*◌, ◌≤◌, length};
ghost use Rattle.theory.specs.Instance as theory;
ghost use Rattle.meaning.specs.Formats.{max_rows};
ghost use Rattle.meaning.specs.Judge.{links_in_range, obeys_equations};
ghost use Rattle.schema.specs.Decoded.{path_of, schema_of, front_of};
ghost use Rattle.schema.specs.Judged.{Sound};
ghost use Rattle.instance.specs.Decoded.{tables_of, Limits};
ghost use Rattle.instance.specs.Followed.{link_in, Stays, Followable, agree_on};

use crate::Instance;
use schema::{Path, Schema};

// The row to which the first n edges lead from a row.
pub fn follow(links: &[u32], edges: &[u8], n: usize, row: usize) -> usize
    requires { (n ≤ length edges.now) × Stays links.now (front_of n edges.now) row }
    ensures { result ≡ theory.follow (link_in links.now) (front_of n edges.now) row }
{
    let mut x = row;
    for edge in &edges[..n] {
        x = links[Instance::ROWS * usize::from(*edge) + x] as usize;
    }
    x
}

// Whether the first m edges of left and n of right lead each of the first rows to the same row.
fn agree(links: &[u32], left: &[u8], m: usize, right: &[u8], n: usize, rows: usize) -> bool
    requires { (m ≤ length left.now) × (n ≤ length right.now) × Followable links.now (front_of m left.now) rows × Followable links.now (front_of n right.now) rows }
    ensures { result ≡ agree_on links.now (front_of m left.now) (front_of n right.now) rows }
{
    (0..rows).all(|x| follow(links, left, m, x) == follow(links, right, n, x))
}

// Whether two paths lead each of the first rows to the same row.
fn paths_agree(links: &[u32], a: Path, b: Path, rows: usize) -> bool
    requires { (a.length ≤ 15) × (b.length ≤ 15) × Followable links.now (path_of a).edges rows × Followable links.now (path_of b).edges rows }
    ensures { result ≡ agree_on links.now (path_of a).edges (path_of b).edges rows }
{
    let left = a.edges;
    let right = b.edges;
    agree(
        links,
        &left,
        usize::from(a.length),
        &right,
        usize::from(b.length),
        rows,
    )
}

// Refusal 11 (bent row).
pub fn obeys_equations(schema: Schema, instance: Instance, links: &[u32]) -> bool
    requires { Sound schema × Limits schema instance × (max_rows * schema.graph.edges ≤ length links.now) × (links_in_range (schema_of schema) (tables_of schema instance links.now []) ≡ true) }
    ensures { result ≡ obeys_equations (schema_of schema) (tables_of schema instance links.now []) }
{
    for k in 0..schema.equations {
        let a = schema.left[k];
        let b = schema.right[k];
        let rows = instance.counts[usize::from(a.start)] as usize;
        if !paths_agree(links, a, b, rows) {
            return false;
        }
    }
    true
}
