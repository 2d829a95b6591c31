// Delta on decoded tables: the table at a node is the one at its image, an edge follows its image path, an attribute copies its image's column.
#![tactic(auto)]

pub mod columns;

ghost use Rattle.std.specs.Prelude.{◌≡◌, true, [], ◌*◌, ◌≤◌, length};
ghost use Rattle.meaning.specs.Judge.{links_in_range};
ghost use Rattle.schema.specs.Decoded.{schema_of};
ghost use Rattle.instance.specs.Decoded.{rows_of, tables_of, Limits, RoomFor};
ghost use Rattle.instance.specs.Stored.{ColumnsStored};
ghost use Rattle.delta.specs.Pulled.{Fitting, EdgeImages, image_row, AttributeImages, image_value, Counted, Pulled};

use columns::{count_column, follow_column};
use instance::Instance;
use instance::copy::copy_column;
use instance::decode::rows_of;
use mapping::Mapping;
use schema::Schema;

// The counts of Delta's tables.
pub fn delta_counts(s: Schema, t: Schema, f: Mapping, j: Instance) -> Instance
    requires { Fitting s t f × Limits t j }
    ensures { Counted s t f j result }
{
    let node = f.node;
    let counts = j.counts;
    Instance {
        counts: count_column(s.graph.nodes, &node, &counts),
    }
}

// Its links: for each edge the rows to which its image leads.
fn delta_links(s: Schema, f: Mapping, counts: &[u32], links: &[u32], out: &mut [u32])
    requires { EdgeImages s f counts.now links.now × (512 * s.graph.edges ≤ length out.old) }
    ensures { ColumnsStored s.graph.edges (rows_of s.graph.source counts.now) (image_row f links.now) out.old out.new }
{
    let graph = s.graph;
    let source = graph.source;
    for e in 0..graph.edges {
        let rows = rows_of(&source, counts, e);
        follow_column(links, f.edge[e], rows, out, Instance::ROWS * e);
    }
}

// Its values: for each of n attributes the column of its image.
// Kept: the loop of delta_links but for the call in it; a closure for that call takes two clauses, which are longer than the loop.
fn delta_values(
    n: usize,
    node: &[u8],
    attribute: &[u8],
    counts: &[u32],
    values: &[u32],
    out: &mut [u32],
)
    requires { AttributeImages n node.now attribute.now counts.now values.now × (512 * n ≤ length out.old) }
    ensures { ColumnsStored n (rows_of node.now counts.now) (image_value attribute.now values.now) out.old out.new }
{
    for (a, &image) in attribute[..n].iter().enumerate() {
        let rows = rows_of(node, counts, a);
        copy_column(
            values,
            Instance::ROWS * usize::from(image),
            rows,
            out,
            Instance::ROWS * a,
        );
    }
}

// Delta of an accepted instance: its links are followed, and its values copied, into working arrays.
pub fn delta(
    s: Schema,
    t: Schema,
    f: Mapping,
    j: Instance,
    links: &[u32],
    values: &[u32],
    followed: &mut [u32],
    copied: &mut [u32],
) -> Instance
    requires { Fitting s t f × Limits t j × (links_in_range (schema_of t) (tables_of t j links.now []) ≡ true) × RoomFor t links.now values.now × RoomFor s followed.old copied.old }
    ensures { Pulled s t f j links.now values.now result followed.new copied.new }
{
    let d = delta_counts(s, t, f, j);
    let counts = d.counts;
    delta_links(s, f, &counts, links, followed);
    let node = s.node;
    let attribute = f.attribute;
    delta_values(s.attributes, &node, &attribute, &counts, values, copied);
    d
}
