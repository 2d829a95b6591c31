// Values of Pi's tables: an attribute is read at the component with its node in S and the trivial path.
ghost use Rattle.std.specs.Prelude.{◌≡◌, ◌+◌, ◌*◌, ◌≤◌, ◌<◌, length, get_or};
ghost use Rattle.instance.specs.Decoded.{rows_of, column_of};
ghost use Rattle.instance.specs.Stored.{Stored, ColumnsStored};
ghost use Rattle.pi.specs.Links.{Within};
ghost use Rattle.pi.specs.Values.{attribute_node, value_place, value_row, Readable};

use crate::components::Components;
use crate::listed::{TableRows, Tables};
use instance::Instance;
use instance::decode::rows_of;
use mapping::Mapping;
use mapping::attributes::attribute_to;
use paths::Paths;
use schema::Schema;

// The place of attribute a's node with the trivial path, at b's table.
fn value_place(s: Schema, t: Schema, paths: Paths, k: &Components, a: usize, b: usize) -> usize
    requires { (a < 16) × (b < 16) × (attribute_node t b < 16) × (get_or k.now.count (attribute_node t b) 0 ≤ 64) }
    ensures { result ≡ value_place s t paths k.now a b }
{
    let d = usize::from(t.node[b]);
    k.place(d, s.node[a], paths.class[d])
}

// For each row of a table, the value of the row at one place of it.
fn value_column(
    tables: Tables,
    here: TableRows,
    place: usize,
    values: &[u32],
    out: &mut [u32],
    at: usize,
)
    requires { Within tables.rows.now here × (at + here.count ≤ length out.old) }
    ensures { Stored (λ x. get_or values.now (get_or (column_of tables.entry.rows.now (64 * (here.first + x)) here.width) place 0) 0) here.count at out.old out.new }
{
    for x in 0..here.count {
        let row = tables.row(here, x).get(place).copied().unwrap_or(0);
        out[at + x] = values.get(usize::from(row)).copied().unwrap_or(0);
    }
}

// The values of all attributes.
pub fn pi_values(
    s: Schema,
    t: Schema,
    paths: Paths,
    f: Mapping,
    run: Instance,
    tables: Tables,
    values: &[u32],
    out: &mut [u32],
)
    requires { Readable s t tables.k.now f.attribute run.counts tables.counts.now tables.rows.now values.now × (512 * t.attributes ≤ length out.old) }
    ensures { ColumnsStored t.attributes (rows_of t.node tables.entry.counts.now) (value_row s t paths tables.entry.k.now f.attribute run.counts tables.entry.counts.now tables.entry.rows.now values.now) out.old out.new }
{
    for b in 0..t.attributes {
        let a = attribute_to(&f.attribute, s.attributes, b as u8);
        let here = tables.at(usize::from(t.node[b]));
        let place = value_place(s, t, paths, tables.k, a, b);
        let n = rows_of(&s.node, &run.counts, a);
        let start = Instance::ROWS * a;
        let column = &values[start..start + n];
        value_column(tables, here, place, column, out, Instance::ROWS * b);
    }
}
