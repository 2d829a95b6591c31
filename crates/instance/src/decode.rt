// What an instance sheet holds, read into working arrays: refusals 1, 2 and 3.
ghost use Rattle.std.specs.Prelude.{◌≡◌, ◌+◌, ◌*◌, ◌≤◌, ◌<◌, length, get_or, IfOk};
ghost use Rattle.bits.specs.Field.{field, Within};
ghost use Rattle.meaning.specs.Lists.{sum_of};
ghost use Rattle.meaning.specs.Sheet.{on_sheet, judged};
ghost use Rattle.meaning.specs.Formats.{max_nodes, max_rows, read_tables, read_instance};
ghost use Rattle.schema.specs.Decoded.{Near, schema_of, front_of};
ghost use Rattle.schema.specs.Faults.{judged_of};
ghost use Rattle.schema.specs.Judged.{Sound};
ghost use Rattle.instance.specs.Decoded.{counts_in, rows_of, tables_of, Fields, Columns, ColumnsTaken, Limits, RoomFor};
ghost use Rattle.instance.specs.Stored.{Stored};

use crate::Instance;
use bits::reader::{ends_at, field_at, lacks_at};
use schema::Schema;
use schema::faults::Fault;

// A field of at most 32 bits. The widths of links and values are written out: a constant width is read by far fewer instructions.
fn number(s: &[u8], at: usize, width: usize) -> u32
    requires { Within s.now at width }
    ensures { result ≡ field s.now at width }
{
    match width {
        9 => field_at(s, at, 9) as u32,
        32 => field_at(s, at, 32) as u32,
        _ => field_at(s, at, width) as u32,
    }
}

// n fields of one width, stored from base on.
pub fn read_column(s: &[u8], at: usize, width: usize, n: usize, out: &mut [u32], base: usize)
    requires { Fields s.now at width n × (base + n ≤ length out.old) }
    ensures { Stored (λ i. field s.now (at + width * i) width) n base out.old out.new }
{
    for i in 0..n {
        out[base + i] = number(s, at + width * i, width);
    }
}

// The leading counts of n tables.
fn read_counts(s: &[u8], n: usize) -> [u32; Schema::NODES]
    requires { (n ≤ max_nodes) × (10 * n ≤ 8 * length s.now) }
    ensures { front_of n result ≡ counts_in n s.now }
{
    let mut counts = [0u32; Schema::NODES];
    read_column(s, 0, 10, n, &mut counts, 0);
    counts
}

// The rows of the first n tables together.
pub fn total(counts: &[u32], n: usize) -> usize
    requires { (n ≤ max_nodes) × (n ≤ length counts.now) }
    ensures { result ≡ sum_of (front_of n counts.now) }
{
    counts[..n].iter().map(|&count| count as usize).sum()
}

// The rows of column k: those of its table.
pub fn rows_of(home: &[u8], counts: &[u32], k: usize) -> usize
    requires { (k < length home.now) × (get_or home.now k 0 < length counts.now) }
    ensures { result ≡ rows_of home.now counts.now k }
{
    counts[usize::from(home[k])] as usize
}

// n columns of fields of one width, one after the other. Column k has as many as the table home[k] has rows, and is stored from 512 * k on.
// Gives where they end, or None where the bits end before they do.
fn read_columns(
    s: &[u8],
    at: usize,
    width: usize,
    n: usize,
    home: &[u8],
    counts: &[u32],
    out: &mut [u32],
) -> Option<usize>
    requires { (width ≤ 32) × Near s.now at (16384 * n) × Columns n home.now counts.now × (max_rows * n ≤ length out.old) }
    ensures { ColumnsTaken s.now at width n home.now counts.now result out.new }
{
    let mut p = at;
    for k in 0..n {
        let rows = rows_of(home, counts, k);
        if lacks_at(s, p, width * rows) {
            return None;
        }
        read_column(s, p, width, rows, out, Instance::ROWS * k);
        p += width * rows;
    }
    Some(p)
}

// What follows the leading counts, from a position on: links and values of so many rows.
pub fn decode_tables(
    schema: Schema,
    s: &[u8],
    at: usize,
    counts: [u32; Schema::NODES],
    links: &mut [u32],
    values: &mut [u32],
) -> Result<Instance, Fault>
    requires { Sound schema × RoomFor schema links.old values.old × (at ≤ 8 * length s.now) × (at ≤ 160) × (sum_of (front_of schema.graph.nodes counts) ≤ max_rows) }
    ensures says { judged_of (λ i. tables_of schema i links.new values.new) result ≡ judged (read_tables (schema_of schema) (front_of schema.graph.nodes counts) s.now at) }
    ensures limits { IfOk result (Limits schema) }
{
    let graph = schema.graph;
    let source = graph.source;
    let node = schema.node;
    let middle = read_columns(s, at, 9, graph.edges, &source, &counts, links).ok_or(Fault::Cut)?;
    let end = read_columns(s, middle, 32, schema.attributes, &node, &counts, values).ok_or(
        Fault::Cut,
    )?;
    if !ends_at(s, end) {
        return Err(Fault::Tail);
    }
    Ok(Instance { counts })
}

// What an instance sheet says, or why it is sent back before any test of its sense.
pub fn decode_instance(
    schema: Schema,
    s: &[u8],
    links: &mut [u32],
    values: &mut [u32],
) -> Result<Instance, Fault>
    requires { Sound schema × RoomFor schema links.old values.old }
    ensures says { judged_of (λ i. tables_of schema i links.new values.new) result ≡ on_sheet (read_instance (schema_of schema)) s.now }
    ensures limits { IfOk result (Limits schema) }
{
    let nodes = schema.graph.nodes;
    if lacks_at(s, 0, 10 * nodes) {
        return Err(Fault::Cut);
    }
    let counts = read_counts(s, nodes);
    if total(&counts, nodes) > Instance::ROWS {
        return Err(Fault::Count);
    }
    decode_tables(schema, s, 10 * nodes, counts, links, values)
}
