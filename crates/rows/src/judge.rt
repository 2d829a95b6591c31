// The judge of an added row's sheet: refusals 1, 2, 9, 10 and 11.
ghost use Rattle.std.specs.Prelude.{◌≡◌, not, [], ◌*◌, ◌≤◌, ◌<◌, eqb, length};
ghost use Rattle.meaning.specs.Sheet.{on_sheet};
ghost use Rattle.meaning.specs.Rows as meaning;
ghost use Rattle.schema.specs.Decoded.{path_of, schema_of, front_of};
ghost use Rattle.schema.specs.Faults.{judged_of};
ghost use Rattle.schema.specs.Judged.{Sound};
ghost use Rattle.instance.specs.Decoded.{tables_of, Limits, RoomFor};
ghost use Rattle.rows.specs.Row.{row_alone, row_of, follow_row, StaysOn, AcceptedLinks, RowLinked};

use instance::Instance;
use instance::decode::decode_tables;
use instance::follow::follow;
use instance::kinds::kinds;
use instance::range::{columns_below, values_in_range};
use schema::faults::Fault;
use schema::{Path, Schema};

// One row of a table, and none of the others.
pub fn one_row(table: usize) -> Instance
    requires { table < 16 }
    ensures { result ≡ row_alone table }
{
    let mut counts = [0; Schema::NODES];
    counts[table] = 1;
    Instance { counts }
}

// Reads the sheet of a row, or says why it is sent back before any test of its sense.
fn read_row(
    schema: Schema,
    table: usize,
    s: &[u8],
    links: &mut [u32],
    values: &mut [u32],
) -> Result<(), Fault>
    requires { Sound schema × (table < schema.graph.nodes) × RoomFor schema links.old values.old }
    ensures { judged_of (λ _. row_of schema table links.new values.new) result ≡ on_sheet (meaning.read_row (schema_of schema) table) s.now }
{
    let row = one_row(table);
    let rows = row.counts;
    decode_tables(schema, s, 0, rows, links, values)?;
    Ok(())
}

// Refusal 9 (dangling), of the links of a row.
fn links_in_range(schema: Schema, run: Instance, table: usize, row_links: &[u32]) -> bool
    requires { Sound schema × (table < schema.graph.nodes) × Limits schema run × (512 * schema.graph.edges ≤ length row_links.now) }
    ensures { result ≡ meaning.row_links_in_range (schema_of schema) (tables_of schema run [] []) (row_of schema table row_links.now []) }
{
    let graph = schema.graph;
    let source = graph.source;
    let target = graph.target;
    let row = one_row(table);
    let rows = row.counts;
    let counts = run.counts;
    columns_below(graph.edges, &source, &target, &rows, &counts, row_links)
}

// The row to which the first n edges lead from a row that stands in no table yet: its own links are the first of each column of row_links.
fn follow_row(row_links: &[u32], links: &[u32], edges: &[u8], n: usize, own: usize) -> usize
    requires { (n ≤ length edges.now) × StaysOn row_links.now links.now (front_of n edges.now) }
    ensures { result ≡ follow_row row_links.now links.now (front_of n edges.now) own }
{
    if n == 0 {
        return own;
    }
    let first = row_links[Instance::ROWS * usize::from(edges[0])];
    follow(links, &edges[1..], n - 1, first as usize)
}

// Whether two paths lead the row to different rows.
fn bent(row_links: &[u32], links: &[u32], a: Path, b: Path, own: usize) -> bool
    requires { (a.length ≤ 15) × (b.length ≤ 15) × StaysOn row_links.now links.now (path_of a).edges × StaysOn row_links.now links.now (path_of b).edges }
    ensures { result ≡ not (eqb (follow_row row_links.now links.now (path_of a).edges own) (follow_row row_links.now links.now (path_of b).edges own)) }
{
    let left = a.edges;
    let right = b.edges;
    let x = follow_row(row_links, links, &left, usize::from(a.length), own);
    x != follow_row(row_links, links, &right, usize::from(b.length), own)
}

// Refusal 11 (bent row), of a row that comes at the end of a table.
fn obeys_equations(
    schema: Schema,
    run: Instance,
    table: usize,
    links: &[u32],
    row_links: &[u32],
) -> bool
    requires { Sound schema × (table < schema.graph.nodes) × AcceptedLinks schema run links.now × RowLinked schema run table row_links.now }
    ensures { result ≡ meaning.row_obeys_equations (schema_of schema) (tables_of schema run links.now []) table (row_of schema table row_links.now []) }
{
    let own = run.counts[table] as usize;
    for k in 0..schema.equations {
        let a = schema.left[k];
        let b = schema.right[k];
        if usize::from(a.start) == table && bent(row_links, links, a, b, own) {
            return false;
        }
    }
    true
}

// The sheet of a row judged, for a run in working arrays: the first reason to send it back, if there is one.
pub fn judge_row(
    schema: Schema,
    run: Instance,
    table: usize,
    s: &[u8],
    links: &[u32],
    row_links: &mut [u32],
    row_values: &mut [u32],
) -> Result<(), Fault>
    requires { Sound schema × (table < schema.graph.nodes) × AcceptedLinks schema run links.now × RoomFor schema row_links.old row_values.old }
    ensures { judged_of (λ _. row_of schema table row_links.new row_values.new) result ≡ meaning.judge_row (schema_of schema) (tables_of schema run links.now []) table s.now }
{
    read_row(schema, table, s, row_links, row_values)?;
    if !links_in_range(schema, run, table, row_links) {
        return Err(Fault::Dangling);
    }
    if !values_in_range(schema, one_row(table), row_values, kinds()) {
        return Err(Fault::OffScale);
    }
    if !obeys_equations(schema, run, table, links, row_links) {
        return Err(Fault::BentRow);
    }
    Ok(())
}
