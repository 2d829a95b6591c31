// A row put at its table's end.
ghost use Rattle.std.specs.Prelude.{◌<◌};
ghost use Rattle.meaning.specs.Lists.{sum_of};
ghost use Rattle.meaning.specs.Rows.{added};
ghost use Rattle.schema.specs.Judged.{Sound};
ghost use Rattle.schema.specs.Decoded.{front_of, schema_of};
ghost use Rattle.instance.specs.Decoded.{tables_of, Limits, RoomFor};
ghost use Rattle.rows.specs.Columns.{Joins, Joined};
ghost use Rattle.rows.specs.Row.{row_of};
ghost use Rattle.rows.specs.Changed.{Becomes};

use crate::judge::one_row;
use instance::Instance;
use instance::copy::copy_column;
use instance::decode::rows_of;
use schema::Schema;

// Puts n columns of a list behind those of out: column k has as many numbers as rows has for home[k], and goes behind as many as counts has.
fn join_columns(n: usize, home: &[u8], counts: &[u32], rows: &[u32], list: &[u32], out: &mut [u32])
    requires { Joins n home.now counts.now rows.now list.now out.old }
    ensures { Joined n home.now counts.now rows.now list.now out.old out.new }
{
    for k in 0..n {
        let place = Instance::ROWS * k;
        let more = rows_of(home, rows, k);
        copy_column(list, place, more, out, place + rows_of(home, counts, k));
    }
}

// Puts a row at the end of its table, in a run with fewer than 512 rows: the run's counts then.
pub fn put_row(
    schema: Schema,
    run: Instance,
    table: usize,
    row_links: &[u32],
    row_values: &[u32],
    links: &mut [u32],
    values: &mut [u32],
) -> Instance
    requires { Sound schema × (table < schema.graph.nodes) × Limits schema run × (sum_of (front_of schema.graph.nodes run.counts) < 512) × RoomFor schema row_links.now row_values.now × RoomFor schema links.old values.old }
    ensures { Becomes schema result links.new values.new (added (schema_of schema) (tables_of schema run links.old values.old) (row_of schema table row_links.now row_values.now)) }
{
    let graph = schema.graph;
    let source = graph.source;
    let node = schema.node;
    let counts = run.counts;
    let row = one_row(table);
    let rows = row.counts;
    join_columns(graph.edges, &source, &counts, &rows, row_links, links);
    join_columns(schema.attributes, &node, &counts, &rows, row_values, values);
    let mut after = run.counts;
    after[table] += 1;
    Instance { counts: after }
}
