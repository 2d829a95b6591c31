// How an instance is written into a lent tray, field after field; and matching, path and chain sheets.
#![tactic(auto)]

pub mod chains;
pub mod matching;
pub mod paths;

ghost use Rattle.std.specs.Prelude.{◌≡◌, ◌+◌, ◌*◌, ◌≤◌, length};
ghost use Rattle.bits.specs.Put.{put_all};
ghost use Rattle.meaning.specs.Formats.{fields_of, instance_sheet};
ghost use Rattle.schema.specs.Judged.{Sound};
ghost use Rattle.instance.specs.Decoded.{rows_of, column_of, tables_of, Fields, Columns, Limits, RoomFor};
ghost use Rattle.encoding.specs.Written.{Written, rows_in, ColumnsFit, ColumnsWritten, sheet_bytes};

use instance::Instance;
use instance::decode::rows_of;
use schema::Schema;

// Writes n numbers from base on as fields of one width.
pub fn write_column(tray: &mut [u8], at: usize, width: usize, l: &[u32], base: usize, n: usize)
    requires { Fields tray.old at width n × (base + n ≤ length l.now) }
    ensures { tray.new ≡ put_all tray.old at (fields_of width (column_of l.now base n)) }
{
    let mut head = bits::read_head(tray, at);
    let mut p = at;
    for &x in &l[base..base + n] {
        head = bits::append_field(tray, p, width, u64::from(x), head);
        p += width;
    }
    bits::write_head(tray, p, head);
}

// Writes n columns, one after the other, and gives the position behind them.
fn write_columns(
    tray: &mut [u8],
    at: usize,
    width: usize,
    n: usize,
    home: &[u8],
    counts: &[u32],
    l: &[u32],
) -> usize
    requires { ColumnsFit tray.old at width n home.now counts.now l.now }
    ensures { ColumnsWritten tray.old at width n home.now counts.now l.now result tray.new }
{
    let mut p = at;
    for k in 0..n {
        let rows = rows_of(home, counts, k);
        write_column(tray, p, width, l, Instance::ROWS * k, rows);
        p += width * rows;
    }
    p
}

// The rows of n columns together.
fn rows_in(n: usize, home: &[u8], counts: &[u32]) -> usize
    requires { Columns n home.now counts.now × (n ≤ 32) }
    ensures says { result ≡ rows_in n (rows_of home.now counts.now) }
    ensures few { result ≤ 512 * n }
{
    let mut sum = 0;
    for k in 0..n {
        sum += rows_of(home, counts, k);
    }
    sum
}

// The byte length of an instance's sheet.
pub fn sheet_length(schema: Schema, instance: Instance) -> usize
    requires { Sound schema × Limits schema instance }
    ensures { result ≡ sheet_bytes schema instance }
{
    let graph = schema.graph;
    let source = graph.source;
    let node = schema.node;
    let counts = instance.counts;
    let links = rows_in(graph.edges, &source, &counts);
    let values = rows_in(schema.attributes, &node, &counts);
    (10 * graph.nodes + 9 * links + 32 * values + 7) / 8
}

// Writes an instance's sheet at the front of a tray that has room for it, and gives its byte length.
pub fn write_instance(
    tray: &mut [u8],
    schema: Schema,
    instance: Instance,
    links: &[u32],
    values: &[u32],
) -> usize
    requires { Sound schema × Limits schema instance × RoomFor schema links.now values.now × (sheet_bytes schema instance ≤ length tray.old) }
    ensures { Written (instance_sheet (tables_of schema instance links.now values.now)) tray.old result tray.new }
{
    let n = sheet_length(schema, instance);
    bits::clear(tray, n);
    let graph = schema.graph;
    let source = graph.source;
    let node = schema.node;
    let counts = instance.counts;
    write_column(tray, 0, 10, &counts, 0, graph.nodes);
    let middle = write_columns(
        tray,
        10 * graph.nodes,
        9,
        graph.edges,
        &source,
        &counts,
        links,
    );
    write_columns(tray, middle, 32, schema.attributes, &node, &counts, values);
    n
}
