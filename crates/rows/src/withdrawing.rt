// A row taken out of its table: later rows move down by one, links included; and refusal 19.
ghost use Rattle.std.specs.Prelude.{◌≡◌, [], ◌+◌, ◌*◌, ◌≤◌, ◌<◌, eqb, length, get_or};
ghost use Rattle.meaning.specs.Lists.{any};
ghost use Rattle.meaning.specs.Rows as meaning;
ghost use Rattle.schema.specs.Judged.{Sound};
ghost use Rattle.schema.specs.Decoded.{schema_of};
ghost use Rattle.instance.specs.Decoded.{column_of, tables_of, Columns, Limits, RoomFor};
ghost use Rattle.rows.specs.Columns.{TakenOut, OneMore, RowTaken, MovedDown, LinksMoved};
ghost use Rattle.rows.specs.Changed.{Becomes};

use instance::Instance;
use instance::decode::rows_of;
use schema::Schema;

// Whether a number stands among n from base on.
fn stands(l: &[u32], base: usize, n: usize, x: usize) -> bool
    requires { base + n ≤ length l.now }
    ensures { result ≡ any (eqb x) (column_of l.now base n) }
{
    l[base..base + n].iter().any(|&y| y as usize == x)
}

// Refusal 19 (still held).
pub fn is_held(schema: Schema, run: Instance, table: usize, x: usize, links: &[u32]) -> bool
    requires { Sound schema × Limits schema run × (512 * schema.graph.edges ≤ length links.now) }
    ensures { result ≡ meaning.is_held (schema_of schema) (tables_of schema run links.now []) table x }
{
    let graph = schema.graph;
    let source = graph.source;
    let target = graph.target;
    let counts = run.counts;
    (0..graph.edges).any(|e| {
        usize::from(target[e]) == table
            && stands(links, Instance::ROWS * e, rows_of(&source, &counts, e), x)
    })
}

// Takes place x out of n + 1 numbers from base on: later ones move down by one.
fn take_out(l: &mut [u32], base: usize, n: usize, x: usize)
    requires { (x ≤ n) × (base + n + 1 ≤ length l.old) }
    ensures { TakenOut l.old base n x l.new }
{
    for i in x..n {
        l[base + i] = l[base + i + 1];
    }
}

// Takes place x out of each of n columns that is one of a table. Counts has the rows that are left.
fn take_row_out(n: usize, home: &[u8], counts: &[u32], table: usize, x: usize, l: &mut [u32])
    requires { OneMore n home.now counts.now table x l.old }
    ensures { RowTaken n home.now counts.now table x l.old l.new }
{
    for k in 0..n {
        if usize::from(home[k]) == table {
            take_out(l, Instance::ROWS * k, rows_of(home, counts, k), x);
        }
    }
}

// The new number of row r of a table from which row x was taken out.
fn moved_down(r: u32, x: usize) -> u32
    ensures { result ≡ meaning.moved_down x r }
{
    if r as usize > x { r - 1 } else { r }
}

// Moves the numbers above x, among n from base on, down by one.
fn move_down(l: &mut [u32], base: usize, n: usize, x: usize)
    requires { base + n ≤ length l.old }
    ensures { MovedDown l.old base n x l.new }
{
    for r in &mut l[base..base + n] {
        *r = moved_down(*r, x);
    }
}

// Moves links to later rows of a table than x down by one. Counts has the rows that are left.
fn move_links_down(
    n: usize,
    source: &[u8],
    target: &[u8],
    counts: &[u32],
    table: usize,
    x: usize,
    links: &mut [u32],
)
    requires { Columns n source.now counts.now × (n ≤ length target.now) × (512 * n ≤ length links.old) }
    ensures { LinksMoved n source.now target.now counts.now table x links.old links.new }
{
    for e in 0..n {
        if usize::from(target[e]) == table {
            move_down(links, Instance::ROWS * e, rows_of(source, counts, e), x);
        }
    }
}

// Takes row x out of its table: the run's counts then.
pub fn take_row(
    schema: Schema,
    run: Instance,
    table: usize,
    x: usize,
    links: &mut [u32],
    values: &mut [u32],
) -> Instance
    requires { Sound schema × (table < schema.graph.nodes) × Limits schema run × (x < get_or run.counts table 0) × RoomFor schema links.old values.old }
    ensures { Becomes schema result links.new values.new (meaning.withdrawn (schema_of schema) (tables_of schema run links.old values.old) table x) }
{
    let graph = schema.graph;
    let source = graph.source;
    let target = graph.target;
    let node = schema.node;
    let mut after = run.counts;
    after[table] -= 1;
    take_row_out(graph.edges, &source, &after, table, x, links);
    move_links_down(graph.edges, &source, &target, &after, table, x, links);
    take_row_out(schema.attributes, &node, &after, table, x, values);
    Instance { counts: after }
}
