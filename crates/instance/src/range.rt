// Refusals 9 and 10: whether links lead to rows of their tables, and values are of their kinds.
ghost use Rattle.std.specs.Prelude.{◌≡◌, [], ◌+◌, ◌*◌, ◌≤◌, ltb, length};
ghost use Rattle.theory.specs.Numbering.{tabulate};
ghost use Rattle.meaning.specs.Lists.{all};
ghost use Rattle.meaning.specs.Formats.{max_rows};
ghost use Rattle.meaning.specs.Formats as formats;
ghost use Rattle.meaning.specs.Judge.{links_in_range, values_in_range};
ghost use Rattle.schema.specs.Decoded.{schema_of};
ghost use Rattle.schema.specs.Judged.{Sound};
ghost use Rattle.instance.specs.Decoded.{column_of, tables_of, Columns, Limits};
ghost use Rattle.instance.specs.Ranges.{range_of, kinds_of};
ghost use Rattle.instance.specs.Tested.{link_test, value_test};

use crate::Instance;
use crate::decode::rows_of;
use crate::kinds::{Range, range_of, within};
use schema::Schema;

// Whether n numbers from base on are below a bound.
pub fn column_below(l: &[u32], base: usize, n: usize, bound: usize) -> bool
    requires { base + n ≤ length l.now }
    ensures { result ≡ all (λ x. ltb x bound) (column_of l.now base n) }
{
    l[base..base + n].iter().all(|&x| (x as usize) < bound)
}

// Whether n numbers from base on are within a range.
fn column_within(range: Range, l: &[u32], base: usize, n: usize) -> bool
    requires { base + n ≤ length l.now }
    ensures { result ≡ all (formats.within (range_of range)) (column_of l.now base n) }
{
    let mut so_far = true;
    for x in &l[base..base + n] {
        so_far &= within(range, *x);
    }
    so_far
}

// Whether the links along each of n edges are rows of its target: as many links as rows has for its source, to rows below the target's count.
pub fn columns_below(
    n: usize,
    source: &[u8],
    target: &[u8],
    rows: &[u32],
    counts: &[u32],
    links: &[u32],
) -> bool
    requires { Columns n source.now rows.now × Columns n target.now counts.now × (max_rows * n ≤ length links.now) }
    ensures { result ≡ all (link_test source.now target.now rows.now counts.now links.now) (tabulate n (λ e. e)) }
{
    (0..n).all(|e| {
        let many = rows_of(source, rows, e);
        let bound = rows_of(target, counts, e);
        column_below(links, Instance::ROWS * e, many, bound)
    })
}

// Whether the values of each of n attributes are of its kind.
fn columns_in_range(
    n: usize,
    node: &[u8],
    kind: &[u8],
    counts: &[u32],
    values: &[u32],
    kinds: [Range; Range::KINDS],
) -> bool
    requires { Columns n node.now counts.now × (n ≤ length kind.now) × (max_rows * n ≤ length values.now) }
    ensures { result ≡ all (value_test node.now kind.now counts.now values.now (kinds_of kinds)) (tabulate n (λ a. a)) }
{
    for a in 0..n {
        let rows = rows_of(node, counts, a);
        let range = range_of(kinds, usize::from(kind[a]));
        if !column_within(range, values, Instance::ROWS * a, rows) {
            return false;
        }
    }
    true
}

// Refusal 9 (dangling).
pub fn links_in_range(schema: Schema, instance: Instance, links: &[u32]) -> bool
    requires { Sound schema × Limits schema instance × (max_rows * schema.graph.edges ≤ length links.now) }
    ensures { result ≡ links_in_range (schema_of schema) (tables_of schema instance links.now []) }
{
    let graph = schema.graph;
    let source = graph.source;
    let target = graph.target;
    let counts = instance.counts;
    columns_below(graph.edges, &source, &target, &counts, &counts, links)
}

// Refusal 10 (off scale).
pub fn values_in_range(
    schema: Schema,
    instance: Instance,
    values: &[u32],
    kinds: [Range; Range::KINDS],
) -> bool
    requires { Sound schema × Limits schema instance × (max_rows * schema.attributes ≤ length values.now) }
    ensures { result ≡ values_in_range (kinds_of kinds) (schema_of schema) (tables_of schema instance [] values.now) }
{
    let node = schema.node;
    let kind = schema.kind;
    let counts = instance.counts;
    columns_in_range(schema.attributes, &node, &kind, &counts, values, kinds)
}
