// Matchings: the test of a list of partners (refusal 17), and its two turnings along a mapping.
#![tactic(auto)]

pub mod rows;
pub mod turning;

ghost use Rattle.std.specs.Prelude.{◌≡◌, ◌≤◌, length};
ghost use Rattle.theory.specs.Numbering.{tabulate};
ghost use Rattle.meaning.specs.Lists.{all};
ghost use Rattle.meaning.specs.Matching.{is_matching};
ghost use Rattle.schema.specs.Decoded.{schema_of};
ghost use Rattle.instance.specs.Decoded.{tables_of};
ghost use Rattle.matching.specs.Compared.{partners_of, exist_test, link_test, value_test, TablesListed, ColumnsPaired, LinksPaired, Comparable};

use instance::Instance;
use instance::range::column_below;
use instance::tables::{Table, table_list};
use rows::{links_agree, values_agree};
use schema::Schema;

// Whether each row of n tables of A has a partner in the same table of B.
fn partners_exist(n: usize, tables: [Table; Schema::NODES], counts: &[u32], list: &[u32]) -> bool
    requires { TablesListed n tables list.now × (n ≤ length counts.now) }
    ensures { result ≡ all (exist_test tables counts.now list.now) (tabulate n (λ c. c)) }
{
    (0..n).all(|c| {
        let table = tables[c];
        column_below(list, table.first, table.count, counts[c] as usize)
    })
}

// Whether along each of n edges the partner of a row's target is the target of the row's partner.
fn links_kept(
    n: usize,
    source: &[u8],
    target: &[u8],
    tables: [Table; Schema::NODES],
    list: &[u32],
    a_links: &[u32],
    b_links: &[u32],
) -> bool
    requires { LinksPaired n source.now target.now tables list.now a_links.now b_links.now }
    ensures { result ≡ all (link_test source.now target.now tables list.now a_links.now b_links.now) (tabulate n (λ e. e)) }
{
    (0..n).all(|e| {
        let from = tables[usize::from(source[e])];
        let to = tables[usize::from(target[e])];
        links_agree(
            list,
            from.first,
            to.first,
            a_links,
            b_links,
            Instance::ROWS * e,
            from.count,
        )
    })
}

// Whether each of n attributes has the same value at a row and its partner.
fn values_kept(
    n: usize,
    node: &[u8],
    tables: [Table; Schema::NODES],
    list: &[u32],
    a_values: &[u32],
    b_values: &[u32],
) -> bool
    requires { ColumnsPaired n node.now tables list.now a_values.now b_values.now }
    ensures { result ≡ all (value_test node.now tables list.now a_values.now b_values.now) (tabulate n (λ k. k)) }
{
    (0..n).all(|k| {
        let table = tables[usize::from(node[k])];
        values_agree(
            list,
            table.first,
            a_values,
            b_values,
            Instance::ROWS * k,
            table.count,
        )
    })
}

// Whether a list of partners is a matching from A to B.
pub fn is_matching(
    schema: Schema,
    a: Instance,
    a_links: &[u32],
    a_values: &[u32],
    b: Instance,
    b_links: &[u32],
    b_values: &[u32],
    list: &[u32],
) -> bool
    requires { Comparable schema a a_links.now a_values.now b b_links.now b_values.now list.now }
    ensures { result ≡ is_matching (schema_of schema) (tables_of schema a a_links.now a_values.now) (tables_of schema b b_links.now b_values.now) (partners_of schema a list.now) }
{
    let graph = schema.graph;
    let counts = a.counts;
    let bounds = b.counts;
    let tables = table_list(&counts, graph.nodes);
    let source = graph.source;
    let target = graph.target;
    let node = schema.node;
    partners_exist(graph.nodes, tables, &bounds, list)
        && links_kept(
            graph.edges,
            &source,
            &target,
            tables,
            list,
            a_links,
            b_links,
        )
        && values_kept(schema.attributes, &node, tables, list, a_values, b_values)
}
