// Links of Pi's tables: a row of an edge's source, restricted to the components of its target, is found among the target's rows.
ghost use Rattle.std.specs.Prelude.{◌≡◌, ◌+◌, ◌*◌, ◌≤◌, ◌<◌, length, get_or};
ghost use Rattle.paths.specs.Table.{Filled};
ghost use Rattle.instance.specs.Decoded.{rows_of};
ghost use Rattle.instance.specs.Stored.{Stored, ColumnsStored};
ghost use Rattle.pi.specs.Links.{after_edge, Extends, place_after, target_of, Traced, Within, Ordered, link_place, link_row, Linkable};

use crate::components::Components;
use crate::listed::{TableRows, Tables};
use instance::Instance;
use mapping::edges::path_edges;
use paths::Paths;
use paths::walk::walk;
use schema::Graph;

// The number of edge e, from node d on, followed by path i.
fn after_edge(paths: Paths, d: usize, e: usize, i: usize) -> usize
    requires { Extends paths d e i }
    ensures { result ≡ after_edge paths d e i }
{
    let image = path_edges(paths, i);
    let x = usize::from(paths.first[d]) + usize::from(paths.rank[e]);
    walk(
        &paths.first,
        &paths.rank,
        x,
        &image.edges,
        usize::from(image.length),
    )
}

// The place at edge e's source of component j of its target.
fn place_after(g: Graph, paths: Paths, k: &Components, e: usize, j: usize) -> usize
    requires { Traced g paths k.now e × (j < get_or k.now.count (target_of g e) 0) }
    ensures { result ≡ place_after g paths k.now e j }
{
    let d = usize::from(g.source[e]);
    let at = Components::MOST * usize::from(g.target[e]) + j;
    let x = after_edge(paths, d, e, usize::from(k.first[at]));
    k.place(d, k.node[at], paths.class[x])
}

// The places at edge e's source of all components of its target.
fn places_after(g: Graph, paths: Paths, k: &Components, e: usize) -> [usize; Components::MOST]
    requires { Traced g paths k.now e }
    ensures { Filled 64 (place_after g paths k.now e) (get_or k.now.count (target_of g e) 0) result }
{
    let n = k.count[usize::from(g.target[e])];
    let mut places = [0usize; Components::MOST];
    for j in 0..n {
        places[j] = place_after(g, paths, k, e, j);
    }
    places
}

// The numbers of a row at some places, 0 past its end.
fn restricted(row: &[u16], places: &[usize]) -> [u16; Components::MOST]
    requires { length places.now ≤ 64 }
    ensures { Filled 64 (λ j. get_or row.now (get_or places.now j 0) 0) (length places.now) result }
{
    let mut taken = [0u16; Components::MOST];
    for (j, p) in places.iter().enumerate() {
        taken[j] = row.get(*p).copied().unwrap_or(0);
    }
    taken
}

// For each row of a table, the place of its restriction in another.
fn link_column(
    tables: Tables,
    here: TableRows,
    there: TableRows,
    places: &[usize; Components::MOST],
    out: &mut [u32],
    base: usize,
)
    requires { Within tables.rows.now here × Within tables.rows.now there × Ordered tables.rows.now there × (base + here.count ≤ length out.old) }
    ensures { Stored (link_place tables.entry.rows.now here there (λ j. get_or places.now j 0)) here.count base out.old out.new }
{
    for x in 0..here.count {
        let taken = restricted(tables.row(here, x), &places[..there.width]);
        out[base + x] = tables.find(there, &taken[..there.width]) as u32;
    }
}

// The links along all edges.
pub fn pi_links(g: Graph, paths: Paths, tables: Tables, out: &mut [u32])
    requires { Linkable g paths tables.k.now tables.counts.now tables.rows.now × (512 * g.edges ≤ length out.old) }
    ensures { ColumnsStored g.edges (rows_of g.source tables.entry.counts.now) (link_row g paths tables.entry.k.now tables.entry.counts.now tables.entry.rows.now) out.old out.new }
{
    for e in 0..g.edges {
        let here = tables.at(usize::from(g.source[e]));
        let there = tables.at(usize::from(g.target[e]));
        let places = places_after(g, paths, tables.k, e);
        link_column(tables, here, there, &places, out, Instance::ROWS * e);
    }
}
