// Sigma on decoded tables: the table at d is the joined list of the tables at all nodes over d, an edge follows its lift at each node, an
// attribute copies the column over it at each node.
#![tactic(auto)]

pub mod columns;

ghost use Rattle.std.specs.Prelude.{◌≡◌, ◌+◌, ◌*◌, ◌≤◌, length, get_or};
ghost use Rattle.instance.specs.Decoded.{Limits, RoomFor};
ghost use Rattle.sigma.specs.Joined.{JoinedColumns, value_over};
ghost use Rattle.sigma.specs.Lifted.{lift_row};
ghost use Rattle.sigma.specs.Pushed.{Counted, AllLead, AllOver, Pushable, Pushed};

use columns::{link_column, value_column};
use instance::Instance;
use lifts::{edge_lifts, rows_before};
use mapping::Mapping;
use paths::Paths;
use schema::Schema;

// The counts of Sigma's tables.
pub fn sigma_counts(s: Schema, t: Schema, f: Mapping, run: Instance) -> Instance
    requires { (s.graph.nodes ≤ 16) × (t.graph.nodes ≤ 16) × Limits s run }
    ensures { Counted s t f run result }
{
    let n = s.graph.nodes;
    let mut counts = [0; Schema::NODES];
    for (d, count) in counts[..t.graph.nodes].iter_mut().enumerate() {
        *count = rows_before(&f.node, &run.counts, n, d as u8) as u32;
    }
    Instance { counts }
}

// Its values: for each attribute of T the columns over it.
fn sigma_values(s: Schema, t: Schema, f: Mapping, run: Instance, values: &[u32], out: &mut [u32])
    requires { (s.graph.nodes ≤ 16) × (s.attributes ≤ 16) × (t.attributes ≤ 16) × Limits s run × (512 * s.attributes ≤ length values.now) × AllOver s t f × (512 * t.attributes ≤ length out.old) }
    ensures { JoinedColumns f.node run.counts t.node s.graph.nodes t.attributes (value_over s f values.now) out.old out.new }
{
    for (b, &d) in t.node[..t.attributes].iter().enumerate() {
        value_column(s, f, run, values, b, d, out);
    }
}

// Its links: for each edge of T the rows to which its lifts lead.
fn sigma_links(
    s: Schema,
    t: Schema,
    source_paths: Paths,
    f: Mapping,
    run: Instance,
    lifts: &[u8],
    links: &[u32],
    out: &mut [u32],
)
    requires { (s.graph.nodes ≤ 16) × (t.graph.edges ≤ 32) × Limits s run × (length lifts.now ≡ 512) × AllLead s t source_paths f run lifts.now links.now × (512 * t.graph.edges ≤ length out.old) }
    ensures { JoinedColumns f.node run.counts t.graph.source s.graph.nodes t.graph.edges (λ e c. lift_row source_paths f.node run.counts links.now (get_or lifts.now (16 * e + c) 0)) out.old out.new }
{
    let graph = t.graph;
    for (e, &d) in graph.source[..graph.edges].iter().enumerate() {
        link_column(s, source_paths, f, run, lifts, links, e, d, out);
    }
}

// Sigma of an accepted run along an even mapping: its links are followed, and its values copied, into working arrays.
pub fn sigma(
    s: Schema,
    t: Schema,
    source_paths: Paths,
    target_paths: Paths,
    f: Mapping,
    run: Instance,
    links: &[u32],
    values: &[u32],
    followed: &mut [u32],
    copied: &mut [u32],
) -> Instance
    requires { Pushable s t source_paths target_paths f run links.now values.now × RoomFor s links.now values.now × RoomFor t followed.old copied.old }
    ensures { Pushed s t f run links.now values.now result followed.new copied.new }
{
    let lifts = edge_lifts(s, t, source_paths, target_paths, f);
    let pushed = sigma_counts(s, t, f, run);
    sigma_links(s, t, source_paths, f, run, &lifts, links, followed);
    sigma_values(s, t, f, run, values, copied);
    pushed
}
