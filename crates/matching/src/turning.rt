// The two turnings of a matching: from Sigma's rows to the run's, and back.
ghost use Rattle.std.specs.Prelude.{◌≡◌, ◌+◌, ◌≤◌, length};
ghost use Rattle.theory.specs.Transposition.{to_raw, to_pushed};
ghost use Rattle.matching.specs.Compared.{partners_of};
ghost use Rattle.matching.specs.Turned.{mapping_between, counts_of, PushedCounts, Placeable, Placed, Placement, Moveable, Moved};

use instance::Instance;
use instance::copy::copy_column;
use instance::tables::{Table, table_list};
use mapping::Mapping;
use schema::Schema;

// Copies the rows of n tables from their places in list to their places in out.
fn copy_tables(
    n: usize,
    from: [Table; Schema::NODES],
    list: &[u32],
    to: [Table; Schema::NODES],
    out: &mut [u32],
)
    requires { Moveable n from to list.now out.old }
    ensures { Moved n from to list.now out.new }
{
    for c in 0..n {
        let here = from[c];
        copy_column(list, here.first, here.count, out, to[c].first);
    }
}

// Where the rows of each of n tables of the run stand among all pushed rows: in the joined list at the table's image, after those of lower tables
// with the same image.
fn place_tables(
    n: usize,
    node: &[u8],
    own: [Table; Schema::NODES],
    joined: [Table; Schema::NODES],
) -> [Table; Schema::NODES]
    requires { Placeable n node.now own joined }
    ensures { Placed n node.now own joined result }
{
    let mut next = joined;
    let mut places = own;
    for (c, &image) in node[..n].iter().enumerate() {
        let d = usize::from(image);
        let table = own[c];
        places[c] = Table {
            first: next[d].first,
            ..table
        };
        next[d].first += table.count;
    }
    places
}

// Where the rows of each table of the run stand: in the run's list, and among all pushed rows.
#[derive(Clone, Copy)]
struct Places {
    own: [Table; Schema::NODES],
    joined: [Table; Schema::NODES],
}

fn places_of(s: Schema, t: Schema, f: Mapping, run: Instance, pushed: Instance) -> Places
    requires { PushedCounts s t f run pushed }
    ensures { Placement s t f run pushed result.own result.joined }
{
    let counts = run.counts;
    let sums = pushed.counts;
    let node = f.node;
    let own = table_list(&counts, s.graph.nodes);
    let tables = table_list(&sums, t.graph.nodes);
    let joined = place_tables(s.graph.nodes, &node, own, tables);
    Places { own, joined }
}

// A matching from Sigma of the run, turned into one from the run: each row of the run has the partner of its place in the joined list.
pub fn to_raw(
    s: Schema,
    t: Schema,
    f: Mapping,
    run: Instance,
    pushed: Instance,
    list: &[u32],
    out: &mut [u32],
)
    requires { PushedCounts s t f run pushed × (512 ≤ length list.now) × (512 ≤ length out.old) }
    ensures { partners_of s run out.new ≡ to_raw (mapping_between s t f) (counts_of s run) (counts_of t pushed) (partners_of t pushed list.now) }
{
    let Places { own, joined } = places_of(s, t, f, run, pushed);
    copy_tables(s.graph.nodes, joined, list, own, out);
}

// A matching from the run, turned into one from Sigma of the run: each row has the partner of the row of the run that stands there.
pub fn to_pushed(
    s: Schema,
    t: Schema,
    f: Mapping,
    run: Instance,
    pushed: Instance,
    list: &[u32],
    out: &mut [u32],
)
    requires { PushedCounts s t f run pushed × (512 ≤ length list.now) × (512 ≤ length out.old) }
    ensures { partners_of t pushed out.new ≡ to_pushed (mapping_between s t f) (counts_of s run) (counts_of t pushed) (partners_of s run list.now) }
{
    let Places { own, joined } = places_of(s, t, f, run, pushed);
    copy_tables(s.graph.nodes, own, list, joined, out);
}
