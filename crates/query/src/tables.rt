// The steps of a query on decoded tables. The run and Pi's tables share one pair of working arrays, Delta's tables and Sigma's the other.
ghost use Rattle.instance.specs.Decoded.{tables_of};
ghost use Rattle.meaning.specs.Calls.{accepted};
ghost use Rattle.meaning.specs.Query.{migrate_query};
ghost use Rattle.steps.specs.Migrated.{Migrates};
ghost use Rattle.query.specs.Opened.{query_of, Ready};
ghost use Rattle.query.specs.Steps.{pushed_pi, answered, Rooms, Joinable, Migratable};

use crate::open::{Query, check_mappings};
use instance::Instance;
use pi::components::Components;
use pi::families::list_families;
use pi::gather::components;
use steps::Refusal;
use steps::open::{between, open_instance};
use steps::pushing::push_run;
use steps::results::{Migrated, check_rows};
use steps::tests::check_listed;

// Sigma along H of Pi along G of Delta's tables.
fn join_and_push(
    q: &Query,
    k: &Components,
    pulled: Instance,
    run_links: &mut [u32],
    run_values: &mut [u32],
    links: &mut [u32],
    values: &mut [u32],
    rows: &mut [u16],
) -> Result<Migrated, Refusal>
    requires { Joinable q.now k.now pulled links.old values.old × Rooms q.now run_links.old run_values.old links.old values.old rows.old }
    ensures { Migrates result links.new values.new (pushed_pi (query_of q.now) (tables_of q.now.second.schema pulled links.old values.old)) }
{
    let source = q.second.schema;
    let target = q.third.schema;
    let paths = q.third.paths;
    let listing = list_families(source, target, paths, q.g, pulled, *k, links, rows);
    check_listed(&listing)?;
    let joined = pi::join(
        source,
        target,
        paths,
        q.g,
        pulled,
        *k,
        listing.counts,
        rows,
        values,
        run_links,
        run_values,
    );
    let along_h = between(&q.third, &q.fourth, &q.h);
    push_run(&along_h, joined, run_links, run_values, links, values)
}

// Delta along F of a run, and what is made of it.
fn migrate_run(
    q: &Query,
    k: &Components,
    run: Instance,
    run_links: &mut [u32],
    run_values: &mut [u32],
    links: &mut [u32],
    values: &mut [u32],
    rows: &mut [u16],
) -> Result<Migrated, Refusal>
    requires { Migratable q.now k.now run run_links.old run_values.old × Rooms q.now run_links.old run_values.old links.old values.old rows.old }
    ensures { Migrates result links.new values.new (migrate_query (query_of q.now) (tables_of q.now.first run run_links.old run_values.old)) }
{
    let source = q.second.schema;
    let pulled = delta::delta(
        source, q.first, q.f, run, run_links, run_values, links, values,
    );
    check_rows(&source, &pulled)?;
    join_and_push(q, k, pulled, run_links, run_values, links, values, rows)
}

// The query's tables of a run, in working arrays: the run's sheet, the tests of G and H, then the migrations.
pub(crate) fn query_tables(
    q: &Query,
    i: &[u8],
    run_links: &mut [u32],
    run_values: &mut [u32],
    links: &mut [u32],
    values: &mut [u32],
    rows: &mut [u16],
) -> Result<Migrated, Refusal>
    requires { Ready q.now × Rooms q.now run_links.old run_values.old links.old values.old rows.old }
    ensures { Migrates result links.new values.new (answered (accepted (query_of q.now)) i.now) }
{
    let run = open_instance(&q.first, i, 8, run_links, run_values)?;
    let k = components(q.second.schema, q.third.schema, q.third.paths, q.g);
    check_mappings(q, &k)?;
    migrate_run(q, &k, run, run_links, run_values, links, values, rows)
}
