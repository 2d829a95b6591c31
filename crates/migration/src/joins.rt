// Pi, of lent sheets into a lent tray: the families of a run are listed first, and its tables made of them after.
ghost use Rattle.std.specs.Prelude.{◌≡◌, length};
ghost use Rattle.meaning.specs.Calls.{pi_tables, accepted, sheet_of, in_tray};
ghost use Rattle.schema.specs.Judged.{Sound};
ghost use Rattle.instance.specs.Decoded.{RoomFor};
ghost use Rattle.steps.specs.Answers.{lent_of};
ghost use Rattle.migration.specs.Joins.{tested_joined, joined_of, ListedRun, Joins};
ghost use Rattle.steps.specs.Migrated.{migrated_of, Writable};
ghost use Rattle.steps.specs.Opened.{migration_of, Ready, RoomIn};
ghost use Rattle.steps.specs.Runs.{run_input};

use instance::{Instance, has_few_columns};
use pi::components::Components;
use pi::families::{Listing, list_families};
use pi::gather::components;
use schema::Schema;
use steps::open::{Opened, open, open_instance};
use steps::results::{Migrated, write_migrated};
use steps::tests::{check_joinable, check_listed};
use steps::{Refusal, Written};

// The run and the components of Pi's tables, with how many families each table has.
#[derive(Clone, Copy)]
pub struct Joined {
    pub run: Instance,
    pub components: Components,
    pub counts: [u32; Schema::NODES],
}

// The families of a run, with the run in working arrays. Refuses with 13, 14 and 15.
fn join_run(
    opened: &Opened,
    i: &[u8],
    run_links: &mut [u32],
    run_values: &mut [u32],
    rows: &mut [u16],
) -> Result<Joined, Refusal>
    requires { Ready opened.now × RoomFor opened.now.source run_links.old run_values.old × (length rows.old ≡ 32768) }
    ensures { Joins opened.now result rows.new run_values.new (tested_joined (run_input (accepted (migration_of opened.now)) i.now)) }
{
    let run = open_instance(&opened.source, i, 4, run_links, run_values)?;
    let k = components(
        opened.source,
        opened.target,
        opened.target_paths,
        opened.mapping,
    );
    check_joinable(opened, &k)?;
    let listing = list_families(
        opened.source,
        opened.target,
        opened.target_paths,
        opened.mapping,
        run,
        k,
        run_links,
        rows,
    );
    check_listed(&listing)?;
    Ok(Joined {
        run,
        components: k,
        counts: listing.counts,
    })
}

// Pi's tables, made of listed families in working arrays.
fn join_tables(
    opened: &Opened,
    x: &Joined,
    run_values: &[u32],
    rows: &[u16],
    links: &mut [u32],
    values: &mut [u32],
) -> Migrated
    requires { Sound opened.now.target × ListedRun opened.now x.now rows.now run_values.now × RoomFor opened.now.target links.old values.old }
    ensures says { migrated_of result links.new values.new ≡ joined_of opened.now x.now rows.now run_values.now }
    ensures writable { Writable result links.new values.new }
{
    let tables = pi::join(
        opened.source,
        opened.target,
        opened.target_paths,
        opened.mapping,
        x.run,
        x.components,
        x.counts,
        rows,
        run_values,
        links,
        values,
    );
    Migrated {
        schema: opened.target,
        tables,
    }
}

// These tables, written, with working arrays of these lengths.
fn write_of<const LINKS: usize, const VALUES: usize>(
    opened: &Opened,
    x: &Joined,
    run_values: &[u32],
    rows: &[u16],
    tray: &mut [u8],
) -> Written
    requires { Sound opened.now.target × RoomIn opened.now.target LINKS VALUES × ListedRun opened.now x.now rows.now run_values.now }
    ensures { lent_of result tray.new ≡ in_tray tray.old (sheet_of (accepted (joined_of opened.now x.now rows.now run_values.now))) }
{
    let mut links = [0u32; LINKS];
    let mut values = [0u32; VALUES];
    let migrated = join_tables(opened, x, run_values, rows, &mut links, &mut values);
    write_migrated(&migrated, &links, &values, tray)
}

// Writes what the families make. It is called when they are listed, so that the arrays of the result do not stand on the stack beside the search.
fn write_joined(
    opened: &Opened,
    x: &Joined,
    run_values: &[u32],
    rows: &[u16],
    tray: &mut [u8],
) -> Written
    requires { Sound opened.now.target × ListedRun opened.now x.now rows.now run_values.now }
    ensures { lent_of result tray.new ≡ in_tray tray.old (sheet_of (accepted (joined_of opened.now x.now rows.now run_values.now))) }
{
    if has_few_columns(opened.target) {
        write_of::<{ Instance::FEW_LINKS }, { Instance::FEW_VALUES }>(
            opened, x, run_values, rows, tray,
        )
    } else {
        write_of::<{ Instance::LINKS }, { Instance::VALUES }>(opened, x, run_values, rows, tray)
    }
}

// Pi of a run, written, with working arrays of these lengths for the run.
fn pi_of<const LINKS: usize, const VALUES: usize>(
    opened: &Opened,
    i: &[u8],
    tray: &mut [u8],
) -> Written
    requires { Ready opened.now × RoomIn opened.now.source LINKS VALUES }
    ensures { lent_of result tray.new ≡ in_tray tray.old (sheet_of (tested_joined (run_input (accepted (migration_of opened.now)) i.now))) }
{
    let mut run_links = [0u32; LINKS];
    let mut run_values = [0u32; VALUES];
    let mut rows = [0u16; Listing::NUMBERS];
    let joined = join_run(opened, i, &mut run_links, &mut run_values, &mut rows)?;
    write_joined(opened, &joined, &run_values, &rows, tray)
}

// Pi: writes the instance of t that the mapping f from s to t makes of the instance i of s. Refuses with 1 to 6 at the places of s and t,
// with 1, 2, 7 and 8 at that of f, with 1, 2, 3, 9, 10 and 11 at that of i, and with 13, 14, 15 and 16 at place 0.
pub fn pi(s: &[u8], t: &[u8], f: &[u8], i: &[u8], tray: &mut [u8]) -> Written
    ensures { lent_of result tray.new ≡ in_tray tray.old (sheet_of (pi_tables s.now t.now f.now i.now)) }
{
    let opened = open(s, t, f)?;
    if has_few_columns(opened.source) {
        pi_of::<{ Instance::FEW_LINKS }, { Instance::FEW_VALUES }>(&opened, i, tray)
    } else {
        pi_of::<{ Instance::LINKS }, { Instance::VALUES }>(&opened, i, tray)
    }
}
