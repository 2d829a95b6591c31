// Delta and Sigma, of lent sheets into a lent tray.
ghost use Rattle.std.specs.Prelude.{◌≡◌};
ghost use Rattle.meaning.specs.Calls.{delta_tables, sigma_tables, accepted, sheet_of, in_tray};
ghost use Rattle.instance.specs.Decoded.{RoomFor};
ghost use Rattle.steps.specs.Answers.{lent_of};
ghost use Rattle.migration.specs.Books.{pulled_book};
ghost use Rattle.steps.specs.Migrated.{Migrates};
ghost use Rattle.steps.specs.Opened.{migration_of, Ready, RoomsIn};
ghost use Rattle.steps.specs.Runs.{run_input, evenly_pushed};

use instance::Instance;
use steps::open::{Opened, have_few_columns, open, open_instance};
use steps::pushing::{open_run, push_run};
use steps::results::{Migrated, check_rows, write_migrated};
use steps::{Refusal, Written};

// Delta's tables of a book, in working arrays.
fn delta_tables(
    opened: &Opened,
    j: &[u8],
    book_links: &mut [u32],
    book_values: &mut [u32],
    links: &mut [u32],
    values: &mut [u32],
) -> Result<Migrated, Refusal>
    requires { Ready opened.now × RoomFor opened.now.target book_links.old book_values.old × RoomFor opened.now.source links.old values.old }
    ensures { Migrates result links.new values.new (pulled_book (accepted (migration_of opened.now)) j.now) }
{
    let book = open_instance(&opened.target, j, 4, book_links, book_values)?;
    let tables = delta::delta(
        opened.source,
        opened.target,
        opened.mapping,
        book,
        book_links,
        book_values,
        links,
        values,
    );
    check_rows(&opened.source, &tables)?;
    Ok(Migrated {
        schema: opened.source,
        tables,
    })
}

// Delta of a book, written, with working arrays of these lengths.
fn delta_of<const LINKS: usize, const VALUES: usize>(
    opened: &Opened,
    j: &[u8],
    tray: &mut [u8],
) -> Written
    requires { Ready opened.now × RoomsIn opened.now LINKS VALUES }
    ensures { lent_of result tray.new ≡ in_tray tray.old (sheet_of (pulled_book (accepted (migration_of opened.now)) j.now)) }
{
    let mut book_links = [0u32; LINKS];
    let mut book_values = [0u32; VALUES];
    let mut links = [0u32; LINKS];
    let mut values = [0u32; VALUES];
    let migrated = delta_tables(
        opened,
        j,
        &mut book_links,
        &mut book_values,
        &mut links,
        &mut values,
    )?;
    write_migrated(&migrated, &links, &values, tray)
}

// Delta: writes the instance of s that the mapping f from s to t makes of the instance j of t. Refuses with 1 to 6 at the places of s and t,
// with 1, 2, 7 and 8 at that of f, with 1, 2, 3, 9, 10 and 11 at that of j, and with 15 and 16 at place 0.
pub fn delta(s: &[u8], t: &[u8], f: &[u8], j: &[u8], tray: &mut [u8]) -> Written
    ensures { lent_of result tray.new ≡ in_tray tray.old (sheet_of (delta_tables s.now t.now f.now j.now)) }
{
    let opened = open(s, t, f)?;
    if have_few_columns(&opened) {
        delta_of::<{ Instance::FEW_LINKS }, { Instance::FEW_VALUES }>(&opened, j, tray)
    } else {
        delta_of::<{ Instance::LINKS }, { Instance::VALUES }>(&opened, j, tray)
    }
}

// Sigma's tables of a run, in working arrays.
pub(crate) fn sigma_tables(
    opened: &Opened,
    i: &[u8],
    run_links: &mut [u32],
    run_values: &mut [u32],
    links: &mut [u32],
    values: &mut [u32],
) -> Result<Migrated, Refusal>
    requires { Ready opened.now × RoomFor opened.now.source run_links.old run_values.old × RoomFor opened.now.target links.old values.old }
    ensures { Migrates result links.new values.new (evenly_pushed (run_input (accepted (migration_of opened.now)) i.now)) }
{
    let run = open_run(opened, i, run_links, run_values)?;
    push_run(opened, run, run_links, run_values, links, values)
}

// Sigma of a run, written, with working arrays of these lengths.
fn sigma_of<const LINKS: usize, const VALUES: usize>(
    opened: &Opened,
    i: &[u8],
    tray: &mut [u8],
) -> Written
    requires { Ready opened.now × RoomsIn opened.now LINKS VALUES }
    ensures { lent_of result tray.new ≡ in_tray tray.old (sheet_of (evenly_pushed (run_input (accepted (migration_of opened.now)) i.now))) }
{
    let mut run_links = [0u32; LINKS];
    let mut run_values = [0u32; VALUES];
    let mut links = [0u32; LINKS];
    let mut values = [0u32; VALUES];
    let migrated = sigma_tables(
        opened,
        i,
        &mut run_links,
        &mut run_values,
        &mut links,
        &mut values,
    )?;
    write_migrated(&migrated, &links, &values, tray)
}

// Sigma: writes the instance of t that the even mapping f from s to t makes of the instance i of s. Refuses with 1 to 6 at the places of s and t,
// with 1, 2, 7 and 8 at that of f, with 1, 2, 3, 9, 10 and 11 at that of i, and with 12 and 16 at place 0.
pub fn sigma(s: &[u8], t: &[u8], f: &[u8], i: &[u8], tray: &mut [u8]) -> Written
    ensures { lent_of result tray.new ≡ in_tray tray.old (sheet_of (sigma_tables s.now t.now f.now i.now)) }
{
    let opened = open(s, t, f)?;
    if have_few_columns(&opened) {
        sigma_of::<{ Instance::FEW_LINKS }, { Instance::FEW_VALUES }>(&opened, i, tray)
    } else {
        sigma_of::<{ Instance::LINKS }, { Instance::VALUES }>(&opened, i, tray)
    }
}
