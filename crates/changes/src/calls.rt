// The changes of lent sheets, into two lent trays.
ghost use Rattle.std.specs.Prelude.{◌≡◌, take};
ghost use Rattle.meaning.specs.Calls.{accepted};
ghost use Rattle.meaning.specs.Changes.{in_trays, add_row, withdraw_row};
ghost use Rattle.steps.specs.Opened.{migration_of, Ready, RoomsIn};
ghost use Rattle.changes.specs.Answers.{trays_of};
ghost use Rattle.changes.specs.Changed.{changed_sheets, changed_trays};

use crate::Changed;
use crate::results::{front, write_change};
use crate::tables::{Kind, change_tables};
use instance::Instance;
use steps::open::{Opened, have_few_columns, open};

// A change, written, with working arrays of these lengths.
fn change_in<const LINKS: usize, const VALUES: usize>(
    kind: Kind,
    opened: &Opened,
    run: &mut [u8],
    run_length: usize,
    table: usize,
    row: &[u8],
    pushed: &mut [u8],
) -> Changed
    requires { Ready opened.now × RoomsIn opened.now LINKS VALUES }
    ensures { trays_of result run.new pushed.new ≡ in_trays run.old pushed.old (changed_sheets kind (accepted (migration_of opened.now)) (take run_length run.old) table row.now) }
{
    let mut run_links = [0u32; LINKS];
    let mut run_values = [0u32; VALUES];
    let mut links = [0u32; LINKS];
    let mut values = [0u32; VALUES];
    let change = change_tables(
        kind,
        opened,
        front(run, run_length),
        table,
        row,
        &mut run_links,
        &mut run_values,
        &mut links,
        &mut values,
    )?;
    write_change(
        opened,
        &change,
        &run_links,
        &run_values,
        &links,
        &values,
        run,
        pushed,
    )
}

// A change of the run in the first run_length bytes of its tray or, where run_length is beyond it, in the whole tray.
fn change_run(
    kind: Kind,
    s: &[u8],
    t: &[u8],
    f: &[u8],
    run: &mut [u8],
    run_length: usize,
    table: usize,
    row: &[u8],
    pushed: &mut [u8],
) -> Changed
    ensures { trays_of result run.new pushed.new ≡ changed_trays kind s.now t.now f.now run.old run_length table row.now pushed.old }
{
    let opened = open(s, t, f)?;
    if have_few_columns(&opened) {
        change_in::<{ Instance::FEW_LINKS }, { Instance::FEW_VALUES }>(
            kind, &opened, run, run_length, table, row, pushed,
        )
    } else {
        change_in::<{ Instance::LINKS }, { Instance::VALUES }>(
            kind, &opened, run, run_length, table, row, pushed,
        )
    }
}

// Adds a row to a table of the run, an instance of s, and pushes the run along the even mapping f from s to t: writes the changed run into its tray and Sigma of
// it into the other. The run is the first run_length bytes of its tray or, where run_length is beyond it, the whole tray. Refuses with 1 to 6 at the places of s
// and t, with 1, 2, 7 and 8 at that of f, with 1, 2, 3, 9, 10 and 11 at that of the run, and with 12, 18, 1, 2, 9, 10, 11, 15 and 16, in this order, at place 0.
pub fn add_row(
    s: &[u8],
    t: &[u8],
    f: &[u8],
    run: &mut [u8],
    run_length: usize,
    table: usize,
    row: &[u8],
    pushed: &mut [u8],
) -> Changed
    ensures { trays_of result run.new pushed.new ≡ add_row s.now t.now f.now run.old run_length table row.now pushed.old }
{
    change_run(Kind::Add, s, t, f, run, run_length, table, row, pushed)
}

// Withdraws a row from a table of the run, as add_row adds one: later rows of that table move down by one, links included. Refuses as add_row does before the
// tests of the change itself, and then with 18, 19 and 16, in this order, at place 0.
pub fn withdraw_row(
    s: &[u8],
    t: &[u8],
    f: &[u8],
    run: &mut [u8],
    run_length: usize,
    table: usize,
    row: usize,
    pushed: &mut [u8],
) -> Changed
    ensures { trays_of result run.new pushed.new ≡ withdraw_row s.now t.now f.now run.old run_length table row pushed.old }
{
    let kind = Kind::Withdraw(row);
    change_run(kind, s, t, f, run, run_length, table, &[], pushed)
}
