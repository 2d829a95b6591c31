// The tests of matchings: the judge of a matching sheet, and all tests of a checker or a turning before the tray.
ghost use Rattle.std.specs.Prelude.{◌≡◌, ◌≤◌, length, IfOk};
ghost use Rattle.meaning.specs.Matching.{judge_matching};
ghost use Rattle.meaning.specs.Calls.{accepted, at};
ghost use Rattle.schema.specs.Decoded.{schema_of};
ghost use Rattle.instance.specs.Decoded.{tables_of};
ghost use Rattle.matching.specs.Compared.{partners_of, Comparable};
ghost use Rattle.steps.specs.Answers.{outcome_of};
ghost use Rattle.steps.specs.Opened.{migration_of, Ready, RoomsIn};
ghost use Rattle.migration.specs.Sides.{inputs_of, Migratable, Rooms};
ghost use Rattle.migration.specs.Matched.{pushed_list, raw_list, side_list};
ghost use Rattle.migration.specs.Turnable.{turnable_of, matched_side, ReadyToTurn};

use crate::sides::{Sides, open_sides};
use encoding::matching::read_matching;
use instance::Instance;
use instance::decode::total;
use matching::is_matching;
use schema::Schema;
use schema::faults::Fault;
use steps::open::{Opened, have_few_columns};
use steps::results::check_rows;
use steps::{Refusal, Verdict};

// Reads the partners of A's rows in B from the sheet at place 6.
fn judge_matching(
    schema: &Schema,
    a: &Instance,
    a_links: &[u32],
    a_values: &[u32],
    b: &Instance,
    b_links: &[u32],
    b_values: &[u32],
    sheet: &[u8],
    list: &mut [u32],
) -> Verdict
    requires { Comparable schema.now a.now a_links.now a_values.now b.now b_links.now b_values.now list.old }
    ensures { outcome_of (λ _. partners_of schema.now a.now list.new) result ≡ at 6 (judge_matching (schema_of schema.now) (tables_of schema.now a.now a_links.now a_values.now) (tables_of schema.now b.now b_links.now b_values.now) sheet.now) }
{
    let rows = total(&a.counts, schema.graph.nodes);
    read_matching(sheet, rows, list).map_err(|fault| Refusal::at(fault, 6))?;
    if is_matching(*schema, *a, a_links, a_values, *b, b_links, b_values, list) {
        Ok(())
    } else {
        Err(Refusal::at(Fault::NoMatch, 6))
    }
}

// What the sheets of a mapping, a run and a book say, with the links and values of the run and the book.
#[derive(Clone, Copy)]
struct Tables<'a> {
    opened: &'a Opened,
    sides: Sides,
    run_links: &'a [u32],
    run_values: &'a [u32],
    book_links: &'a [u32],
    book_values: &'a [u32],
}

// The pushed side of accepted inputs: refuses with 15, or as the matching sheet says; else the partners of Sigma's rows stand in list.
fn judge_pushed(
    x: Tables,
    sheet: &[u8],
    list: &mut [u32],
    links: &mut [u32],
    values: &mut [u32],
) -> Verdict
    requires { Migratable x.opened.now x.sides x.run_links.now x.run_values.now x.book_links.now x.book_values.now × Rooms x.opened.now x.run_links.now x.run_values.now x.book_links.now x.book_values.now links.old values.old × (512 ≤ length list.old) }
    ensures { outcome_of (λ _. partners_of x.entry.opened.now.source x.entry.sides.run list.new) result ≡ pushed_list (inputs_of x.entry.opened.now x.entry.sides x.entry.run_links.now x.entry.run_values.now x.entry.book_links.now x.entry.book_values.now) sheet.now }
{
    let opened = x.opened;
    let run = x.sides.run;
    let book = x.sides.book;
    let counted = delta::delta_counts(opened.source, opened.target, opened.mapping, book);
    check_rows(&opened.source, &counted)?;
    let pushed = sigma::sigma(
        opened.source,
        opened.target,
        opened.source_paths,
        opened.target_paths,
        opened.mapping,
        run,
        x.run_links,
        x.run_values,
        links,
        values,
    );
    judge_matching(
        &opened.target,
        &pushed,
        links,
        values,
        &book,
        x.book_links,
        x.book_values,
        sheet,
        list,
    )
}

// The raw side of accepted inputs: refuses with 15, or as the matching sheet says; else the partners of the run's rows stand in list.
fn judge_raw(
    x: Tables,
    sheet: &[u8],
    list: &mut [u32],
    links: &mut [u32],
    values: &mut [u32],
) -> Verdict
    requires { Migratable x.opened.now x.sides x.run_links.now x.run_values.now x.book_links.now x.book_values.now × Rooms x.opened.now x.run_links.now x.run_values.now x.book_links.now x.book_values.now links.old values.old × (512 ≤ length list.old) }
    ensures { outcome_of (λ _. partners_of x.entry.opened.now.source x.entry.sides.run list.new) result ≡ raw_list (inputs_of x.entry.opened.now x.entry.sides x.entry.run_links.now x.entry.run_values.now x.entry.book_links.now x.entry.book_values.now) sheet.now }
{
    let opened = x.opened;
    let run = x.sides.run;
    let book = x.sides.book;
    let pulled = delta::delta(
        opened.source,
        opened.target,
        opened.mapping,
        book,
        x.book_links,
        x.book_values,
        links,
        values,
    );
    check_rows(&opened.source, &pulled)?;
    judge_matching(
        &opened.source,
        &run,
        x.run_links,
        x.run_values,
        &pulled,
        links,
        values,
        sheet,
        list,
    )
}

// From Sigma of the run to the book, or from the run to Delta of the book.
#[derive(Clone, Copy, Debug, PartialEq, Eq)]
pub enum Side {
    Pushed,
    Raw,
}

// The matching sheet of one side, judged; where it is a matching, its partners stand in list.
fn judge_side(
    side: Side,
    x: Tables,
    sheet: &[u8],
    list: &mut [u32],
    links: &mut [u32],
    values: &mut [u32],
) -> Verdict
    requires { Migratable x.opened.now x.sides x.run_links.now x.run_values.now x.book_links.now x.book_values.now × Rooms x.opened.now x.run_links.now x.run_values.now x.book_links.now x.book_values.now links.old values.old × (512 ≤ length list.old) }
    ensures { outcome_of (λ _. partners_of x.entry.opened.now.source x.entry.sides.run list.new) result ≡ side_list side (inputs_of x.entry.opened.now x.entry.sides x.entry.run_links.now x.entry.run_values.now x.entry.book_links.now x.entry.book_values.now) sheet.now }
{
    match side {
        Side::Pushed => judge_pushed(x, sheet, list, links, values),
        Side::Raw => judge_raw(x, sheet, list, links, values),
    }
}

// The tests of a side of an opened mapping, up to the matching sheet k, with working arrays of these lengths: the run.
fn match_of<const LINKS: usize, const VALUES: usize>(
    side: Side,
    opened: &Opened,
    i: &[u8],
    j: &[u8],
    k: &[u8],
    list: &mut [u32],
) -> Result<Instance, Refusal>
    requires { Ready opened.now × RoomsIn opened.now LINKS VALUES × (512 ≤ length list.old) }
    ensures says { outcome_of (λ run. turnable_of opened.now run list.new) result ≡ matched_side side (accepted (migration_of opened.now)) i.now j.now k.now }
    ensures ready { IfOk result (ReadyToTurn opened.now) }
{
    let mut run_links = [0u32; LINKS];
    let mut run_values = [0u32; VALUES];
    let mut book_links = [0u32; LINKS];
    let mut book_values = [0u32; VALUES];
    let mut links = [0u32; LINKS];
    let mut values = [0u32; VALUES];
    let sides = open_sides(
        opened,
        i,
        j,
        &mut run_links,
        &mut run_values,
        &mut book_links,
        &mut book_values,
    )?;
    let x = Tables {
        opened,
        sides,
        run_links: &run_links,
        run_values: &run_values,
        book_links: &book_links,
        book_values: &book_values,
    };
    judge_side(side, x, k, list, &mut links, &mut values)?;
    Ok(sides.run)
}

// The tests of a side of an opened mapping, up to the matching sheet k: the run; the partners stand in list.
pub(crate) fn match_side(
    side: Side,
    opened: &Opened,
    i: &[u8],
    j: &[u8],
    k: &[u8],
    list: &mut [u32],
) -> Result<Instance, Refusal>
    requires { Ready opened.now × (512 ≤ length list.old) }
    ensures says { outcome_of (λ run. turnable_of opened.now run list.new) result ≡ matched_side side (accepted (migration_of opened.now)) i.now j.now k.now }
    ensures ready { IfOk result (ReadyToTurn opened.now) }
{
    if have_few_columns(opened) {
        match_of::<{ Instance::FEW_LINKS }, { Instance::FEW_VALUES }>(side, opened, i, j, k, list)
    } else {
        match_of::<{ Instance::LINKS }, { Instance::VALUES }>(side, opened, i, j, k, list)
    }
}
