// The changes on decoded tables: a row added to those of a run or withdrawn from them, and Sigma of the run then.
ghost use Rattle.meaning.specs.Calls.{accepted};
ghost use Rattle.meaning.specs.Changes.{addition, withdrawal};
ghost use Rattle.schema.specs.Decoded.{schema_of};
ghost use Rattle.instance.specs.Decoded.{tables_of, RoomFor};
ghost use Rattle.steps.specs.Opened.{migration_of, Ready};
ghost use Rattle.changes.specs.Changed.{changed_by, changed_sheets, AcceptedRun, Rooms, ChangesTo, Changes};

use crate::results::Change;
use instance::Instance;
use instance::decode::total;
use rows::adding::put_row;
use rows::judge::judge_row;
use rows::withdrawing::{is_held, take_row};
use schema::Schema;
use schema::faults::Fault;
use steps::open::Opened;
use steps::pushing::open_run;
use steps::{Refusal, ensure};

// What a change does with a table: a row is added, whose sheet is lent, or the row of a number is withdrawn.
#[derive(Clone, Copy, Debug, PartialEq, Eq)]
pub enum Kind {
    Add,
    Withdraw(usize),
}

// The tables of a run with a row added. The row stands in links and values.
fn add(
    schema: &Schema,
    run: Instance,
    table: usize,
    row: &[u8],
    run_links: &mut [u32],
    run_values: &mut [u32],
    links: &mut [u32],
    values: &mut [u32],
) -> Result<Instance, Refusal>
    requires { AcceptedRun schema.now run run_links.old run_values.old × RoomFor schema.now run_links.old run_values.old × RoomFor schema.now links.old values.old }
    ensures { ChangesTo schema.now result run_links.new run_values.new (addition (schema_of schema.now) (tables_of schema.now run run_links.old run_values.old) table row.now) }
{
    let nodes = schema.graph.nodes;
    ensure(table < nodes, Fault::Absent)?;
    if let Err(fault) = judge_row(*schema, run, table, row, run_links, links, values) {
        return Err(Refusal::of_all(fault));
    }
    ensure(total(&run.counts, nodes) < Instance::ROWS, Fault::Overfull)?;
    Ok(put_row(*schema, run, table, links, values, run_links, run_values))
}

// The tables of a run without row x of a table.
fn withdraw(
    schema: &Schema,
    run: Instance,
    table: usize,
    x: usize,
    run_links: &mut [u32],
    run_values: &mut [u32],
) -> Result<Instance, Refusal>
    requires { AcceptedRun schema.now run run_links.old run_values.old × RoomFor schema.now run_links.old run_values.old }
    ensures { ChangesTo schema.now result run_links.new run_values.new (withdrawal (schema_of schema.now) (tables_of schema.now run run_links.old run_values.old) table x) }
{
    let nodes = schema.graph.nodes;
    ensure(table < nodes, Fault::Absent)?;
    ensure(x < run.counts[table] as usize, Fault::Absent)?;
    let held = is_held(*schema, run, table, x, run_links);
    ensure(!held, Fault::Held)?;
    Ok(take_row(*schema, run, table, x, run_links, run_values))
}

// The tables of a run after a change.
fn change(
    kind: Kind,
    schema: &Schema,
    run: Instance,
    table: usize,
    row: &[u8],
    run_links: &mut [u32],
    run_values: &mut [u32],
    links: &mut [u32],
    values: &mut [u32],
) -> Result<Instance, Refusal>
    requires { AcceptedRun schema.now run run_links.old run_values.old × RoomFor schema.now run_links.old run_values.old × RoomFor schema.now links.old values.old }
    ensures { ChangesTo schema.now result run_links.new run_values.new (changed_by kind (schema_of schema.now) (tables_of schema.now run run_links.old run_values.old) table row.now) }
{
    match kind {
        Kind::Add => add(
            schema, run, table, row, run_links, run_values, links, values,
        ),
        Kind::Withdraw(x) => withdraw(schema, run, table, x, run_links, run_values),
    }
}

// A change of the run of a sheet, and Sigma of the run then, which has as many rows: in working arrays.
pub(crate) fn change_tables(
    kind: Kind,
    opened: &Opened,
    i: &[u8],
    table: usize,
    row: &[u8],
    run_links: &mut [u32],
    run_values: &mut [u32],
    links: &mut [u32],
    values: &mut [u32],
) -> Result<Change, Refusal>
    requires { Ready opened.now × Rooms opened.now run_links.old run_values.old links.old values.old }
    ensures { Changes opened.now result run_links.new run_values.new links.new values.new (changed_sheets kind (accepted (migration_of opened.now)) i.now table row.now) }
{
    let before = open_run(opened, i, run_links, run_values)?;
    let run = change(
        kind,
        &opened.source,
        before,
        table,
        row,
        run_links,
        run_values,
        links,
        values,
    )?;
    let pushed = sigma::sigma(
        opened.source,
        opened.target,
        opened.source_paths,
        opened.target_paths,
        opened.mapping,
        run,
        run_links,
        run_values,
        links,
        values,
    );
    Ok(Change { run, pushed })
}
