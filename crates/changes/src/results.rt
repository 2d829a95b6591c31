// A changed run with its Sigma, and how both are written into their trays (refusal 16).
ghost use Rattle.std.specs.Prelude.{◌≡◌, take};
ghost use Rattle.meaning.specs.Changes.{both_written};
ghost use Rattle.changes.specs.Answers.{trays_of};
ghost use Rattle.changes.specs.Changed.{sheets_in, Writable};

use crate::{Changed, Lengths};
use encoding::{sheet_length, write_instance};
use instance::Instance;
use schema::faults::Fault;
use steps::ensure;
use steps::open::Opened;

// A changed run and Sigma's tables of it. Links and values stand in working arrays.
#[derive(Clone, Copy)]
pub struct Change {
    pub run: Instance,
    pub pushed: Instance,
}

// The first n bytes of a tray or, where n is beyond it, the whole tray.
pub(crate) fn front<'a>(tray: &'a [u8], n: usize) -> &'a [u8]
    ensures { result.now ≡ take n tray.now }
{
    if n < tray.len() { &tray[..n] } else { tray }
}

// Writes both sheets of a change into their trays. Refuses with 16, and then leaves both as they are.
pub(crate) fn write_change(
    opened: &Opened,
    change: &Change,
    run_links: &[u32],
    run_values: &[u32],
    links: &[u32],
    values: &[u32],
    run: &mut [u8],
    pushed: &mut [u8],
) -> Changed
    requires { Writable opened.now change.now run_links.now run_values.now links.now values.now }
    ensures { trays_of result run.new pushed.new ≡ both_written run.old pushed.old (sheets_in opened.now change.now run_links.now run_values.now links.now values.now) }
{
    let run_bytes = sheet_length(opened.source, change.run);
    let pushed_bytes = sheet_length(opened.target, change.pushed);
    ensure(run_bytes <= run.len(), Fault::SmallTray)?;
    ensure(pushed_bytes <= pushed.len(), Fault::SmallTray)?;
    Ok(Lengths {
        run: write_instance(run, opened.source, change.run, run_links, run_values),
        pushed: write_instance(pushed, opened.target, change.pushed, links, values),
    })
}
