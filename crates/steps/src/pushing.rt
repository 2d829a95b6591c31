// A run with an even mapping along which it is pushed; Sigma of decoded tables, and its size.
ghost use Rattle.std.specs.Prelude.{◌≡◌, IfOk};
ghost use Rattle.instance.specs.Decoded.{RoomFor};
ghost use Rattle.meaning.specs.Calls.{accepted};
ghost use Rattle.meaning.specs.Changes.{even_run};
ghost use Rattle.steps.specs.Answers.{outcome_of};
ghost use Rattle.steps.specs.Migrated.{Migrates};
ghost use Rattle.steps.specs.Opened.{migration_of, Ready};
ghost use Rattle.steps.specs.Runs.{run_input_of, run_of, pushed_run, EvenRun, PushableRun};

use crate::Refusal;
use crate::open::{Opened, check_even, open_instance};
use crate::results::{Migrated, check_rows};
use instance::Instance;

// The sheet at place 4, a run that the mapping, which is even, pushes: the run's links and values stand in working arrays.
pub fn open_run(
    opened: &Opened,
    i: &[u8],
    links: &mut [u32],
    values: &mut [u32],
) -> Result<Instance, Refusal>
    requires { Ready opened.now × RoomFor opened.now.source links.old values.old }
    ensures says { outcome_of (λ r. run_of opened.now r links.new values.new) result ≡ even_run (accepted (migration_of opened.now)) i.now }
    ensures even { IfOk result (λ r. EvenRun opened.now r links.new values.new) }
{
    let run = open_instance(&opened.source, i, 4, links, values)?;
    check_even(opened)?;
    Ok(run)
}

// Sigma's tables of a run along an even mapping. Refuses with 15.
pub fn push_run(
    opened: &Opened,
    run: Instance,
    run_links: &[u32],
    run_values: &[u32],
    links: &mut [u32],
    values: &mut [u32],
) -> Result<Migrated, Refusal>
    requires { PushableRun opened.now run run_links.now run_values.now × RoomFor opened.now.source run_links.now run_values.now × RoomFor opened.now.target links.old values.old }
    ensures { Migrates result links.new values.new (pushed_run (run_input_of opened.now run run_links.now run_values.now)) }
{
    let tables = sigma::sigma(
        opened.source,
        opened.target,
        opened.source_paths,
        opened.target_paths,
        opened.mapping,
        run,
        run_links,
        run_values,
        links,
        values,
    );
    check_rows(&opened.target, &tables)?;
    Ok(Migrated {
        schema: opened.target,
        tables,
    })
}
