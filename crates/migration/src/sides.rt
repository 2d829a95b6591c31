// The sheets of a run and a book, which checkers and turnings open behind those of a mapping.
ghost use Rattle.std.specs.Prelude.{◌≡◌, IfOk};
ghost use Rattle.meaning.specs.Calls.{accepted};
ghost use Rattle.instance.specs.Decoded.{RoomFor};
ghost use Rattle.steps.specs.Answers.{outcome_of};
ghost use Rattle.steps.specs.Opened.{migration_of, Ready};
ghost use Rattle.migration.specs.Sides.{inputs, inputs_of, Migratable};

use instance::Instance;
use steps::Refusal;
use steps::open::{Opened, check_even, open_instance};

// What the sheets of a run and a book say. Their links and values stand in working arrays.
#[derive(Clone, Copy)]
pub struct Sides {
    pub run: Instance,
    pub book: Instance,
}

// The sheets at places 4 and 5, judged after those of S, T and the mapping, and the mapping's evenness.
pub(crate) fn open_sides(
    opened: &Opened,
    i: &[u8],
    j: &[u8],
    run_links: &mut [u32],
    run_values: &mut [u32],
    book_links: &mut [u32],
    book_values: &mut [u32],
) -> Result<Sides, Refusal>
    requires { Ready opened.now × RoomFor opened.now.source run_links.old run_values.old × RoomFor opened.now.target book_links.old book_values.old }
    ensures says { outcome_of (λ x. inputs_of opened.now x run_links.new run_values.new book_links.new book_values.new) result ≡ inputs (accepted (migration_of opened.now)) i.now j.now }
    ensures migratable { IfOk result (λ x. Migratable opened.now x run_links.new run_values.new book_links.new book_values.new) }
{
    let run = open_instance(&opened.source, i, 4, run_links, run_values)?;
    let book = open_instance(&opened.target, j, 5, book_links, book_values)?;
    check_even(opened)?;
    Ok(Sides { run, book })
}
