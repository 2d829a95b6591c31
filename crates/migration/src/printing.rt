// The push program's work: from the bytes that it reads to the text that it prints.
ghost use Rattle.std.specs.Prelude.{◌≡◌, ◌≤◌, length};
ghost use Rattle.meaning.specs.Calls.{accepted};
ghost use Rattle.meaning.specs.Program as program;
ghost use Rattle.text.specs.Written.{max_text_bytes};
ghost use Rattle.steps.specs.Opened.{migration_of, FromSheets, RoomsIn};
ghost use Rattle.steps.specs.Printed.{printed_into};
ghost use Rattle.steps.specs.Runs.{run_input, evenly_pushed};

use crate::migrate::sigma_tables;
use instance::Instance;
use steps::open::{Opened, have_few_columns, open};
use steps::printing::print;
use text::framing::nth_sheet;
use text::{Text, write_refusal};

// Prints Sigma of a run, with working arrays of these lengths: the length of the text.
fn print_sigma<const LINKS: usize, const VALUES: usize>(
    opened: &Opened,
    i: &[u8],
    out: &mut [u8],
) -> usize
    requires { FromSheets opened.now × RoomsIn opened.now LINKS VALUES × (max_text_bytes ≤ length out.old) }
    ensures { (result, out.new) ≡ printed_into out.old (program.shown (evenly_pushed (run_input (accepted (migration_of opened.now)) i.now))) }
{
    let mut run_links = [0u32; LINKS];
    let mut run_values = [0u32; VALUES];
    let mut links = [0u32; LINKS];
    let mut values = [0u32; VALUES];
    let migrated = sigma_tables(
        opened,
        i,
        &mut run_links,
        &mut run_values,
        &mut links,
        &mut values,
    );
    let text = print(migrated, &links, &values, out);
    text.length
}

// What the program push prints for an input, written to the front of out: its length. Where out has fewer than `Text::BYTES`
// bytes, which hold every text, nothing is written, and the answer is 0.
pub fn push(input: &[u8], out: &mut [u8]) -> usize
    ensures { (result, out.new) ≡ printed_into out.old (program.push input.now) }
{
    if out.len() < Text::BYTES {
        return 0;
    }
    let run = nth_sheet(input, 3);
    match open(
        nth_sheet(input, 0),
        nth_sheet(input, 1),
        nth_sheet(input, 2),
    ) {
        Ok(opened) => {
            if have_few_columns(&opened) {
                print_sigma::<{ Instance::FEW_LINKS }, { Instance::FEW_VALUES }>(&opened, run, out)
            } else {
                print_sigma::<{ Instance::LINKS }, { Instance::VALUES }>(&opened, run, out)
            }
        }
        Err(refusal) => write_refusal(out, refusal.number, refusal.place).length,
    }
}
