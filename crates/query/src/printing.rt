// The work of the program dig: from the bytes that it reads to the text that it prints.
ghost use Rattle.std.specs.Prelude.{◌≡◌, ◌≤◌, length};
ghost use Rattle.meaning.specs.Calls.{accepted};
ghost use Rattle.meaning.specs.Program as program;
ghost use Rattle.text.specs.Written.{max_text_bytes};
ghost use Rattle.steps.specs.Printed.{printed_into};
ghost use Rattle.query.specs.Opened.{query_of, FromSheets, RoomsIn};
ghost use Rattle.query.specs.Steps.{answered};

use crate::open::{Query, have_few_columns, open};
use crate::tables::query_tables;
use instance::Instance;
use pi::families::Listing;
use steps::printing::print;
use text::framing::nth_sheet;
use text::{Text, write_refusal};

// Prints the query's tables of a run, with working arrays of these lengths: the length of the text.
fn print_query<const LINKS: usize, const VALUES: usize>(
    q: &Query,
    i: &[u8],
    out: &mut [u8],
) -> usize
    requires { FromSheets q.now × RoomsIn q.now LINKS VALUES × (max_text_bytes ≤ length out.old) }
    ensures { (result, out.new) ≡ printed_into out.old (program.shown (answered (accepted (query_of q.now)) i.now)) }
{
    let mut run_links = [0u32; LINKS];
    let mut run_values = [0u32; VALUES];
    let mut links = [0u32; LINKS];
    let mut values = [0u32; VALUES];
    let mut rows = [0u16; Listing::NUMBERS];
    let migrated = query_tables(
        q,
        i,
        &mut run_links,
        &mut run_values,
        &mut links,
        &mut values,
        &mut rows,
    );
    let text = print(migrated, &links, &values, out);
    text.length
}

// What the program dig prints for an input, written to the front of out: its length. Where out has fewer than `Text::BYTES`
// bytes, which hold every text, nothing is written, and the answer is 0.
pub fn dig(input: &[u8], out: &mut [u8]) -> usize
    ensures { (result, out.new) ≡ printed_into out.old (program.dig input.now) }
{
    if out.len() < Text::BYTES {
        return 0;
    }
    let run = nth_sheet(input, 7);
    match open(
        nth_sheet(input, 0),
        nth_sheet(input, 1),
        nth_sheet(input, 2),
        nth_sheet(input, 3),
        nth_sheet(input, 4),
        nth_sheet(input, 5),
        nth_sheet(input, 6),
    ) {
        Ok(q) => {
            if have_few_columns(&q) {
                print_query::<{ Instance::FEW_LINKS }, { Instance::FEW_VALUES }>(&q, run, out)
            } else {
                print_query::<{ Instance::LINKS }, { Instance::VALUES }>(&q, run, out)
            }
        }
        Err(refusal) => write_refusal(out, refusal.number, refusal.place).length,
    }
}
