// The query for C, a slice as its address and its length, with its answer as one number, as `migration` has it.
ghost use Rattle.std.specs.Prelude.{◌≡◌};
ghost use Rattle.meaning.specs.Calls.{sheet_of, in_tray};
ghost use Rattle.meaning.specs.Query.{query_tables};
ghost use Rattle.migration.specs.Answers.{returned};

use crate::answer::query;
use migration::exports::written_number;

#[unsafe(no_mangle)]
pub extern "C" fn migration_query(
    s1: &[u8],
    s2: &[u8],
    s3: &[u8],
    s4: &[u8],
    f: &[u8],
    g: &[u8],
    h: &[u8],
    run: &[u8],
    tray: &mut [u8],
) -> u64
    ensures { (result, tray.new) ≡ returned (in_tray tray.old (sheet_of (query_tables s1.now s2.now s3.now s4.now f.now g.now h.now run.now))) }
{
    written_number(query(s1, s2, s3, s4, f, g, h, run, tray))
}
