// The query, of lent sheets into a lent tray.
ghost use Rattle.std.specs.Prelude.{◌≡◌};
ghost use Rattle.meaning.specs.Calls.{accepted, sheet_of, in_tray};
ghost use Rattle.meaning.specs.Query.{query_tables};
ghost use Rattle.steps.specs.Answers.{lent_of};
ghost use Rattle.query.specs.Opened.{query_of, Ready, RoomsIn};
ghost use Rattle.query.specs.Steps.{answered};

use crate::open::{Query, have_few_columns, open};
use crate::tables::query_tables;
use instance::Instance;
use pi::families::Listing;
use steps::Written;
use steps::results::write_migrated;

// The query's tables of a run, written, with working arrays of these lengths.
fn write_query<const LINKS: usize, const VALUES: usize>(
    q: &Query,
    i: &[u8],
    tray: &mut [u8],
) -> Written
    requires { Ready q.now × RoomsIn q.now LINKS VALUES }
    ensures { lent_of result tray.new ≡ in_tray tray.old (sheet_of (answered (accepted (query_of q.now)) i.now)) }
{
    let mut run_links = [0u32; LINKS];
    let mut run_values = [0u32; VALUES];
    let mut links = [0u32; LINKS];
    let mut values = [0u32; VALUES];
    let mut rows = [0u16; Listing::NUMBERS];
    let migrated = query_tables(
        q,
        i,
        &mut run_links,
        &mut run_values,
        &mut links,
        &mut values,
        &mut rows,
    )?;
    write_migrated(&migrated, &links, &values, tray)
}

// The query: writes the instance of s4 that Sigma along h makes of what Pi along g makes of what Delta along f makes of the run, an instance of s1. The
// mapping f goes from s2 to s1, g from s2 to s3, h from s3 to s4. Refuses with 1 to 6 at the places of the schemas, with 1, 2, 7 and 8 at those of the
// mappings, with 1, 2, 3, 9, 10 and 11 at that of the run, and with 13, 14, 12, 15 and 16, in this order, at place 0.
pub fn query(
    s1: &[u8],
    s2: &[u8],
    s3: &[u8],
    s4: &[u8],
    f: &[u8],
    g: &[u8],
    h: &[u8],
    run: &[u8],
    tray: &mut [u8],
) -> Written
    ensures { lent_of result tray.new ≡ in_tray tray.old (sheet_of (query_tables s1.now s2.now s3.now s4.now f.now g.now h.now run.now)) }
{
    let q = open(s1, s2, s3, s4, f, g, h)?;
    if have_few_columns(&q) {
        write_query::<{ Instance::FEW_LINKS }, { Instance::FEW_VALUES }>(&q, run, tray)
    } else {
        write_query::<{ Instance::LINKS }, { Instance::VALUES }>(&q, run, tray)
    }
}
