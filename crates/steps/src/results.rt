// Results: the size of a migrated instance (refusal 15), and how its sheet is written into a lent tray (refusal 16).
ghost use Rattle.std.specs.Prelude.{◌≡◌, leb, length};
ghost use Rattle.meaning.specs.Lists.{sum_of};
ghost use Rattle.meaning.specs.Formats.{max_rows, instance_sheet};
ghost use Rattle.meaning.specs.Calls.{ensure, written};
ghost use Rattle.schema.specs.Judged.{Sound};
ghost use Rattle.schema.specs.Decoded.{front_of};
ghost use Rattle.instance.specs.Decoded.{tables_of};
ghost use Rattle.steps.specs.Answers.{lent_of, verdict_of};
ghost use Rattle.steps.specs.Migrated.{Writable};

use crate::{Refusal, Verdict, Written, ensure};
use encoding::{sheet_length, write_instance};
use instance::Instance;
use instance::decode::total;
use schema::Schema;
use schema::faults::Fault;

// A migrated instance with its schema. Its links and values stand in working arrays.
#[derive(Clone, Copy)]
pub struct Migrated {
    pub schema: Schema,
    pub tables: Instance,
}

// Refuses with 15 where an instance has too many rows.
pub fn check_rows(schema: &Schema, tables: &Instance) -> Verdict
    requires { Sound schema.now × (length tables.now.counts ≡ 16) }
    ensures { verdict_of result ≡ ensure (leb (sum_of (front_of schema.now.graph.nodes tables.now.counts)) max_rows) 15 }
{
    let rows = total(&tables.counts, schema.graph.nodes);
    ensure(rows <= Instance::ROWS, Fault::Overfull)
}

// Writes the sheet of a migrated instance into a tray. Refuses with 16, and then leaves the tray as it is.
pub fn write_migrated(m: &Migrated, links: &[u32], values: &[u32], tray: &mut [u8]) -> Written
    requires { Writable m.now links.now values.now }
    ensures { lent_of result tray.new ≡ written tray.old (instance_sheet (tables_of m.now.schema m.now.tables links.now values.now)) }
{
    if sheet_length(m.schema, m.tables) > tray.len() {
        return Err(Refusal::of_all(Fault::SmallTray));
    }
    Ok(write_instance(tray, m.schema, m.tables, links, values))
}
