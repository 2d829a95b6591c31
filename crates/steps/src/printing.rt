// What a program prints of a result.
ghost use Rattle.std.specs.Prelude.{◌≤◌, length, IfOk};
ghost use Rattle.meaning.specs.Program as program;
ghost use Rattle.text.specs.Written.{max_text_bytes, Printable, Written};
ghost use Rattle.steps.specs.Answers.{outcome_of};
ghost use Rattle.steps.specs.Migrated.{migrated_of};

use crate::Refusal;
use crate::results::Migrated;
use text::{Text, write_refusal, write_tables};

// Writes the text of a migrated instance, or of the refusal.
pub fn print(m: Result<Migrated, Refusal>, links: &[u32], values: &[u32], out: &mut [u8]) -> Text
    requires { IfOk m (λ x. Printable x.schema x.tables links.now values.now) × (max_text_bytes ≤ length out.old) }
    ensures { Written (program.shown (outcome_of (λ x. migrated_of x links.now values.now) m)) out.old result out.new }
{
    match m {
        Ok(m) => write_tables(out, m.schema, m.tables, links, values),
        Err(refusal) => write_refusal(out, refusal.number, refusal.place),
    }
}
