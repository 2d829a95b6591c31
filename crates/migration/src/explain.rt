// Which steps make two paths equal: the chain from one to the other, written into a lent tray.
ghost use Rattle.std.specs.Prelude.{◌≡◌};
ghost use Rattle.meaning.specs.PathChain.{first_chain};
ghost use Rattle.meaning.specs.Calls.{accepted, explanation, path_chain, in_tray};
ghost use Rattle.schema.specs.Decoded.{path_of, schema_of};
ghost use Rattle.schema.specs.Judged.{Sound, SoundPath};
ghost use Rattle.migration.specs.Answers.{explained};

use crate::Explained;
use chain::first_chain;
use encoding::chains::{chain_length, write_chain};
use schema::faults::Fault;
use schema::{Path, Schema};
use steps::Refusal;
use steps::open::{accept_schema, open_path};

// The chain between two paths of a judged schema, into a tray.
fn explain(t: Schema, a: Path, b: Path, tray: &mut [u8]) -> Explained
    requires { Sound t × SoundPath t.graph a × SoundPath t.graph b }
    ensures { (result, tray.new) ≡ explained (in_tray tray.old (accepted (explanation (first_chain (schema_of t) (path_of a) (path_of b))))) }
{
    let mut steps = [0u32; chain::STEPS];
    let n = first_chain(t, a, b, &mut steps);
    if n >= chain::NONE {
        return Ok(None);
    }
    if chain_length(n) > tray.len() {
        return Err(Refusal::of_all(Fault::SmallTray));
    }
    Ok(Some(write_chain(tray, &steps, n)))
}

// The first of the shortest chains of steps from the path p to the path q of the schema s, as a sheet in a tray; where the paths are unequal the tray is
// left as it is. Refuses with 1 to 6 at the place of s, with 1, 2 and 4 at those of p and q, and with 16 at place 0.
pub fn path_chain(s: &[u8], p: &[u8], q: &[u8], tray: &mut [u8]) -> Explained
    ensures { (result, tray.new) ≡ explained (in_tray tray.old (path_chain s.now p.now q.now)) }
{
    let schema = accept_schema(s, 1)?;
    let a = open_path(&schema.graph, p, 2)?;
    let b = open_path(&schema.graph, q, 3)?;
    explain(schema, a, b, tray)
}
