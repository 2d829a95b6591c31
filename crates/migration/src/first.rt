// The path question: the first of the paths that are equal to a path, written into a lent tray.
ghost use Rattle.std.specs.Prelude.{◌≡◌};
ghost use Rattle.meaning.specs.PathEquality.{first_path};
ghost use Rattle.meaning.specs.Formats.{path_sheet};
ghost use Rattle.meaning.specs.Calls.{accepted, path_question, in_tray};
ghost use Rattle.schema.specs.Decoded.{path_of, schema_of};
ghost use Rattle.schema.specs.Judged.{Sound, SoundPath};
ghost use Rattle.steps.specs.Answers.{lent_of};

use encoding::paths::{path_length, write_path};
use mapping::edges::first_edges;
use schema::faults::Fault;
use schema::{Path, Schema};
use steps::open::{accept_schema, open_path};
use steps::{Refusal, Written};

// The first path of the class of a path of a judged schema, into a tray.
fn write_first(t: Schema, a: Path, tray: &mut [u8]) -> Written
    requires { Sound t × SoundPath t.graph a }
    ensures { lent_of result tray.new ≡ in_tray tray.old (accepted (path_sheet (first_path (schema_of t) (path_of a)))) }
{
    let first = first_edges(t, a);
    let n = usize::from(first.length);
    if path_length(n) > tray.len() {
        return Err(Refusal::of_all(Fault::SmallTray));
    }
    Ok(write_path(tray, a.start, &first.edges, n))
}

// The first path of the schema s, by length, then start node, then edge numbers from the left, that is equal to the path p, as a sheet in a tray. Two
// paths are equal where their sheets are the same. Refuses with 1 to 6 at the place of s, with 1, 2 and 4 at that of p, and with 16 at place 0.
pub fn first_path(s: &[u8], p: &[u8], tray: &mut [u8]) -> Written
    ensures { lent_of result tray.new ≡ in_tray tray.old (path_question s.now p.now) }
{
    let schema = accept_schema(s, 1)?;
    let path = open_path(&schema.graph, p, 2)?;
    write_first(schema, path, tray)
}
