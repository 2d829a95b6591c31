// The call that composes two mappings, of lent sheets into a lent tray.
ghost use Rattle.std.specs.Prelude.{◌≡◌, IfOk};
ghost use Rattle.meaning.specs.Judge.{judge_mapping};
ghost use Rattle.meaning.specs.Calls.{at, written, in_tray};
ghost use Rattle.meaning.specs.Composition as meaning;
ghost use Rattle.schema.specs.Decoded.{category_of};
ghost use Rattle.schema.specs.Judged.{Sound};
ghost use Rattle.mapping.specs.Decoded.{mapping_of};
ghost use Rattle.mapping.specs.Judged as mapping;
ghost use Rattle.steps.specs.Answers.{outcome_of, lent_of};
ghost use Rattle.compose.specs.Opened.{composable_of, IsSound};

use crate::images::composite;
use crate::writing::{mapping_length, write_mapping};
use mapping::{Mapping, judge_mapping};
use paths::path_table;
use schema::Schema;
use schema::faults::Fault;
use steps::open::accept_schema;
use steps::{Refusal, Written};

// What the sheets of three schemas and of the mappings between them say.
#[derive(Clone, Copy)]
struct Composable {
    first: Schema,
    second: Schema,
    third: Schema,
    f: Mapping,
    g: Mapping,
}

// The sheet of a mapping between two judged schemas, at a place. The table of paths is made where it is read, so that none is handed on.
fn open_images(source: &Schema, target: &Schema, f: &[u8], place: u8) -> Result<Mapping, Refusal>
    requires { Sound source.now × Sound target.now }
    ensures says { outcome_of (mapping_of source.now) result ≡ at place (judge_mapping (category_of source.now) (category_of target.now) f.now) }
    ensures sound { IfOk result (mapping.Sound source.now target.now) }
{
    let paths = path_table(*target);
    judge_mapping(*source, *target, &paths.first, &paths.rank, &paths.class, f).map_err(
        |fault| Refusal::at(fault, place),
    )
}

// The sheets at places 1 to 5: the schemas, then F and G.
fn open(s: &[u8], t: &[u8], u: &[u8], f: &[u8], g: &[u8]) -> Result<Composable, Refusal>
    ensures says { outcome_of composable_of result ≡ meaning.judge_composable s.now t.now u.now f.now g.now }
    ensures sound { IfOk result IsSound }
{
    let first = accept_schema(s, 1)?;
    let second = accept_schema(t, 2)?;
    let third = accept_schema(u, 3)?;
    let along_f = open_images(&first, &second, f, 4)?;
    let along_g = open_images(&second, &third, g, 5)?;
    Ok(Composable {
        first,
        second,
        third,
        f: along_f,
        g: along_g,
    })
}

// Writes the sheet of the composed mapping into a tray. Refuses with 16, and then leaves the tray as it is.
fn write_composite(x: &Composable, tray: &mut [u8]) -> Written
    requires { IsSound x.now }
    ensures { lent_of result tray.new ≡ written tray.old (meaning.composed_sheet (composable_of x.now)) }
{
    let h = composite(x.first, x.second, x.third, x.f, x.g);
    if mapping_length(x.first, h) > tray.len() {
        return Err(Refusal::of_all(Fault::SmallTray));
    }
    Ok(write_mapping(tray, x.first, h))
}

// Composes two mappings: writes the mapping sheet from s to u. The mapping f goes from s to t, g from t to u. Each node and attribute goes to its image's
// image, each edge to its image path's images, joined. Refuses with 1 to 6 at the places of the schemas, with 1, 2, 7 and 8 at those of the mappings, and
// with 16 at place 0.
pub fn compose(s: &[u8], t: &[u8], u: &[u8], f: &[u8], g: &[u8], tray: &mut [u8]) -> Written
    ensures { lent_of result tray.new ≡ in_tray tray.old (meaning.compose s.now t.now u.now f.now g.now) }
{
    match &open(s, t, u, f, g) {
        Ok(x) => write_composite(x, tray),
        Err(refusal) => Err(*refusal),
    }
}
