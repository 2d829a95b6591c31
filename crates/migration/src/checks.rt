// The checks of schemas, mappings, instances and matchings.
ghost use Rattle.std.specs.Prelude.{◌≡◌};
ghost use Rattle.meaning.specs.Calls.{migration, check_schema, check_mapping, check_instance};
ghost use Rattle.schema.specs.Decoded.{schema_of};
ghost use Rattle.schema.specs.Judged.{Sound};
ghost use Rattle.migration.specs.Answers.{checked_images, checked_sheet, PushedChecked, RawChecked};
ghost use Rattle.migration.specs.Turnable.{checked_side};
ghost use Rattle.steps.specs.Answers.{verdict_of};
ghost use Rattle.steps.specs.Opened.{RoomIn};

use crate::matchings::{Side, match_side};
use instance::{Instance, has_few_columns};
use mapping::judge_mapping;
use paths::path_table;
use schema::Schema;
use steps::open::{accept_schema, open, open_instance};
use steps::{Refusal, Verdict};

// Whether s is a schema. Refuses with 1 to 6.
pub fn check_schema(s: &[u8]) -> Verdict
    ensures { verdict_of result ≡ check_schema s.now }
{
    accept_schema(s, 1)?;
    Ok(())
}

// Whether f, at place 3, is a mapping between two judged schemas.
fn check_images(source: Schema, target: Schema, f: &[u8]) -> Verdict
    requires { Sound source × Sound target }
    ensures { verdict_of result ≡ checked_images (schema_of source) (schema_of target) f.now }
{
    let paths = path_table(target);
    judge_mapping(source, target, &paths.first, &paths.rank, &paths.class, f).map_err(
        |fault| Refusal::at(fault, 3),
    )?;
    Ok(())
}

// Whether f is a mapping from the schema s to the schema t. Refuses with 1 to 6 at the places of s and t, and with 1, 2, 7 and 8 at that of f.
pub fn check_mapping(s: &[u8], t: &[u8], f: &[u8]) -> Verdict
    ensures { verdict_of result ≡ check_mapping s.now t.now f.now }
{
    let source = accept_schema(s, 1)?;
    let target = accept_schema(t, 2)?;
    check_images(source, target, f)
}

// Whether i, at place 2, is an instance of a schema, with working arrays of these lengths.
fn check_sheet<const LINKS: usize, const VALUES: usize>(schema: &Schema, i: &[u8]) -> Verdict
    requires { Sound schema.now × RoomIn schema.now LINKS VALUES }
    ensures { verdict_of result ≡ checked_sheet (schema_of schema.now) i.now }
{
    let mut links = [0u32; LINKS];
    let mut values = [0u32; VALUES];
    open_instance(schema, i, 2, &mut links, &mut values)?;
    Ok(())
}

// Whether i is an instance of the schema s. Refuses with 1 to 6 at the place of s, and with 1, 2, 3, 9, 10 and 11 at that of i.
pub fn check_instance(s: &[u8], i: &[u8]) -> Verdict
    ensures { verdict_of result ≡ check_instance s.now i.now }
{
    let schema = accept_schema(s, 1)?;
    if has_few_columns(schema) {
        check_sheet::<{ Instance::FEW_LINKS }, { Instance::FEW_VALUES }>(&schema, i)
    } else {
        check_sheet::<{ Instance::LINKS }, { Instance::VALUES }>(&schema, i)
    }
}

// Whether list is a matching of a side.
fn check_side(
    side: Side,
    s: &[u8],
    t: &[u8],
    f: &[u8],
    run: &[u8],
    book: &[u8],
    list: &[u8],
) -> Verdict
    ensures { verdict_of result ≡ checked_side side (migration s.now t.now f.now) run.now book.now list.now }
{
    let opened = open(s, t, f)?;
    let mut partners = [0u32; Instance::ROWS];
    match_side(side, &opened, run, book, list, &mut partners)?;
    Ok(())
}

// Whether list is a matching of the pushed side: from Sigma of the instance run of s along the mapping f from s to t to the instance book of t.
// Refuses as check_raw does.
pub fn check_pushed(s: &[u8], t: &[u8], f: &[u8], run: &[u8], book: &[u8], list: &[u8]) -> Verdict
    ensures { PushedChecked s.now t.now f.now run.now book.now list.now result }
{
    check_side(Side::Pushed, s, t, f, run, book, list)
}

// Whether list is a matching of the raw side: from the instance run of s to Delta of the instance book of t along the mapping f from s to t.
// Refuses with 1 to 6 at the places of s and t, with 1, 2, 7 and 8 at that of f, with 1, 2, 3, 9, 10 and 11 at those of run and book, with 12 and
// 15 at place 0, and with 1, 2 and 17 at that of list.
pub fn check_raw(s: &[u8], t: &[u8], f: &[u8], run: &[u8], book: &[u8], list: &[u8]) -> Verdict
    ensures { RawChecked s.now t.now f.now run.now book.now list.now result }
{
    check_side(Side::Raw, s, t, f, run, book, list)
}
