// The sheets of schemas, paths, mappings and instances, which the calls open first: each is judged, and refused with its fault's number and its place.
ghost use Rattle.std.specs.Prelude.{◌≡◌, ◌≤◌, true, IfOk};
ghost use Rattle.meaning.specs.Judge.{judge_schema, judge_path, judge_mapping, judge_instance};
ghost use Rattle.meaning.specs.Evenness.{even};
ghost use Rattle.meaning.specs.Calls.{migration, at, ensure};
ghost use Rattle.schema.specs.Decoded.{schema_of, category_of, graph_of, path_of};
ghost use Rattle.schema.specs.Judged.{Sound, SoundPath};
ghost use Rattle.instance.specs.Decoded.{tables_of, RoomFor};
ghost use Rattle.mapping.specs.Decoded.{mapping_of};
ghost use Rattle.mapping.specs.Judged as mapping;
ghost use Rattle.steps.specs.Answers.{outcome_of, verdict_of};
ghost use Rattle.steps.specs.Opened.{IsListed, SoundTables, listed_schema, migration_of, opened_between, have_few_columns, RoomsIn, Ready};

use crate::{Refusal, Verdict, ensure};
use instance::{Instance, has_few_columns, judge_instance};
use lifts::even::is_even;
use mapping::{Mapping, judge_mapping};
use paths::{Paths, path_table};
use schema::faults::Fault;
use schema::{Graph, Path, Schema, judge_path, judge_schema};

// The sheet of a schema, at a place.
#[inline(always)]
pub fn accept_schema(s: &[u8], place: u8) -> Result<Schema, Refusal>
    ensures says { outcome_of schema_of result ≡ at place (judge_schema s.now) }
    ensures sound { IfOk result Sound }
{
    judge_schema(s).map_err(|fault| Refusal::at(fault, place))
}

// A schema with the table of its paths.
#[derive(Clone, Copy)]
pub struct Category {
    pub schema: Schema,
    pub paths: Paths,
}

// A judged schema with the table of its paths.
#[inline(always)]
pub fn listed(schema: Schema) -> Category
    requires { Sound schema }
    ensures says { listed_schema result ≡ schema_of schema }
    ensures listed { IsListed result }
{
    Category {
        schema,
        paths: path_table(schema),
    }
}

// The sheet of a schema at a place, with the table of the schema's paths.
#[inline(always)]
pub fn open_schema(s: &[u8], place: u8) -> Result<Category, Refusal>
    ensures says { outcome_of listed_schema result ≡ at place (judge_schema s.now) }
    ensures listed { IfOk result IsListed }
{
    let schema = accept_schema(s, place)?;
    Ok(listed(schema))
}

// The sheet of a path of a judged schema's graph, at a place.
pub fn open_path(graph: &Graph, p: &[u8], place: u8) -> Result<Path, Refusal>
    requires { graph.now.edges ≤ 32 }
    ensures says { outcome_of path_of result ≡ at place (judge_path (graph_of graph.now) p.now) }
    ensures sound { IfOk result (SoundPath graph.now) }
{
    judge_path(*graph, p).map_err(|fault| Refusal::at(fault, place))
}

// The sheet of a mapping between two schemas, at a place; of the first schema no path is asked for.
#[inline(always)]
pub fn open_mapping(
    source: &Schema,
    target: &Category,
    f: &[u8],
    place: u8,
) -> Result<Mapping, Refusal>
    requires { Sound source.now × IsListed target.now }
    ensures says { outcome_of (mapping_of source.now) result ≡ at place (judge_mapping (category_of source.now) (category_of target.now.schema) f.now) }
    ensures sound { IfOk result (mapping.Sound source.now target.now.schema) }
{
    let paths = &target.paths;
    judge_mapping(
        *source,
        target.schema,
        &paths.first,
        &paths.rank,
        &paths.class,
        f,
    )
    .map_err(|fault| Refusal::at(fault, place))
}

// The sheet of an instance of a judged schema, at a place, with its links and values in working arrays.
pub fn open_instance(
    schema: &Schema,
    i: &[u8],
    place: u8,
    links: &mut [u32],
    values: &mut [u32],
) -> Result<Instance, Refusal>
    requires { Sound schema.now × RoomFor schema.now links.old values.old }
    ensures says { outcome_of (λ r. tables_of schema.now r links.new values.new) result ≡ at place (judge_instance (schema_of schema.now) i.now) }
    ensures sound { IfOk result (λ r. SoundTables schema.now r links.new values.new) }
{
    match judge_instance(*schema, i, links, values) {
        Ok(instance) => Ok(instance),
        Err(fault) => Err(Refusal::at(fault, place)),
    }
}

// What the sheets of two schemas and of a mapping between them say.
#[derive(Clone, Copy)]
pub struct Opened {
    pub source: Schema,
    pub target: Schema,
    pub source_paths: Paths,
    pub target_paths: Paths,
    pub mapping: Mapping,
}

// Two schemas and a mapping between them.
pub fn between(source: &Category, target: &Category, mapping: &Mapping) -> Opened
    ensures { result ≡ opened_between source.now target.now mapping.now }
{
    Opened {
        source: source.schema,
        target: target.schema,
        source_paths: source.paths,
        target_paths: target.paths,
        mapping: *mapping,
    }
}

// The sheets at places 1, 2 and 3: two schemas, and a mapping between them.
#[inline(always)]
pub fn open(s: &[u8], t: &[u8], f: &[u8]) -> Result<Opened, Refusal>
    ensures says { outcome_of migration_of result ≡ migration s.now t.now f.now }
    ensures ready { IfOk result Ready }
{
    let source = accept_schema(s, 1)?;
    let target = accept_schema(t, 2)?;
    let target_paths = path_table(target);
    let mapping = judge_mapping(
        source,
        target,
        &target_paths.first,
        &target_paths.rank,
        &target_paths.class,
        f,
    )
    .map_err(|fault| Refusal::at(fault, 3))?;
    Ok(Opened {
        source,
        target,
        source_paths: path_table(source),
        target_paths,
        mapping,
    })
}

// Whether both schemas have few columns, for which the shorter working arrays do.
pub fn have_few_columns(opened: &Opened) -> bool
    ensures says { result ≡ have_few_columns opened.now }
    ensures room { result ≡ true → RoomsIn opened.now 2048 2048 }
{
    has_few_columns(opened.source) && has_few_columns(opened.target)
}

// Refuses with 12 where the mapping is not even.
pub fn check_even(opened: &Opened) -> Verdict
    requires { Ready opened.now }
    ensures { verdict_of result ≡ ensure (even (category_of opened.now.source) (category_of opened.now.target) (mapping_of opened.now.source opened.now.mapping)) 12 }
{
    ensure(
        is_even(
            opened.source,
            opened.target,
            opened.source_paths,
            opened.target_paths,
            opened.mapping,
        ),
        Fault::Uneven,
    )
}
