// The sheets of a query: four schemas, and the mappings F, G and H between them.
ghost use Rattle.std.specs.Prelude.{◌≡◌, true, IfOk};
ghost use Rattle.meaning.specs.Query as meaning;
ghost use Rattle.meaning.specs.Query.{ensure_mappings};
ghost use Rattle.steps.specs.Answers.{outcome_of, verdict_of};
ghost use Rattle.query.specs.Opened.{query_of, have_few_columns, Ready, RoomsIn, Testable};

use instance::has_few_columns;
use mapping::Mapping;
use pi::components::Components;
use schema::Schema;
use steps::open::{Category, between, check_even, open_mapping, open_schema};
use steps::tests::check_joinable;
use steps::{Refusal, Verdict};

// What the sheets of four schemas and of the mappings between them say.
#[derive(Clone, Copy)]
pub struct Query {
    pub first: Schema,
    pub second: Category,
    pub third: Category,
    pub fourth: Category,
    pub f: Mapping,
    pub g: Mapping,
    pub h: Mapping,
}

// The sheets at places 1 to 7: the schemas, then F, G and H.
pub(crate) fn open(
    s1: &[u8],
    s2: &[u8],
    s3: &[u8],
    s4: &[u8],
    f: &[u8],
    g: &[u8],
    h: &[u8],
) -> Result<Query, Refusal>
    ensures says { outcome_of query_of result ≡ meaning.judge_query s1.now s2.now s3.now s4.now f.now g.now h.now }
    ensures ready { IfOk result Ready }
{
    let first = open_schema(s1, 1)?;
    let second = open_schema(s2, 2)?;
    let third = open_schema(s3, 3)?;
    let fourth = open_schema(s4, 4)?;
    let along_f = open_mapping(&second.schema, &first, f, 5)?;
    let along_g = open_mapping(&second.schema, &third, g, 6)?;
    let along_h = open_mapping(&third.schema, &fourth, h, 7)?;
    Ok(Query {
        first: first.schema,
        second,
        third,
        fourth,
        f: along_f,
        g: along_g,
        h: along_h,
    })
}

// Whether all four schemas have few columns, for which the shorter working arrays do.
pub(crate) fn have_few_columns(q: &Query) -> bool
    ensures says { result ≡ have_few_columns q.now }
    ensures room { result ≡ true → RoomsIn q.now 2048 2048 }
{
    has_few_columns(q.first)
        && has_few_columns(q.second.schema)
        && has_few_columns(q.third.schema)
        && has_few_columns(q.fourth.schema)
}

// Refuses with 13 or 14 where there is no Pi along G, with 12 where H is not even.
pub(crate) fn check_mappings(q: &Query, k: &Components) -> Verdict
    requires { Testable q.now k.now }
    ensures { verdict_of result ≡ ensure_mappings (query_of q.now) }
{
    check_joinable(&between(&q.second, &q.third, &q.g), k)?;
    check_even(&between(&q.third, &q.fourth, &q.h))
}
