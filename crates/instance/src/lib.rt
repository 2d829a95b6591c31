// Instances: the judge of an instance sheet, and what stands in its working arrays.
#![tactic(auto)]

pub mod copy;
pub mod decode;
pub mod follow;
pub mod kinds;
pub mod range;
pub mod tables;

ghost use Rattle.std.specs.Prelude.{◌≡◌, IfOk, OnOk};
ghost use Rattle.meaning.specs.Judge.{test_instance, judge_instance};
ghost use Rattle.schema.specs.Decoded.{schema_of};
ghost use Rattle.schema.specs.Faults.{judged_of};
ghost use Rattle.schema.specs.Judged.{Sound};
ghost use Rattle.instance.specs.Decoded.{has_few_columns, tables_of, Limits, RoomFor};
ghost use Rattle.instance.specs.Tested.{Accepted};

use schema::Schema;
use schema::faults::Fault;

// What an instance sheet says, but for links and values, which stand in lent arrays: the link of row r along edge e at 512 * e + r,
// the value of attribute a at 512 * a + r.
#[derive(Clone, Copy)]
pub struct Instance {
    pub counts: [u32; Schema::NODES],
}

impl Instance {
    // Rows of all tables together.
    pub const ROWS: usize = 512;

    // A column of links for each edge that a schema can have.
    pub const LINKS: usize = Schema::EDGES * Instance::ROWS;

    // A column of values for each attribute that a schema can have.
    pub const VALUES: usize = Schema::ATTRIBUTES * Instance::ROWS;

    // A schema with at most so many edges and at most so many attributes has few columns: shorter working arrays do for its instances.
    pub const FEW_COLUMNS: usize = 4;

    pub const FEW_LINKS: usize = Instance::FEW_COLUMNS * Instance::ROWS;

    pub const FEW_VALUES: usize = Instance::FEW_COLUMNS * Instance::ROWS;
}

// Whether the shorter working arrays do for the instances of a schema.
pub fn has_few_columns(schema: Schema) -> bool
    ensures { result ≡ has_few_columns schema }
{
    schema.graph.edges <= Instance::FEW_COLUMNS && schema.attributes <= Instance::FEW_COLUMNS
}

// The tests from 9 up, of a sheet that was read: the first that it fails, if there is one.
fn test(schema: Schema, instance: Instance, links: &[u32], values: &[u32]) -> Result<(), Fault>
    requires { Sound schema × Limits schema instance × RoomFor schema links.now values.now }
    ensures says { judged_of (λ _. tables_of schema instance links.now values.now) result ≡ test_instance (schema_of schema) (tables_of schema instance links.now values.now) }
    ensures accepted { OnOk result (Accepted schema instance links.now values.now) }
{
    if !range::links_in_range(schema, instance, links) {
        return Err(Fault::Dangling);
    }
    if !range::values_in_range(schema, instance, values, kinds::kinds()) {
        return Err(Fault::OffScale);
    }
    if !follow::obeys_equations(schema, instance, links) {
        return Err(Fault::BentRow);
    }
    Ok(())
}

// An instance sheet of a schema judged: what it says, or the first reason to send it back.
pub fn judge_instance(
    schema: Schema,
    s: &[u8],
    links: &mut [u32],
    values: &mut [u32],
) -> Result<Instance, Fault>
    requires { Sound schema × RoomFor schema links.old values.old }
    ensures says { judged_of (λ i. tables_of schema i links.new values.new) result ≡ judge_instance (schema_of schema) s.now }
    ensures sound { IfOk result (λ i. Limits schema i × Accepted schema i links.new values.new) }
{
    let instance = decode::decode_instance(schema, s, links, values)?;
    test(schema, instance, links, values)?;
    Ok(instance)
}
