// Mappings: the judge of a mapping sheet, images of paths, and the edges of a path.
#![tactic(auto)]

pub mod attributes;
pub mod decode;
pub mod edges;
pub mod fits;
pub mod images;

ghost use Rattle.std.specs.Prelude.{◌≡◌, IfOk};
ghost use Rattle.meaning.specs.Judge.{judge_mapping};
ghost use Rattle.schema.specs.Decoded.{schema_of, category_of};
ghost use Rattle.schema.specs.Faults.{judged_of};
ghost use Rattle.schema.specs.Judged as schemas;
ghost use Rattle.mapping.specs.Decoded.{empty_image, mapping_of};
ghost use Rattle.mapping.specs.Judged.{Numbers, Sound};

use schema::faults::Fault;
use schema::{Path, Schema};

// The image of an edge: edges of T, from the image of the edge's source on. Their number is a field of 4 bits.
// Kept: a length beside its array, as a path has it.
#[derive(Clone, Copy)]
pub struct Image {
    pub length: u8,
    pub edges: [u8; Path::EDGES],
}

impl Image {
    // No edge.
    pub fn empty() -> Image
        ensures { result ≡ empty_image }
    {
        Image {
            length: 0,
            edges: [0u8; Path::EDGES],
        }
    }
}

// What a mapping sheet says.
#[derive(Clone, Copy)]
pub struct Mapping {
    pub node: [u8; Mapping::NODES],
    pub edge: [Image; Mapping::EDGES],
    pub attribute: [u8; Mapping::ATTRIBUTES],
}

impl Mapping {
    pub const NODES: usize = Schema::NODES;

    pub const EDGES: usize = Schema::EDGES;

    pub const ATTRIBUTES: usize = Schema::ATTRIBUTES;

    pub const PATHS: usize = Schema::PATHS;

    // A place for each edge of T and each node of S.
    pub const LIFTS: usize = Schema::EDGES * Schema::NODES;
}

// A mapping sheet judged, between two schemas: what it says, or the first fault that it has. Of the table of T's paths, first and rank number the images of the
// equations' sides, and class has their classes.
pub fn judge_mapping(
    s: Schema,
    t: Schema,
    first: &[u16; Schema::PATHS + 1],
    rank: &[u8; Schema::EDGES],
    class: &[u8; Schema::PATHS],
    sheet: &[u8],
) -> Result<Mapping, Fault>
    requires { schemas.Sound s × schemas.Sound t × Numbers (schema_of t) first.now rank.now class.now }
    ensures says { judged_of (mapping_of s) result ≡ judge_mapping (category_of s) (category_of t) sheet.now }
    ensures sound { IfOk result (Sound s t) }
{
    let f = decode::decode_mapping(s, sheet)?;
    if !fits::images_fit(s, t, f) {
        return Err(Fault::Misfit);
    }
    if !images::sides_agree(s, t, first, rank, class, f) {
        return Err(Fault::BrokenRule);
    }
    Ok(f)
}
