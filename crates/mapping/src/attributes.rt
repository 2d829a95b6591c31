// What Pi takes of a mapping: refusal 13, whether each attribute of T is the image of exactly one of S, and which.
ghost use Rattle.std.specs.Prelude.{◌≡◌, ◌≤◌, length, eqb};
ghost use Rattle.meaning.specs.Lists.{filter, position};
ghost use Rattle.meaning.specs.Pi.{is_bijective};
ghost use Rattle.schema.specs.Decoded.{schema_of, front_of};
ghost use Rattle.mapping.specs.Decoded.{mapping_of};

use crate::Mapping;
use schema::Schema;

// How many of the first n attributes have the image b.
fn count_to(image: &[u8; Mapping::ATTRIBUTES], n: usize, b: u8) -> usize
    requires { n ≤ 16 }
    ensures { result ≡ length (filter (eqb b) (front_of n image.now)) }
{
    image[..n].iter().filter(|x| **x == b).count()
}

// Refusal 13 (unpaired).
pub fn is_bijective(s: Schema, t: Schema, f: Mapping) -> bool
    requires { (s.attributes ≤ 16) × (t.attributes ≤ 16) }
    ensures { result ≡ is_bijective (schema_of t) (mapping_of s f) }
{
    let image = f.attribute;
    let n = s.attributes;
    let count = t.attributes as u8;
    (0..count).all(|b| count_to(&image, n, b) == 1)
}

// The first of n attributes whose image is b, or n.
pub fn attribute_to(image: &[u8; Mapping::ATTRIBUTES], n: usize, b: u8) -> usize
    requires { n ≤ 16 }
    ensures { result ≡ position (eqb b) (front_of n image.now) }
{
    image[..n].iter().position(|x| *x == b).unwrap_or(n)
}
