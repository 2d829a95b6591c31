// What a mapping sheet holds, read into a struct: refusals 1 and 2.
ghost use Rattle.std.specs.Prelude.{◌≡◌, ◌*◌, ◌≤◌, IfOk};
ghost use Rattle.meaning.specs.Sheet.{on_sheet};
ghost use Rattle.meaning.specs.Formats.{read_mapping};
ghost use Rattle.schema.specs.Decoded.{Near, Limits, schema_of};
ghost use Rattle.schema.specs.Faults.{judged_of};
ghost use Rattle.mapping.specs.Decoded.{mapping_of, ImageFound, ImagesFound, Short};

use crate::{Image, Mapping};
use bits::reader::{ends_after, lacks_at};
use schema::Schema;
use schema::decode::{column, small};
use schema::faults::Fault;

// An edge's image, and where what follows it begins.
#[derive(Clone, Copy)]
struct ImageRead {
    next: usize,
    image: Image,
}

// The image from a position on, if the bits do not end before it does.
fn read_image(sheet: &[u8], at: usize) -> Option<ImageRead>
    requires { Near sheet.now at 79 }
    ensures { ImageFound sheet.now at result }
{
    if lacks_at(sheet, at, 4) {
        return None;
    }
    let length = small(sheet, at, 4);
    let n = usize::from(length);
    if lacks_at(sheet, at + 4, 5 * n) {
        return None;
    }
    let edges = column(sheet, at + 4, 5, 5, n);
    Some(ImageRead {
        next: at + 4 + 5 * n,
        image: Image { length, edges },
    })
}

// The images of edges, and where what follows them begins.
#[derive(Clone, Copy)]
struct ImagesRead {
    next: usize,
    edge: [Image; Mapping::EDGES],
}

// The images of n edges, one after the other, if the bits do not end before they do.
fn read_images(sheet: &[u8], at: usize, n: usize) -> Option<ImagesRead>
    requires { Near sheet.now at (79 * n) × (n ≤ 32) }
    ensures { ImagesFound sheet.now at n result }
{
    let mut edge = [Image::empty(); Mapping::EDGES];
    let mut next = at;
    for i in 0..n {
        let read = read_image(sheet, next)?;
        edge[i] = read.image;
        next = read.next;
    }
    Some(ImagesRead { next, edge })
}

// What a mapping sheet says, before any test of its sense.
pub fn decode_mapping(s: Schema, sheet: &[u8]) -> Result<Mapping, Fault>
    requires { Limits s }
    ensures says { judged_of (mapping_of s) result ≡ on_sheet (read_mapping (schema_of s)) sheet.now }
    ensures short { IfOk result (λ f. Short s.graph.edges f.edge) }
{
    let nodes = s.graph.nodes;
    let attributes = s.attributes;
    let first = 4 * nodes;
    if lacks_at(sheet, 0, first) {
        return Err(Fault::Cut);
    }
    let images = read_images(sheet, first, s.graph.edges).ok_or(Fault::Cut)?;
    let middle = images.next;
    let last = 4 * attributes;
    if lacks_at(sheet, middle, last) {
        return Err(Fault::Cut);
    }
    if !ends_after(sheet, middle, last) {
        return Err(Fault::Tail);
    }
    let node = column(sheet, 0, 4, 4, nodes);
    let attribute = column(sheet, middle, 4, 4, attributes);
    let edge = images.edge;
    Ok(Mapping {
        node,
        edge,
        attribute,
    })
}
