// Mapping sheets, written: each node's image, each edge's image with its length before it, each attribute's image.
ghost use Rattle.std.specs.Prelude.{◌≡◌, ◌≤◌, length};
ghost use Rattle.meaning.specs.Formats.{mapping_sheet};
ghost use Rattle.schema.specs.Judged.{Sound};
ghost use Rattle.mapping.specs.Decoded.{mapping_of, Short};
ghost use Rattle.encoding.specs.Written.{Written};
ghost use Rattle.compose.specs.Sheets.{images_bits, mapping_bytes, ImagesFit, ImagesWritten};

use encoding::paths::{write_edges, write_small};
use mapping::{Image, Mapping};
use schema::Schema;

// The bits of images.
fn images_bits(images: &[Image]) -> usize
    requires { length images.now ≤ 32 }
    ensures { result ≡ images_bits (length images.now) images.now }
{
    images
        .iter()
        .map(|image| 4 + 5 * usize::from(image.length))
        .sum()
}

// The byte length of a mapping's sheet.
pub(crate) fn mapping_length(s: Schema, f: Mapping) -> usize
    requires { Sound s × Short s.graph.edges f.edge }
    ensures { result ≡ mapping_bytes s f }
{
    let edge = f.edge;
    (4 * s.graph.nodes + images_bits(&edge[..s.graph.edges]) + 4 * s.attributes + 7) / 8
}

// Writes images, one after the other, and gives the position behind them.
fn write_images(tray: &mut [u8], at: usize, images: &[Image]) -> usize
    requires { ImagesFit tray.old at images.now (length images.now) }
    ensures { ImagesWritten tray.old at images.now (length images.now) result tray.new }
{
    let mut p = at;
    for image in images {
        let n = usize::from(image.length);
        write_edges(tray, p, &image.edges, n);
        p += 4 + 5 * n;
    }
    p
}

// Writes a mapping's sheet at the front of a tray that has room for it, and gives its byte length.
pub(crate) fn write_mapping(tray: &mut [u8], s: Schema, f: Mapping) -> usize
    requires { Sound s × Short s.graph.edges f.edge × (mapping_bytes s f ≤ length tray.old) }
    ensures { Written (mapping_sheet (mapping_of s f)) tray.old result tray.new }
{
    let bytes = mapping_length(s, f);
    bits::clear(tray, bytes);
    let nodes = s.graph.nodes;
    let node = f.node;
    let edge = f.edge;
    let attribute = f.attribute;
    write_small(tray, 0, 4, &node, nodes);
    let next = write_images(tray, 4 * nodes, &edge[..s.graph.edges]);
    write_small(tray, next, 4, &attribute, s.attributes);
    bytes
}
