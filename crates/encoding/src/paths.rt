// Path sheets: the start, then the number of edges and each of them, as a mapping sheet has them too.
ghost use Rattle.std.specs.Prelude.{◌≡◌, ◌+◌, ◌*◌, ◌≤◌, length};
ghost use Rattle.bits.specs.Field.{bytes_for};
ghost use Rattle.bits.specs.Put.{put_all};
ghost use Rattle.meaning.specs.Schema.{path};
ghost use Rattle.meaning.specs.Formats.{fields_of, edges_fields, path_sheet};
ghost use Rattle.schema.specs.Decoded.{front_of};
ghost use Rattle.instance.specs.Decoded.{Fields};
ghost use Rattle.encoding.specs.Written.{Written, EdgesFit};

use crate::write_column;
use schema::Path;

// The byte length of the sheet of a path of n edges.
pub fn path_length(n: usize) -> usize
    requires { n ≤ 15 }
    ensures { result ≡ bytes_for (8 + 5 * n) }
{
    (5 * n + 15) / 8
}

// Writes the first n numbers of a small array as fields of one width.
pub fn write_small(tray: &mut [u8], at: usize, width: usize, l: &[u8; Path::EDGES], n: usize)
    requires { Fields tray.old at width n × (n ≤ 16) }
    ensures { tray.new ≡ put_all tray.old at (fields_of width (front_of n l.now)) }
{
    let column = l.map(u32::from);
    write_column(tray, at, width, &column, 0, n);
}

// Writes n edges: their number, and then each.
pub fn write_edges(tray: &mut [u8], at: usize, edges: &[u8; Path::EDGES], n: usize)
    requires { EdgesFit tray.old at n }
    ensures { tray.new ≡ put_all tray.old at (edges_fields (front_of n edges.now)) }
{
    let length = [n as u32];
    write_column(tray, at, 4, &length, 0, 1);
    write_small(tray, at + 4, 5, edges, n);
}

// Writes the sheet of the path of n edges at the front of a tray that has room for it, and gives its byte length.
pub fn write_path(tray: &mut [u8], start: u8, edges: &[u8; Path::EDGES], n: usize) -> usize
    requires { (n ≤ 15) × (bytes_for (8 + 5 * n) ≤ length tray.old) }
    ensures { Written (path_sheet (path start (front_of n edges.now))) tray.old result tray.new }
{
    let bytes = path_length(n);
    bits::clear(tray, bytes);
    let first = [u32::from(start)];
    write_column(tray, 0, 4, &first, 0, 1);
    write_edges(tray, 4, edges, n);
    bytes
}
