// The input and output of the programs push and dig: where sheets lie in what they read, and the text that they print.
#![tactic(auto)]

use instance::Instance;
use rows::Columns;
use schema::Schema;

mod decimal;
pub mod framing;
mod lines;
mod rows;

ghost use Rattle.std.specs.Prelude.{◌≤◌, length};
ghost use Rattle.meaning.specs.Calls.{refused};
ghost use Rattle.meaning.specs.Program.{printed, shown};
ghost use Rattle.text.specs.Written.{max_text_bytes, Written, Printable, migrated_of};

// A text at the front of a buffer.
#[derive(Clone, Copy)]
pub struct Text {
    pub length: usize,
}

impl Text {
    // No text is longer: a first line of 19 bytes, and a line of 311 for each of 512 rows.
    pub const BYTES: usize = 159251;
}

// Writes the text of a refusal.
pub fn write_refusal(out: &mut [u8], number: u8, place: u8) -> Text
    requires { max_text_bytes ≤ length out.old }
    ensures { Written (shown (refused number place)) out.old result out.new }
{
    let a = lines::put_word(out, 0, b"refused");
    let b = lines::put_part(out, a, u32::from(number));
    let c = lines::put_part(out, b, u32::from(place));
    out[c] = b'\n';
    Text { length: c + 1 }
}

// Writes the text of an accepted result, whose links and values stand in arrays.
pub fn write_tables(
    out: &mut [u8],
    schema: Schema,
    tables: Instance,
    links: &[u32],
    values: &[u32],
) -> Text
    requires { Printable schema tables links.now values.now × (max_text_bytes ≤ length out.old) }
    ensures { Written (printed (migrated_of schema tables links.now values.now)) out.old result out.new }
{
    let graph = schema.graph;
    let nodes = graph.nodes;
    let edges = graph.edges;
    let attributes = schema.attributes;
    let source = graph.source;
    let node = schema.node;
    let counts = tables.counts;
    let rows = instance::decode::total(&counts, nodes);
    let at = lines::put_header(out, nodes as u32, rows as u32);
    let length = rows::put_tables(
        out,
        at,
        &counts[..nodes],
        Columns {
            home: &source[..edges],
            cells: links,
        },
        Columns {
            home: &node[..attributes],
            cells: values,
        },
    );
    Text { length }
}
