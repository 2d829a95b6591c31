// The lines of rows: table, row, link targets, values.
ghost use Rattle.std.specs.Prelude.{ℕ, ◌*◌, ◌≤◌, ◌<◌, length, get_or};
ghost use Rattle.meaning.specs.Formats.{max_nodes, max_rows};
ghost use Rattle.text.specs.Appended.{Room, Appended};
ghost use Rattle.text.specs.Rows.{cells_text, row_text, table_text, tables_text, ColumnsFit};

use crate::decimal::put_decimal;
use crate::lines::put_part;
use instance::Instance;

// Columns of links or of values: the table of each, and their cells, column after column.
#[derive(Clone, Copy)]
pub struct Columns<'a> {
    pub home: &'a [u8],
    pub cells: &'a [u32],
}

impl<'a> Columns<'a> {
    // Writes a row's cells of the columns of its table.
    fn put_cells(self, out: &mut [u8], at: usize, table: usize, row: usize) -> usize
        requires { Room out.old at (cells_text self.home.now self.cells.now table row) × (max_rows * length self.home.now ≤ length self.cells.now) × (row < max_rows) }
        ensures { Appended out.old at (cells_text self.entry.home.now self.entry.cells.now table row) result out.new }
    {
        let mut p = at;
        for (k, home) in self.home.iter().enumerate() {
            if usize::from(*home) == table {
                p = put_part(out, p, self.cells[Instance::ROWS * k + row]);
            }
        }
        p
    }
}

// Writes the line of a row.
fn put_row(
    out: &mut [u8],
    at: usize,
    table: usize,
    row: usize,
    links: Columns,
    values: Columns,
) -> usize
    requires { Room out.old at (row_text links.home.now links.cells.now values.home.now values.cells.now table row) × ColumnsFit links.home.now links.cells.now values.home.now values.cells.now × (table < max_nodes) × (row < max_rows) }
    ensures { Appended out.old at (row_text links.entry.home.now links.entry.cells.now values.entry.home.now values.entry.cells.now table row) result out.new }
{
    let a = put_decimal(out, at, table as u32);
    let b = put_part(out, a, row as u32);
    let c = links.put_cells(out, b, table, row);
    let d = values.put_cells(out, c, table, row);
    out[d] = b'\n';
    d + 1
}

// Writes the lines of a table.
fn put_table(
    out: &mut [u8],
    at: usize,
    table: usize,
    rows: usize,
    links: Columns,
    values: Columns,
) -> usize
    requires { Room out.old at (table_text links.home.now links.cells.now values.home.now values.cells.now table rows) × ColumnsFit links.home.now links.cells.now values.home.now values.cells.now × (table < max_nodes) × (rows ≤ max_rows) }
    ensures { Appended out.old at (table_text links.entry.home.now links.entry.cells.now values.entry.home.now values.entry.cells.now table rows) result out.new }
{
    let mut p = at;
    for row in 0..rows {
        p = put_row(out, p, table, row, links, values);
    }
    p
}

// Writes the lines of all tables.
pub fn put_tables(
    out: &mut [u8],
    at: usize,
    counts: &[u32],
    links: Columns,
    values: Columns,
) -> usize
    requires { Room out.old at (tables_text counts.now links.home.now links.cells.now values.home.now values.cells.now) × ColumnsFit links.home.now links.cells.now values.home.now values.cells.now × (length counts.now ≤ max_nodes) × ((d : ℕ) → d < length counts.now → get_or counts.now d 0 ≤ max_rows) }
    ensures { Appended out.old at (tables_text counts.now links.entry.home.now links.entry.cells.now values.entry.home.now values.entry.cells.now) result out.new }
{
    let mut p = at;
    for (table, rows) in counts.iter().enumerate() {
        p = put_table(out, p, table, *rows as usize, links, values);
    }
    p
}
