// The table list: for each table its first row among all rows, and its count.
ghost use Rattle.std.specs.Prelude.{◌≡◌, ◌≤◌, ◌<◌, length, get_or};
ghost use Rattle.meaning.specs.Formats.{max_nodes, tables_from};
ghost use Rattle.schema.specs.Decoded.{front_of};
ghost use Rattle.instance.specs.Tables.{no_table, table_list_of};

use schema::Schema;

#[derive(Clone, Copy)]
pub struct Table {
    pub first: usize,
    pub count: usize,
}

// The table list of the first n counts.
pub fn table_list(counts: &[u32], n: usize) -> [Table; Schema::NODES]
    requires { (n ≤ max_nodes) × (n ≤ length counts.now) }
    ensures { table_list_of n result ≡ tables_from 0 (front_of n counts.now) }
{
    let none = Table { first: 0, count: 0 };
    let mut list = [none; Schema::NODES];
    let mut first: usize = 0;
    for (c, &count) in counts[..n].iter().enumerate() {
        let count = count as usize;
        list[c] = Table { first, count };
        first += count;
    }
    list
}

// Table c of a lent table list.
pub fn table_of(tables: &[Table], c: usize) -> Table
    requires { c < length tables.now }
    ensures { result ≡ get_or tables.now c no_table }
{
    tables[c]
}

// Table c of the first n, which are lent as a table list: for callers that hold it in an array.
pub fn table_among(list: [Table; Schema::NODES], n: usize, c: usize) -> Table
    requires { (c < n) × (n ≤ max_nodes) }
    ensures { result ≡ get_or list c no_table }
{
    table_of(&list[..n], c)
}
