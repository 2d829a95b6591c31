// The rows of one table with their partners. A list has the partners of a table's rows from a first place on, and a column stands in an array
// from a base on.
ghost use Rattle.std.specs.Prelude.{◌≡◌};
ghost use Rattle.matching.specs.Compared.{each_row, link_kept, value_kept, Paired, Targets};

// Whether for each of n rows the partner of its target is the target of its partner: a and b have the links along one edge.
pub fn links_agree(
    list: &[u32],
    source: usize,
    target: usize,
    a: &[u32],
    b: &[u32],
    base: usize,
    n: usize,
) -> bool
    requires { Paired list.now source a.now b.now base n × Targets list.now target a.now base n }
    ensures { result ≡ each_row n (link_kept list.now source target a.now b.now base) }
{
    (0..n).all(|r| {
        let target_row = a[base + r] as usize;
        let partner = list[source + r] as usize;
        list[target + target_row] == b[base + partner]
    })
}

// Whether each of n rows has the value of its partner: a and b have the values of one attribute.
pub fn values_agree(list: &[u32], first: usize, a: &[u32], b: &[u32], base: usize, n: usize) -> bool
    requires { Paired list.now first a.now b.now base n }
    ensures { result ≡ each_row n (value_kept list.now first a.now b.now base) }
{
    (0..n).all(|r| {
        let partner = list[first + r] as usize;
        a[base + r] == b[base + partner]
    })
}
