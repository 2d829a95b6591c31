// Chains through a column of numbers: from each place to the next one that holds the same number.
ghost use Rattle.std.specs.Prelude.{◌≡◌, ◌≤◌, ◌<◌, length, replicate, None};
ghost use Rattle.paths.specs.Chains.{Small, Chained, next_place};

use schema::Schema;

// The chains through the first count places of a column: after each place the next one with its number, and for each number the first place of all, where
// there is one.
pub fn chain(
    column: &[u8],
    count: usize,
    next: &mut [Option<u16>],
    first: &mut [Option<u16>; Schema::NODES],
)
    requires { Small column.now count × (count ≤ length next.old) × (first.old ≡ replicate 16 None) }
    ensures { Chained column.now count 0 next.new first.new }
{
    for i in (0..count).rev() {
        let v = usize::from(column[i]);
        next[i] = first[v];
        first[v] = Some(i as u16);
    }
}

// The first place from place i on that holds v, where the place before i holds it too.
pub fn next_place(
    next: &[Option<u16>],
    first: &[Option<u16>; Schema::NODES],
    v: u8,
    i: usize,
) -> Option<u16>
    requires { (v < 16) × (i ≤ length next.now) }
    ensures { result ≡ next_place next.now first.now v i }
{
    if i == 0 {
        return first[usize::from(v)];
    }
    next[i - 1]
}
