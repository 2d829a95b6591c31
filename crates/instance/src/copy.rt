// Columns copied between working arrays.
ghost use Rattle.std.specs.Prelude.{◌+◌, ◌≤◌, length};
ghost use Rattle.instance.specs.Stored.{Copied};

// Copies n numbers of a list from a place on to out from base on.
pub fn copy_column(list: &[u32], place: usize, n: usize, out: &mut [u32], base: usize)
    requires { (place + n ≤ length list.now) × (base + n ≤ length out.old) }
    ensures { Copied list.now place n base out.old out.new }
{
    for i in 0..n {
        out[base + i] = list[place + i];
    }
}
