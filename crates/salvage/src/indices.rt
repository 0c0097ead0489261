// Runs of indices, copied.
ghost use Rattle.std.specs.Prelude.{◌≡◌, ◌≤◌, length};
ghost use Rattle.records.specs.Written.{put_at};

// Copies all of `from` into `to`, from index 0 on. One by one, so that the edit `list_from_the_end` gets their order wrong
// and nothing else.
pub(crate) fn copy_indices(to: &mut [u32], from: &[u32])
    requires { length from.now ≤ length to.old }
    ensures { to.new ≡ put_at to.old 0 from.now }
{
    for i in 0..from.len() {
        to[i] = from[i];
    }
}
