// Runs of bytes, copied.
ghost use Rattle.std.specs.Prelude.{◌≡◌};
ghost use Rattle.records.specs.Written.{put_in_room};

// Copies all of `from` into `to`, from index `at` on. Where there is no room for it, nothing is written. Byte by byte: so the
// compiler's back end knows the two apart, and makes one `memcpy`. Of a `copy_from_slice` where it does not, it makes a
// `memmove`, which the library for C would then need from outside.
pub fn copy_to(to: &mut [u8], at: usize, from: &[u8])
    ensures { to.new ≡ put_in_room to.old at from.now }
{
    if at <= to.len() && from.len() <= to.len() - at {
        for i in 0..from.len() {
            to[at + i] = from[i];
        }
    }
}
