//! The carry: a 1 that goes into bytes which are out already.
ghost use Rattle.std.specs.Prelude.{◌≡◌, ◌+◌, ◌-◌, ◌^◌, ◌<◌, ◌≤◌, length};
ghost use Rattle.sal_bool.specs.Written.{value};

/// Adds 1 to the number that the bytes before place `end` spell.
pub(crate) fn carry(out: &mut [u8], end: usize)
    requires end { end ≤ length out.old }
    requires fits { value out.old + 256 ^ (length out.old - end) < 256 ^ length out.old }
    ensures { value out.new ≡ value out.old + 256 ^ (length out.old - end) }
{
    for i in (0..end).rev() {
        if out[i] == 255 {
            out[i] = 0;
        } else {
            out[i] += 1;
            return;
        }
    }
    unreachable!()
}
