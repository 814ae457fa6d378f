// The two passes, each in one loop over the bytes that it writes.
ghost use Rattle.std.specs.Prelude.{◌+◌, ◌<◌, ◌≤◌, length};
ghost use Rattle.planes.specs.Bytes.{Bitted};
ghost use Rattle.plane_pass_steps.specs.Passes.{level_bit, joined_bit};

use super::{Columns, bytes};

// Each byte of d becomes the pick of three bytes of s, which stand x, y and z on.
pub(crate) fn level(d: &mut [u8], s: &[u8], read: Columns, erode: bool)
    requires { (length d.old + read.x ≤ length s.now) × (length d.old + read.y ≤ length s.now) × (length d.old + read.z ≤ length s.now) }
    ensures { Bitted 0 (length d.old) (level_bit erode s.now read.x read.y read.z) d.old d.new }
{
    let Columns { x, y, z } = read;
    for k in 0..d.len() {
        d[k] = bytes::three(s[k + x], s[k + y], s[k + z], erode);
    }
}

// Each byte of d is joined with the pick of three, each of which is raised by t from a byte of s, x, y or z on, and the byte c after it.
pub(crate) fn join(d: &mut [u8], s: &[u8], c: usize, read: Columns, t: u32, erode: bool)
    requires { (length d.old + (read.x + c) ≤ length s.now) × (length d.old + (read.y + c) ≤ length s.now) ×
        (length d.old + (read.z + c) ≤ length s.now) × (0 < t) × (t < 8) }
    ensures { Bitted 0 (length d.old) (joined_bit erode d.old s.now c read.x read.y read.z t) d.old d.new }
{
    let Columns { x, y, z } = read;
    for k in 0..d.len() {
        let low = bytes::three(s[k + x], s[k + y], s[k + z], erode);
        let high = bytes::three(s[k + x + c], s[k + y + c], s[k + z + c], erode);
        d[k] = bytes::both(d[k], bytes::raised(high, low, t), erode);
    }
}
