// Passes over the bytes of a plane, one loop each: level reads a mask's row 0, join its row 1 or 2. Bytes are read at a distance and not from a part lent for
// each, so that one slice serves all columns of a mask's row.
#![tactic(auto)]

mod bytes;
mod passes;

ghost use Rattle.std.specs.Prelude.{◌≡◌, ◌+◌, ◌<◌, leb};
ghost use Rattle.plane_pass_steps.specs.Passes.{reads_fit, lift_of, mask_row_of, PassLevelled, PassRaised};

// How far on the three bytes stand that are read for each byte.
#[derive(Clone, Copy)]
pub struct Columns {
    pub x: usize,
    pub y: usize,
    pub z: usize,
}

impl Columns {
    // Whether these, and those c after them, are among m for each of n bytes.
    fn fit(self, n: usize, m: usize, c: usize) -> bool
        ensures { result ≡ reads_fit n m c self.x self.y self.z }
    {
        c <= m && room(n, m - c, self.x) && room(n, m - c, self.y) && room(n, m - c, self.z)
    }
}

// Whether n bytes from x on are among m.
fn room(n: usize, m: usize, x: usize) -> bool
    ensures { result ≡ leb (n + x) m }
{
    x <= m && n <= m - x
}

// By how many bits bytes are raised for the mask's row 2, or 1.
fn lift(second: bool, erode: bool) -> u32
    ensures { (result ≡ lift_of erode (mask_row_of second)) × (0 < result) × (result < 8) }
{
    let j = if second { 2 } else { 1 };
    if erode { 8 - j } else { j }
}

// Each byte of d becomes the pick of three bytes of s. False, with nothing written, where one is not there.
pub fn level(d: &mut [u8], s: &[u8], read: Columns, erode: bool) -> bool
    ensures { PassLevelled erode s.now read.x read.y read.z d.old result d.new }
{
    if !read.fit(d.len(), s.len(), 0) {
        return false;
    }
    passes::level(d, s, read, erode);
    true
}

// Each byte of d is joined with the pick of three, each of which is raised from a byte of s that is read and the byte c after it: for the mask's row 2, or 1.
// False, with nothing written, where one is not there.
pub fn join(d: &mut [u8], s: &[u8], c: usize, read: Columns, second: bool, erode: bool) -> bool
    ensures { PassRaised erode second s.now c read.x read.y read.z d.old result d.new }
{
    if !read.fit(d.len(), s.len(), c) {
        return false;
    }
    passes::join(d, s, c, read, lift(second, erode), erode);
    true
}
