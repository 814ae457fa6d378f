// Eight rows of cells put into one row of bytes, in one pass.
ghost use Rattle.std.specs.Prelude.{◌+◌, ◌*◌, ◌%◌, ◌≤◌, length};
ghost use Rattle.planes.specs.Bytes.{Bitted};
ghost use Rattle.plane_eight_steps.specs.Eights.{Four, Eight, eight_bit};

// One level of four cells, the first one's lowest.
fn four(a: u8, b: u8, c: u8, d: u8, some: bool) -> u8
    ensures { Four some a b c d result }
{
    let low = planes::level_bit(b, some) * 2 + planes::level_bit(a, some);
    let high = planes::level_bit(d, some) * 2 + planes::level_bit(c, some);
    high * 4 + low
}

// The same of eight.
fn eight(a: u8, b: u8, c: u8, d: u8, e: u8, f: u8, g: u8, h: u8, some: bool) -> u8
    ensures { Eight some a b c d e f g h result }
{
    four(e, f, g, h, some) * 16 + four(a, b, c, d, some)
}

// Each byte of d becomes eight cells of s, w cells apart. It stays a function by itself: taken into packing, its loop keeps less in registers, and packing a
// small frame takes a quarter more instructions.
#[inline(never)]
fn eights(d: &mut [u8], s: &[u8], w: usize, some: bool)
    requires { 7 * w + length d.old ≤ length s.now }
    ensures { Bitted 0 (length d.old) (eight_bit some s.now w) d.old d.new }
{
    for k in 0..d.len() {
        d[k] = eight(
            s[k],
            s[w + k],
            s[2 * w + k],
            s[3 * w + k],
            s[4 * w + k],
            s[5 * w + k],
            s[6 * w + k],
            s[7 * w + k],
            some,
        );
    }
}

// The same in two halves, which overlap so that each is a whole number of 16 bytes: no few bytes are left to be done one by one.
pub(crate) fn halves(d: &mut [u8], s: &[u8], w: usize, some: bool)
    requires { 7 * w + length d.old ≤ length s.now }
    ensures { Bitted 0 (length d.old) (eight_bit some s.now w) d.old d.new }
{
    let n = d.len();
    if n < 32 {
        eights(d, s, w, some);
    } else {
        let h = (n - n / 2 + 15) / 16 * 16;
        let m = s.len();
        eights(&mut d[0..h], s, w, some);
        eights(&mut d[n - h..n], &s[n - h..m], w, some);
    }
}
