// One level of eight rows of cells put into a row of bytes, a row to a bit: eight_rows.
#![tactic(auto)]

mod columns;

ghost use Rattle.std.specs.Prelude.{◌≡◌};
ghost use Rattle.plane_eight_steps.specs.Eights.{eight_fits, EightPut};

// Whether eight rows of w cells, which are among m, go into n bytes.
fn eight_fits(n: usize, m: usize, w: usize) -> bool
    ensures { result ≡ eight_fits n m w }
{
    n <= w && w <= 65535 && 8 * w <= m
}

// One level of the first eight rows of s, w cells a row, put into the bytes of d. False, with nothing written, where d is longer than a row, or s does not
// have them.
pub fn eight_rows(d: &mut [u8], s: &[u8], w: usize, some: bool) -> bool
    ensures { EightPut some w s.now d.old result d.new }
{
    if !eight_fits(d.len(), s.len(), w) {
        return false;
    }
    columns::halves(d, s, w, some);
    true
}
