// A list of masks as a node needs it: those that fit, the number to branch on, and those without that number before those with it.
ghost use Rattle.std.specs.Prelude.{◌≡◌, ℕ, ◌+◌, ◌<◌, ◌≤◌, length, slice_index, MatchOption};
ghost use Rattle.completions.specs.Pools.{Fitting, Split, Appended, Divided};

use super::numbers;
use completions::Branch;

// Puts those of the candidates that fit what is needed to the front of the list, and answers how many they are.
fn fitted(need: [u8; 18], nums: &[u8; 9216], cand: &[u16], list: &mut [u16; 512]) -> usize
    requires { (length cand.now ≤ 512) × (length list.old ≡ 512) }
    ensures { Fitting nums.now need cand.now (length cand.now) list.new result }
{
    let mut n: usize = 0;
    for m in cand {
        list[n] = *m;
        n += numbers::fitting(need, nums, *m);
    }
    n
}

// Puts the first q of the other list behind the first p.
fn appended(list: &mut [u16; 512], p: usize, other: &[u16; 512], q: usize)
    requires { (p + q) ≤ 512 }
    ensures { length list.old ≡ 512 → Appended list.old p other.now q list.new }
{
    for t in 0..q {
        list[p + t] = other[t];
    }
}

// Puts the masks into the list, those without number i before those with it, and answers how many are without it.
fn split(nums: &[u8; 9216], i: usize, masks: &[u16], list: &mut [u16; 512]) -> usize
    requires { (i < 18) × (length masks.now ≤ 512) }
    ensures { length list.old ≡ 512 → Split nums.now masks.now (length masks.now) i list.new result }
{
    let mut other = [0u16; 512];
    let mut p: usize = 0;
    let mut q: usize = 0;
    for m in masks {
        let k = numbers::having(nums, i, *m);
        list[p] = *m;
        p += 1 - k;
        other[q] = *m;
        q += k;
    }
    appended(list, p, &other, q);
    p
}

// The counts with those of the mask m.
fn counted(count: [u16; 18], nums: &[u8; 9216], m: u16) -> [u16; 18] {
    let mut r = count;
    for i in 0..18 {
        r[i] = r[i].wrapping_add(numbers::having(nums, i, m) as u16);
    }
    r
}

// How many of the masks have each number. What is counted only decides which number is branched on.
fn tally(nums: &[u8; 9216], masks: &[u16]) -> [u16; 18] {
    masks
        .iter()
        .fold([0; 18], |count, m| counted(count, nums, *m))
}

// A number that is needed, of those the first that the fewest have; none where none is needed.
fn scarce(need: [u8; 18], count: [u16; 18]) -> Option<usize>
    ensures { MatchOption result ((i : ℕ) → i < 18 → slice_index need i ≡ 0) (λ i. (i < 18) × (0 < slice_index need i)) }
{
    let mut best = None;
    let mut few: u16 = 0;
    for i in 0..18 {
        if need[i] != 0 && (best.is_none() || count[i] < few) {
            best = Some(i);
            few = count[i];
        }
    }
    best
}

// Draws the candidates that fit what is needed to the front of the list, divided by a number that is needed: those without it come first. Where none is
// needed, or the candidates are over 512, there is no such division and the list stays as it is.
pub fn divided(
    need: [u8; 18],
    nums: &[u8; 9216],
    cand: &[u16],
    list: &mut [u16; 512],
) -> Option<Branch>
    ensures { Divided nums.now need cand.now list.old list.new result }
{
    if 512 < cand.len() {
        return None;
    }
    let mut fit = [0u16; 512];
    let count = fitted(need, nums, cand, &mut fit);
    let masks = &fit[..count];
    let number = scarce(need, tally(nums, masks))?;
    let without = split(nums, number, masks, list);
    Some(Branch {
        number,
        without,
        count,
    })
}
