// The eighteen numbers of masks, in a flat table with eighteen for each, held against the numbers that are needed.
ghost use Rattle.std.specs.Prelude.{◌≡◌, ℕ, ◌-◌, ◌<◌, ◌≤◌, true, false, slice_index};
ghost use Rattle.completions.specs.Completing.{number_in, Fit};

// Whether m is one of the 512 masks and no number of it is above what is needed. The loop always runs to its end, so that the numbers are held against each
// other together.
pub fn fits(need: [u8; 18], nums: &[u8; 9216], m: u16) -> bool
    ensures yes { result ≡ true → (m < 512) × Fit (number_in nums.now) need m }
    ensures no { result ≡ false → m < 512 → Fit (number_in nums.now) need m → ⊥ }
{
    if 512 <= m {
        return false;
    }
    let at = (m as usize) * 18;
    let mut over: u8 = 0;
    for i in 0..18 {
        over = over.max(nums[at + i].saturating_sub(need[i]));
    }
    over == 0
}

// What is needed after m; where m is none of the 512 masks, what was needed.
pub fn less(need: [u8; 18], nums: &[u8; 9216], m: u16) -> [u8; 18]
    ensures after { m < 512 → (i : ℕ) → i < 18 → slice_index result i ≡ slice_index need i - number_in nums.now i m }
    ensures outside { 512 ≤ m → result ≡ need }
{
    if 512 <= m {
        return need;
    }
    let at = (m as usize) * 18;
    let mut r = need;
    for i in 0..18 {
        r[i] = need[i].saturating_sub(nums[at + i]);
    }
    r
}

// 1 where m is one of the 512 masks and fits what is needed, else 0: a number, so that what fits is written and counted without a branch.
pub(crate) fn fitting(need: [u8; 18], nums: &[u8; 9216], m: u16) -> usize
    ensures { (result ≤ 1) × ((1 ≤ result → (m < 512) × Fit (number_in nums.now) need m) ×
        (m < 512 → Fit (number_in nums.now) need m → 1 ≤ result)) }
{
    if fits(need, nums, m) { 1 } else { 0 }
}

// 1 where the mask has number i, else 0.
pub(crate) fn having(nums: &[u8; 9216], i: usize, m: u16) -> usize
    requires { i < 18 }
    ensures { (result ≤ 1) × ((1 ≤ result → 0 < number_in nums.now i m) × (result ≡ 0 → m < 512 → number_in nums.now i m ≡ 0)) }
{
    if 512 <= m || nums[(m as usize) * 18 + i] == 0 {
        0
    } else {
        1
    }
}
