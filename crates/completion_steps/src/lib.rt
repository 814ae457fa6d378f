// The quick search: `may_sum` says whether masks of a list may sum to a set of cells, and `opened` has the partial sum below by a mask where masks of a list
// may complete it. Both are one-sided: `false` says that none do, `true` promises nothing.
// `node` and `stage` call each other: a node picks a number that is still needed and tries the masks that have it, and a stage opens the sum below.
// It builds on pool_steps (the lists of a node) and path_steps (the partial sums). The table of numbers and the list of masks are lent apart: of a struct that
// holds references each contract would say `entry` and `now` of each.
#![tactic(auto)]

ghost use Rattle.std.specs.Prelude.{◌≡◌, false, ◌+◌, ◌≤◌, ◌<◌, ◌↔◌, length, IsTrue};
ghost use Rattle.completions.specs.Completing.{NoneHere, NoneBefore, NoSum};
ghost use Rattle.completions.specs.Opening.{Opened};

use completions::Here;

// Whether k masks of the list or fewer may complete the sum; false says that none do. Some number is needed still: the masks that have it are tried, from the
// last, each over the list up to it, since what completes the sum has it or has it not.
#[cycle(node_stage)]
fn node(here: Here, nums: &[u8; 9216], cand: &[u16], k: usize) -> bool
    requires { ((here.len + k) ≤ 32) × (length cand.now ≤ 512) }
    ensures { result ≡ false → NoneHere nums.now here cand.now k }
{
    let need = here.need;
    let w = need[16] as usize;
    let h = need[17] as usize;
    if w == 0 && h == 0 {
        return true;
    }
    if 2 * k < w || 2 * k < h {
        return false;
    }
    let mut list = [0u16; 512];
    let Some(b) = pool_steps::divided(need, nums, cand, &mut list) else {
        return true;
    };
    for j in (b.without..b.count).rev() {
        if stage(here, nums, &list[..b.count], j, k) {
            return true;
        }
    }
    false
}

// The same with the mask at j among them, over the list up to it, where those past it were tried.
#[cycle(node_stage)]
fn stage(here: Here, nums: &[u8; 9216], list: &[u16], j: usize, k: usize) -> bool
    requires { (0 < k) × (((here.len + k) ≤ 32) × ((j < length list.now) × (length list.now ≤ 512))) }
    ensures { result ≡ false → NoneBefore nums.now here list.now (j + 1) k }
{
    let m = list[j];
    if path_steps::replaced(here.rest, list, j + 1, m).is_some() {
        return false;
    }
    let Some(below) = path_steps::step(here, nums, m) else {
        return false;
    };
    node(below, nums, &list[..j + 1], k - 1)
}

// Whether k masks of the list or fewer may sum to the cells; false says that none do. nums has eighteen numbers for each mask, and need those of the cells.
pub fn may_sum(cells: [u16; 16], need: [u8; 18], nums: &[u8; 9216], cand: &[u16], k: usize) -> bool
    ensures { result ≡ false → NoSum cells need nums.now cand.now k }
{
    if 32 < k || 512 < cand.len() {
        return true;
    }
    let here = Here {
        target: cells,
        rest: cells,
        path: [0; 32],
        len: 0,
        need,
    };
    node(here, nums, cand, k)
}

// Whether a list of c masks and a path of len with k masks after the next are within bounds.
fn roomy(c: usize, len: usize, k: usize) -> bool
    ensures { IsTrue result ↔ ((c ≤ 512) × ((len + k) < 32)) }
{
    c <= 512 && len < 32 && k <= 31 - len
}

// The partial sum below by the mask m, where k masks of the list or fewer may complete it.
pub fn opened(here: Here, nums: &[u8; 9216], cand: &[u16], m: u16, k: usize) -> Option<Here>
    ensures { Opened nums.now cand.now here m k result }
{
    if !roomy(cand.len(), here.len, k) {
        return None;
    }
    let below = path_steps::step(here, nums, m)?;
    node(below, nums, cand, k).then_some(below)
}
