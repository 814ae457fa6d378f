// The search for the fewest stages: `shortest` answers for any set of cells the plan that document 01 picks, or that there is none.
// `node` and `stage` call each other: a partial sum tries each stage, and each stage tried opens the sum below it. Before a sum is opened the quick search is
// asked whether anything can complete it. It builds on mark_steps (what the search starts with), completion_steps and path_steps, edges, extents and faces.
#![tactic(auto)]

ghost use Rattle.std.specs.Prelude.{◌≡◌, ◌+◌, ◌≤◌, ◌<◌, max, ◌/◌, T, ltb, get_or, MatchOption};
ghost use Rattle.masks.specs.Mask.{stage as isStage};
ghost use Rattle.rows.specs.Cells.{At, AtOrigin};
ghost use Rattle.extents.specs.Extents.{Greatest, row, column};
ghost use Rattle.completions.specs.Completing.{aim_of, partial_sum};
ghost use Rattle.search.specs.Plans.{Shortest};
ghost use Rattle.search.specs.Tree.{FirstLine, Line, NoneFirst, tries, Candidates};
ghost use Rattle.search.specs.Asking.{Questioned, Underway, Led};

use completions::Here;
pub use search::Chosen;

// Whether j stages are more than the width and the height that are needed: each adds at least 1 to one of them.
fn too_many(need: [u8; 18], j: usize) -> bool
    ensures { result ≡ ltb (get_or need 16 0 + get_or need 17 0) j }
{
    (need[16] as usize) + (need[17] as usize) < j
}

// The partial sum below by the stage m, with j stages after it. It is passed over where the extents that are needed are fewer than the stages left, or where
// the quick search says that nothing completes it.
fn tried(here: Here, nums: &[u8; 9216], cand: &[u16], j: usize, m: u16) -> Option<Here>
    ensures { Led nums.now cand.now here j m result }
{
    let below = completion_steps::opened(here, nums, cand, m, j)?;
    if too_many(below.need, j) {
        return None;
    }
    Some(below)
}

// The first list of k stages, none below m, that completes the sum to its target; the first of them is at k − 1.
#[cycle(node_stage)]
fn node(
    here: Here,
    marks: &[bool; 512],
    nums: &[u8; 9216],
    cand: &[u16],
    k: usize,
    m: u16,
) -> Option<[u16; 32]>
    requires { (m ≤ 512) × Underway marks.now nums.now cand.now here k }
    ensures { FirstLine (tries marks.now) (aim_of here) (partial_sum here) k m result }
{
    if k == 0 {
        if path_steps::finished(here) {
            return Some([0; 32]);
        }
        return None;
    }
    for i in m..512 {
        if marks[i as usize] {
            if let Some(masks) = stage(here, marks, nums, cand, k, i) {
                return Some(masks);
            }
        }
    }
    None
}

// The same with m itself as the first of the k stages.
#[cycle(node_stage)]
fn stage(
    here: Here,
    marks: &[bool; 512],
    nums: &[u8; 9216],
    cand: &[u16],
    k: usize,
    m: u16,
) -> Option<[u16; 32]>
    requires { (0 < k) × (T (tries marks.now m) × Underway marks.now nums.now cand.now here k) }
    ensures { MatchOption result (NoneFirst (tries marks.now) (aim_of here) (partial_sum here) k m)
        (Line (tries marks.now) (aim_of here) (partial_sum here) k m) }
{
    let below = tried(here, nums, cand, k - 1, m)?;
    let mut masks = node(below, marks, nums, cand, k - 1, m)?;
    masks[k - 1] = m;
    Some(masks)
}

// Half the greater extent, rounded up: no plan has fewer stages.
fn least_count(w: usize, h: usize) -> usize
    requires { (w ≤ 15) × (h ≤ 15) }
    ensures { result ≡ (max w h + 1) / 2 }
{
    (w.max(h) + 1) / 2
}

// The first list of k stages that sums to the cells. The quick search is asked first whether there may be one.
fn of_length(
    cells: [u16; 16],
    marks: &[bool; 512],
    need: [u8; 18],
    nums: &[u8; 9216],
    cand: &[u16],
    k: usize,
) -> Option<[u16; 32]>
    requires { (k ≤ 30) × Questioned marks.now cells need nums.now cand.now }
    ensures { FirstLine (tries marks.now) (At cells) AtOrigin k 0 result }
{
    if !completion_steps::may_sum(cells, need, nums, cand, k) {
        return None;
    }
    let here = Here {
        target: cells,
        rest: cells,
        path: [0; 32],
        len: 0,
        need,
    };
    node(here, marks, nums, cand, k, 0)
}

// The shortest plan of cells, some list of w + h stages or fewer perhaps being one: lists of one length after the other, up to w + h.
fn by_length(
    cells: [u16; 16],
    w: usize,
    h: usize,
    marks: &[bool; 512],
    need: [u8; 18],
    nums: &[u8; 9216],
    cand: &[u16],
) -> Option<Chosen>
    requires { (w ≤ 15) × ((h ≤ 15) ×
        ((Greatest column (At cells) w × Greatest row (At cells) h) ×
        (Candidates isStage (At cells) 512 marks.now × Questioned marks.now cells need nums.now cand.now))) }
    ensures { Shortest isStage (At cells) result }
{
    for n in least_count(w, h)..w + h + 1 {
        if let Some(masks) = of_length(cells, marks, need, nums, cand, n) {
            return Some(Chosen { n, masks });
        }
    }
    None
}

// The shortest plan of cells whose extents from 0 are w and h. The quick search is asked first whether there is one at all.
fn deepening(cells: [u16; 16], w: usize, h: usize) -> Option<Chosen>
    requires { (w ≤ 15) × ((h ≤ 15) × (Greatest column (At cells) w × Greatest row (At cells) h)) }
    ensures { Shortest isStage (At cells) result }
{
    let p = mark_steps::pooled(cells);
    let marks = p.marks;
    let list = p.list;
    let nums = p.nums;
    let cand = &list[..p.n];
    let need = edge_steps::numbers(cells, 16);
    if !completion_steps::may_sum(cells, need, &nums, cand, w + h) {
        return None;
    }
    by_length(cells, w, h, &marks, need, &nums, cand)
}

// The fewest stages that sum to the cells, of several such lists the first in order, or that no list of stages does. Where there is no cell, or a face of the
// cells is none that a sum can have, nothing is searched.
pub fn shortest(cells: [u16; 16]) -> Option<Chosen>
    ensures { Shortest isStage (At cells) result }
{
    if extent_steps::empty(cells) || !face_steps::may_be_sum(cells) {
        return None;
    }
    let w = extent_steps::last_column(cells)? as usize;
    let h = extent_steps::last_row(cells)?;
    deepening(cells, w, h)
}
