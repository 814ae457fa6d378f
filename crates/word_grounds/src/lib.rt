// Grounds 1, 2 and 3 of document 01 over the words of any list: wrong_length, wrong_kind and extra_bit each say whether the ground holds.
// What a word's kind is: specs/ of the crate words; what length a list may have: specs/ of the crate shapes. No point is built.
#![tactic(auto)]

ghost use Rattle.std.specs.Prelude.{◌≡◌, drop};
ghost use Rattle.plane.specs.Lists.{any};
ghost use Rattle.words.specs.Word.{wrong_kind};
ghost use Rattle.shapes.specs.Shape.{not_within};
ghost use Rattle.word_grounds.specs.Leaves.{reaches};

// Ground 1: whether a list has fewer than low words, or more than high.
pub fn wrong_length(ws: &[u32], low: usize, high: usize) -> bool
    ensures { result ≡ not_within low high ws.now }
{
    !(low..=high).contains(&ws.len())
}

// Ground 2: whether some word from start on has another kind.
pub fn wrong_kind(ws: &[u32], start: usize, kind: u32) -> bool
    ensures { result ≡ any (wrong_kind kind) (drop start ws.now) }
{
    ws.iter().skip(start).any(|w| w / 0x1000_0000 != kind)
}

// Ground 3: whether below its kind some word from start on is limit or more, where the bits below limit are those that the kind names.
pub fn extra_bit(ws: &[u32], start: usize, limit: u32) -> bool
    ensures { result ≡ any (reaches limit) (drop start ws.now) }
{
    ws.iter().skip(start).any(|w| w % 0x1000_0000 >= limit)
}
