// What refuses a shape list or two: the first of grounds 1 to 4 of document 01 that holds, or `Ok` where none does.
// `shape` has the tests of a shape list, `pair` those of two; the crate word_grounds has those of any list. None builds a point.
#![tactic(auto)]

mod pair;
mod shape;

ghost use Rattle.std.specs.Prelude.{◌≡◌};
ghost use Rattle.words.specs.Ground.{refused_by, first_of, both};
ghost use Rattle.shapes.specs.Shape.{shape_tests};

use words::Ground;

// What refuses a shape list: the first of grounds 1 to 4 that holds, each tried over the whole list, or `Ok` where none does.
pub fn shape_refusal(ws: &[u32]) -> Result<(), Ground>
    ensures { refused_by result ≡ first_of (shape_tests ws.now) }
{
    shape::refused(ws)
}

// The same over two lists: each ground is tried over both before the next.
pub fn shapes_refusal(ws: &[u32], vs: &[u32]) -> Result<(), Ground>
    ensures { refused_by result ≡ first_of (both (shape_tests ws.now) (shape_tests vs.now)) }
{
    pair::refused(ws, vs)
}
