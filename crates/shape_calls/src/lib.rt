// The calls on lists of words that write a shape list: moving, joining and summing shapes, and turning a plan back into a shape.
// Each first tries the grounds of the lists that it reads, then makes the new shape, and then tries grounds 8 and 9 before it writes a word.
#![tactic(auto)]

ghost use Rattle.std.specs.Prelude.{◌≡◌};
ghost use Rattle.std.specs.Option.{ok_or};
ghost use Rattle.words.specs.Ground.{first_of};
ghost use Rattle.words.specs.declared.Ground.TheVariants.{OutputLength};
ghost use Rattle.shapes.specs.Plan.{plan_points, plan_tests};
ghost use Rattle.shapes.specs.Calls.{ListAnswered, Moved, Joined, Summed, TurnedBack};
ghost use Rattle.elements.specs.Standing.{points_of, Made};
ghost use Rattle.shape_calls.specs.Steps.{held_points, SomeHeld, StandsFor, Returned, writing_tests};

use elements::{Shape, Window};
use words::{Answer, Ground};

// The shape of the points that a list holds, which for an accepted list are those that it stands for; no shape where they are none.
pub fn read_shape(ws: &[u32]) -> Shape
    ensures { Made (SomeHeld ws.now) (held_points ws.now) result }
{
    let anchor = list_steps::read_anchor(ws);
    let rows = list_steps::read_rows(ws);
    Shape::from_window(Window {
        ax: anchor.x,
        ay: anchor.y,
        rows,
    })
}

// The shape of the points of an accepted plan.
fn read_plan(ws: &[u32]) -> Shape
    requires { first_of (plan_tests ws.now) ≡ 0 }
    ensures { StandsFor (plan_points ws.now) result }
{
    let place = list_steps::read_place(ws);
    let rows = list_steps::plan_rows(ws);
    Shape {
        fits: true,
        x: place.x,
        y: place.y,
        rows,
    }
}

// The length of the list that was written; where there was no room for one, the ground that says so.
fn answered(written: Option<u32>) -> Answer
    ensures { result ≡ ok_or written OutputLength }
{
    written.ok_or(Ground::OutputLength)
}

// Writes the list of a shape. What is no shape is out of range; nothing is written before both grounds are tried.
fn write_shape(s: Shape, out: &mut [u32]) -> Answer
    requires { Returned s }
    ensures { ListAnswered (writing_tests s out.old) (points_of s) out.old result out.new }
{
    if !s.fits {
        return Err(Ground::OutOfRange);
    }
    let cells = s.window();
    answered(word_steps::write_list(cells.ax, cells.ay, cells.rows, out))
}

// Moving: the list of the shape with dx and dy added to x and y of each point.
pub fn move_shape(ws: &[u32], dx: i32, dy: i32, out: &mut [u32]) -> Answer
    ensures { Moved ws.now (dx, dy) out.old result out.new }
{
    shape_grounds::shape_refusal(ws)?;
    write_shape(read_shape(ws).moved(dx, dy), out)
}

// Joining: the list of the points of both shapes.
pub fn join_shapes(ws: &[u32], vs: &[u32], out: &mut [u32]) -> Answer
    ensures { Joined ws.now vs.now out.old result out.new }
{
    shape_grounds::shapes_refusal(ws, vs)?;
    write_shape(read_shape(ws).joined(read_shape(vs)), out)
}

// Summing: the list of the sums of a point of each.
pub fn sum_shapes(ws: &[u32], vs: &[u32], out: &mut [u32]) -> Answer
    ensures { Summed ws.now vs.now out.old result out.new }
{
    shape_grounds::shapes_refusal(ws, vs)?;
    write_shape(read_shape(ws).summed(read_shape(vs)), out)
}

// Turning a plan back: the list of its points.
pub fn shape_of_plan(ws: &[u32], out: &mut [u32]) -> Answer
    ensures { TurnedBack ws.now out.old result out.new }
{
    plan_grounds::plan_refusal(ws)?;
    write_shape(read_plan(ws), out)
}
