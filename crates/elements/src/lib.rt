// A shape as one value, with methods that take it by value and return a new one: moved, joined, summed. The old shape can still be used.
// from_window and window lead from the cells of a shape list to the value and back. What a shape is, and what its points are: specs/Standing.antt.
#![tactic(auto)]

ghost use Rattle.std.specs.Prelude.{◌≡◌, true, false, ◌++◌, map};
ghost use Rattle.plane.specs.Point.{◌+ᵖ◌};
ghost use Rattle.masks.specs.Chain.{sums};
ghost use Rattle.rows.specs.Cells.{At};
ghost use Rattle.extents.specs.Extents.{SomeCell};
ghost use Rattle.elements.specs.Standing.{points_of, window_points, Sound, no_shape, Made, Along, Within, Anchored, InWindow};

// The cells stand in rows with one in column 0 and one in row 0; their (0, 0) is the point (x − 15, y − 15). fits is false of what is out of range: it is a
// field, and no Option around the type, because the methods answer of a value that is no shape too (`none` of Made).
#[derive(Clone, Copy)]
pub struct Shape {
    pub fits: bool,
    pub x: u32,
    pub y: u32,
    pub rows: [u16; 16],
}

// A shape's cells in the window of a shape list, with the anchor.
#[derive(Clone, Copy)]
pub struct Window {
    pub ax: u32,
    pub ay: u32,
    pub rows: [u16; 16],
}

// No shape.
fn nothing() -> Shape
    ensures { result ≡ no_shape }
{
    Shape {
        fits: false,
        x: 0,
        y: 0,
        rows: [0u16; 16],
    }
}

// A coordinate, biased by 15, moved by d; 31 where that is too far from 0, which `within` refuses as it does any place that is: an Option would be asked once
// more. The sum is made in 64 bits, so every d is answered.
fn along(x: u32, d: i32) -> u32
    ensures { Along x d result }
{
    let v = i64::from(x) + i64::from(d);
    if v < 0 || v > 30 { 31 } else { v as u32 }
}

// Whether every cell of a, moved by (i, j), has coordinates to `limit`.
fn within(a: [u16; 16], i: u32, j: usize, limit: u32) -> bool
    ensures yes { result ≡ true → Within (At a) i j limit }
    ensures no { result ≡ false → SomeCell (At a) → Within (At a) i j limit → ⊥ }
{
    i <= limit
        && j <= limit as usize
        && extent_steps::last_column(a).is_none_or(|x| x <= limit - i)
        && extent_steps::last_row(a).is_none_or(|y| y <= limit as usize - j)
}

impl Shape {
    // Whether this value is a shape.
    fn sound(self) -> bool
        ensures yes { result ≡ true → Sound self }
        ensures no { result ≡ false → Sound self → ⊥ }
    {
        self.fits
            && extent_steps::first_row(self.rows) == Some(0)
            && extent_steps::first_column(self.rows) == Some(0)
            && within(self.rows, self.x, self.y as usize, 30)
    }

    // The shape with dx added to x and dy to y of each point.
    pub fn moved(self, dx: i32, dy: i32) -> Shape
        ensures { Made (Sound self) (map (λ p. p +ᵖ (dx, dy)) (points_of self)) result }
    {
        let rows = self.rows;
        let x = along(self.x, dx);
        let y = along(self.y, dy);
        if self.sound() && within(rows, x, y as usize, 30) {
            Shape {
                fits: true,
                x,
                y,
                rows,
            }
        } else {
            nothing()
        }
    }

    // The shape of the points of both.
    pub fn joined(self, other: Shape) -> Shape
        ensures { Made (Sound self × Sound other) (points_of self ++ points_of other) result }
    {
        if self.sound() && other.sound() {
            union(self, other)
        } else {
            nothing()
        }
    }

    // The shape of the sums of a point of this one and a point of the other.
    pub fn summed(self, other: Shape) -> Shape
        ensures { Made (Sound self × Sound other) (sums (points_of self) (points_of other)) result }
    {
        if self.sound() && other.sound() {
            sum(self, other)
        } else {
            nothing()
        }
    }

    // The shape's cells in the window with the least anchor.
    pub fn window(self) -> Window
        ensures { InWindow self result }
    {
        Window {
            ax: 15u32.saturating_sub(self.x),
            ay: 15u32.saturating_sub(self.y),
            rows: row_sum_steps::raised(
                self.rows,
                self.x.saturating_sub(15),
                self.y.saturating_sub(15) as usize,
            ),
        }
    }

    // The shape of the cells of a window with the anchor (ax, ay).
    pub fn from_window(w: Window) -> Shape
        ensures { Made (Anchored w) (window_points w.rows (w.ax, w.ay)) result }
    {
        let Window { ax, ay, rows } = w;
        if ax > 15 || ay > 15 || extent_steps::empty(rows) {
            return nothing();
        }
        let (Some(i), Some(j)) = (
            extent_steps::first_column(rows),
            extent_steps::first_row(rows),
        ) else {
            return nothing();
        };
        Shape {
            fits: true,
            x: i + 15 - ax,
            y: j as u32 + 15 - ay,
            rows: row_steps::lowered(rows, i, j),
        }
    }
}

// The shape of the points of two: each is moved in the window to the lesser place of both. Cells that would leave it are more than 15 apart.
fn union(a: Shape, b: Shape) -> Shape
    requires { Sound a × Sound b }
    ensures { Made (Sound a × Sound b) (points_of a ++ points_of b) result }
{
    let x = a.x.min(b.x);
    let y = a.y.min(b.y);
    let (i, j) = (a.x - x, (a.y - y) as usize);
    let (k, l) = (b.x - x, (b.y - y) as usize);
    if within(a.rows, i, j, 15) && within(b.rows, k, l, 15) {
        Shape {
            fits: true,
            x,
            y,
            rows: row_sum_steps::joined(
                row_sum_steps::raised(a.rows, i, j),
                row_sum_steps::raised(b.rows, k, l),
            ),
        }
    } else {
        nothing()
    }
}

// The shape of the sums of their points: cells add up, and so do places, of which 15 is taken once.
fn sum(a: Shape, b: Shape) -> Shape
    requires { Sound a × Sound b }
    ensures { Made (Sound a × Sound b) (sums (points_of a) (points_of b)) result }
{
    let (Some(i), Some(j)) = (
        extent_steps::last_column(b.rows),
        extent_steps::last_row(b.rows),
    ) else {
        return nothing();
    };
    let x = a.x + b.x;
    let y = a.y + b.y;
    if x < 15 || y < 15 || !within(a.rows, i, j, 15) {
        return nothing();
    }
    let rows = row_sum_steps::sum_of(a.rows, b.rows);
    if within(rows, x - 15, (y - 15) as usize, 30) {
        Shape {
            fits: true,
            x: x - 15,
            y: y - 15,
            rows,
        }
    } else {
        nothing()
    }
}
