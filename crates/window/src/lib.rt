// Where a place stands in a window of the cabinet's screen (document 02, request 103).
#![tactic(auto)]

ghost use Rattle.std.specs.Prelude.{◌≡◌, ◌≤◌};
ghost use Rattle.window.specs.Window.{greatest, within, Exact, Says};

// A position in a window, in sides of it: from 0 up to, but not, 1.
#[derive(Clone, Copy)]
pub struct Point {
    pub across: f64,
    pub up: f64,
}

// What a window shows of a lot: its position, nothing, or a refusal's number and lot. One enum and no Result, as the
// document of the screen names it: the case Shown carries the point.
#[derive(Clone, Copy)]
pub enum View {
    Shown(Point),
    Outside,
    Refused(u32, u32),
}

// Whether a coordinate lies in a window of this side. Its distance from the corner is compared, because corner + side
// may not fit 32 bits.
fn is_within(corner: u32, side: u32, c: u32) -> bool
    ensures { result ≡ within corner side c }
{
    if c < corner {
        return false;
    }
    c - corner < side
}

// d / 2^m.
fn scaled(d: u32, m: u32) -> f64
    requires { m ≤ greatest }
    ensures { Exact result d m }
{
    d as f64 / (1u32 << m) as f64
}

// Where the place (x, y) stands in the window of side 2^m with its corner at (a, b).
pub fn window(x: u32, y: u32, a: u32, b: u32, m: u32) -> View
    ensures { Says greatest x y a b m result }
{
    if 31 < m {
        return View::Refused(18, 0);
    }
    let side = 1u32 << m;
    if !is_within(a, side, x) {
        return View::Outside;
    }
    if !is_within(b, side, y) {
        return View::Outside;
    }
    let point = Point {
        across: scaled(x - a, m),
        up: scaled(y - b, m),
    };
    View::Shown(point)
}
