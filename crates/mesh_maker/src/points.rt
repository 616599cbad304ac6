//! Points of the strip, by the numbers of its edges and squares.

ghost use Rattle.std.specs.Prelude.{◌≡◌, ◌<◌, ◌≤◌, ◌^◌};
ghost use Rattle.strip_laws.specs.Strip.{flat, low, high, halfway, middle};
ghost use Rattle.strip_laws.specs.declared.limits.TheConstants.{MOST_COLUMNS};

use grid_vertex::Point;
use strip_laws::MOST_COLUMNS;

/// The point in the plane z = 0.
pub(crate) fn flat(x: u32, y: u32) -> Point
    requires x { x < 2 ^ 31 }
    requires y { y < 2 ^ 31 }
    ensures { result ≡ flat x y }
{
    Point {
        x: x as i32,
        y: y as i32,
        z: 0,
    }
}

/// The lower end of an edge.
pub(crate) fn low(edge: u32) -> Point
    requires { edge ≤ MOST_COLUMNS }
    ensures { result ≡ low edge }
{
    flat(4 * edge, 0)
}

/// The upper end of an edge.
pub(crate) fn high(edge: u32) -> Point
    requires { edge ≤ MOST_COLUMNS }
    ensures { result ≡ high edge }
{
    flat(4 * edge, 4)
}

/// The middle of an edge.
pub(crate) fn halfway(edge: u32) -> Point
    requires { edge ≤ MOST_COLUMNS }
    ensures { result ≡ halfway edge }
{
    flat(4 * edge, 2)
}

/// The middle of a square.
pub(crate) fn middle(column: u32) -> Point
    requires { column ≤ MOST_COLUMNS }
    ensures { result ≡ middle column }
{
    flat(4 * column + 2, 2)
}
