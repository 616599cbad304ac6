//! Reading points, views, half-spaces and rays of words.

ghost use Rattle.std.specs.Prelude.{◌≡◌, ◌<◌, ◌^◌, map, string_bytes, Some, option_map, IfSome, IsTrue};
ghost use Rattle.file_model.specs.Rules.{is_version};
ghost use Rattle.viewer_program.specs.Spelt.{version_in, point_in, view_in, half_space_in, with_half_spaces, planes_in, ray_from, ray_in};

use grid_vertex::Point;
use number_words::{read_number, read_signed, read_wide_signed};
use ray_pick::{DIRECTION_REACH, ORIGIN_REACH, Ray};
use round_model::{GREATEST_FOCAL, GREATEST_THRESHOLD, View};
use view_planes::{HalfSpace, LEVEL_REACH, NORMAL_REACH, Planes};

/// The version that a word spells.
pub fn read_version(word: &str) -> Option<u16>
    ensures value { result ≡ version_in word.now }
    ensures known { IfSome result (λ version. IsTrue (is_version version)) }
{
    match word {
        "1" => Some(1),
        "2" => Some(2),
        _ => None,
    }
}

/// The point that three words spell, with coordinates from `-reach` to `reach`.
pub fn read_point(reach: u32, x: &str, y: &str, z: &str) -> Option<Point>
    requires { reach < 2 ^ 31 }
    ensures { result ≡ point_in reach x.now y.now z.now }
{
    let x = read_signed(x.as_bytes(), reach)?;
    let y = read_signed(y.as_bytes(), reach)?;
    let z = read_signed(z.as_bytes(), reach)?;
    Some(Point { x, y, z })
}

/// The view from an eye, with the focal number, threshold and limit that three words spell.
pub fn read_view(eye: Option<Point>, focal: &str, threshold: &str, limit: &str) -> Option<View>
    ensures { result ≡ view_in eye focal.now threshold.now limit.now }
{
    let eye = eye?;
    let focal = read_number(focal.as_bytes(), u64::from(GREATEST_FOCAL))?;
    let threshold = read_number(threshold.as_bytes(), u64::from(GREATEST_THRESHOLD))?;
    let limit = read_number(limit.as_bytes(), u64::from(u32::MAX))?;
    View::new(eye, focal as u32, threshold as u32, limit as u32)
}

/// The half-space that four words spell.
pub fn read_half_space(a: &str, b: &str, c: &str, d: &str) -> Option<HalfSpace>
    ensures { result ≡ half_space_in a.now b.now c.now d.now }
{
    let normal = read_point(NORMAL_REACH, a, b, c)?;
    let level = read_wide_signed(d.as_bytes(), LEVEL_REACH)?;
    HalfSpace::new(normal.x, normal.y, normal.z, level)
}

// The planes with the half-spaces behind them that the words spell, four each.
fn add_half_spaces(mut planes: Planes, words: &[String]) -> Option<Planes>
    ensures { result ≡ with_half_spaces (Some planes) (map string_bytes words.now) }
{
    let mut rest = words;
    while let [a, b, c, d, others @ ..] = rest {
        let plane = read_half_space(a.as_str(), b.as_str(), c.as_str(), d.as_str())?;
        if !planes.add(plane) {
            return None;
        }
        rest = others;
    }
    rest.is_empty().then_some(planes)
}

/// The view with the half-spaces that the words spell, four each: one to six.
pub fn read_planes(view: Option<View>, words: &[String]) -> Option<Planes>
    ensures { result ≡ planes_in view (map string_bytes words.now) }
{
    let view = view?;
    if words.is_empty() {
        return None;
    }
    add_half_spaces(Planes::new(view), words)
}

// The ray from a point on in a direction.
fn ray_from(origin: Option<Point>, direction: Option<Point>) -> Option<Ray>
    ensures { result ≡ ray_from origin direction }
{
    let origin = origin?;
    let direction = direction?;
    Ray::new(origin, direction)
}

/// The ray that the words spell, its origin first.
pub fn read_ray(words: &[String]) -> Option<Ray>
    ensures { result ≡ ray_in (map string_bytes words.now) }
{
    match words {
        [x, y, z, to_x, to_y, to_z] => {
            let origin = read_point(ORIGIN_REACH, x.as_str(), y.as_str(), z.as_str());
            let direction = read_point(
                DIRECTION_REACH,
                to_x.as_str(),
                to_y.as_str(),
                to_z.as_str(),
            );
            ray_from(origin, direction)
        }
        _ => None,
    }
}
