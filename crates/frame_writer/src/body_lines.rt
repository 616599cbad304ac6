//! The lines of a body's triangles: each point is spelled once, though several triangles share it.

ghost use Rattle.std.specs.Prelude.{◌≡◌, ◌<◌, length, map, slice_get, Some, OnOk, OnErr};
ghost use Rattle.std.specs.List.{flat_map};
ghost use Rattle.file_model.specs.Lists.{triangles_of};
ghost use Rattle.text_model.specs.FrameText.{triangle_line};
ghost use Rattle.text_model.specs.Lines.{Adds};
ghost use Rattle.frame_writer.specs.Appending.{Begins};
ghost use Rattle.frame_writer.specs.PointTexts.{shown_point, corners_line};

use crate::point_texts::PointText;
use grid_vertex::NoMemory;
use patch_file::Body;

/// Puts the texts of the body's points in place of those that stood there.
pub fn find_texts(body: &Body, texts: &mut Vec<PointText>) -> Result<(), NoMemory>
    ensures { OnOk result (texts.new.items ≡ map shown_point body.now.lists.points) }
{
    texts.clear();
    for point in 0..body.point_count() {
        texts.push(PointText::new(body.point(point)))?;
    }
    Ok(())
}

/// The text of the point at a place.
fn text_at(texts: &[PointText], place: u16) -> &PointText
    requires { place < length texts.now }
    ensures { slice_get texts.now place ≡ Some result.now }
{
    &texts[usize::from(place)]
}

/// Appends the texts of three corners as a line.
#[tactic(auto, unfolding(crate::specs::PointTexts::corners_line))]
fn write_corners(
    a: &PointText,
    b: &PointText,
    c: &PointText,
    out: &mut Vec<u8>,
) -> Result<(), NoMemory>
    ensures ok { OnOk result (Adds out.old.items out.new.items (corners_line a.now b.now c.now)) }
    ensures err { OnErr result (Begins out.old.items out.new.items) }
{
    out.extend_from_slice(a.as_bytes())?;
    out.push(b' ')?;
    out.extend_from_slice(b.as_bytes())?;
    out.push(b' ')?;
    out.extend_from_slice(c.as_bytes())?;
    out.push(b'\n')?;
    Ok(())
}

/// Appends the lines of the body's triangles, put together from the texts of its points.
pub fn write_lines(body: &Body, texts: &[PointText], out: &mut Vec<u8>) -> Result<(), NoMemory>
    requires { texts.now ≡ map shown_point body.now.lists.points }
    ensures ok { OnOk result (Adds out.old.items out.new.items
        (flat_map triangle_line (triangles_of body.now.lists))) }
    ensures err { OnErr result (Begins out.old.items out.new.items) }
{
    // The size is read for what is known of a body: its corners are places of its points.
    let _size = body.size();
    for triangle in 0..body.triangle_count() {
        let [a, b, c] = body.corners(triangle);
        let first = text_at(texts, a);
        let second = text_at(texts, b);
        let third = text_at(texts, c);
        write_corners(first, second, third, out)?;
    }
    Ok(())
}
