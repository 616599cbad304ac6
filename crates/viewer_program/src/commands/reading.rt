//! Reading the words.

ghost use Rattle.std.specs.Prelude.{◌≡◌, map, string_bytes, IfSome};
ghost use Rattle.viewer_program.specs.Commands.{command_in, command_named, command_alone, convert_in, full_in, cull_in, sides_in, pick_from, pick_in, name_in, IsKnown};

use super::FileCommand;
use super::spelt::{read_half_space, read_planes, read_point, read_ray, read_version, read_view};
use ray_pick::Ray;
use round_model::{EYE_REACH, View};

/// The command that the words name; none where they are no command. They don't include the
/// program's name.
pub fn command_of(words: &[String]) -> Option<FileCommand>
    ensures value { result ≡ command_in (map string_bytes words.now) }
    ensures known { IfSome result IsKnown }
{
    match words {
        [first, name, numbers @ ..] => command_named(first.as_str(), name.as_str(), numbers),
        _ => None,
    }
}

// The command of a word, a file's name and the words behind it.
fn command_named(first: &str, name: &str, words: &[String]) -> Option<FileCommand>
    ensures value { result ≡ command_named first.now name.now (map string_bytes words.now) }
    ensures known { IfSome result IsKnown }
{
    if name.is_empty() {
        return None;
    }
    match first {
        "base" => command_alone(FileCommand::Base, words),
        "check" => command_alone(FileCommand::Check, words),
        "full" => read_full(words),
        "convert" => read_convert(words),
        "cull" => read_cull(words),
        "sides" => read_sides(words),
        "pick" => read_pick(words),
        _ => None,
    }
}

// The command, where there is no word.
fn command_alone(command: FileCommand, words: &[String]) -> Option<FileCommand>
    requires { IsKnown command }
    ensures value { result ≡ command_alone command (map string_bytes words.now) }
    ensures known { IfSome result IsKnown }
{
    words.is_empty().then_some(command)
}

// The view that the words spell.
fn read_full(words: &[String]) -> Option<FileCommand>
    ensures value { result ≡ full_in (map string_bytes words.now) }
    ensures known { IfSome result IsKnown }
{
    match words {
        [x, y, z, focal, threshold, limit] => {
            let eye = read_point(EYE_REACH, x.as_str(), y.as_str(), z.as_str());
            let view = read_view(eye, focal.as_str(), threshold.as_str(), limit.as_str())?;
            Some(FileCommand::Full(view))
        }
        _ => None,
    }
}

// The version that the word spells.
fn read_convert(words: &[String]) -> Option<FileCommand>
    ensures value { result ≡ convert_in (map string_bytes words.now) }
    ensures known { IfSome result IsKnown }
{
    match words {
        [version] => Some(FileCommand::Convert(read_version(version.as_str())?)),
        _ => None,
    }
}

// The view and the half-spaces that the words spell.
fn read_cull(words: &[String]) -> Option<FileCommand>
    ensures value { result ≡ cull_in (map string_bytes words.now) }
    ensures known { IfSome result IsKnown }
{
    match words {
        [x, y, z, focal, threshold, limit, numbers @ ..] => {
            let eye = read_point(EYE_REACH, x.as_str(), y.as_str(), z.as_str());
            let view = read_view(eye, focal.as_str(), threshold.as_str(), limit.as_str());
            Some(FileCommand::Cull(read_planes(view, numbers)?))
        }
        _ => None,
    }
}

// The half-space that the words spell.
fn read_sides(words: &[String]) -> Option<FileCommand>
    ensures value { result ≡ sides_in (map string_bytes words.now) }
    ensures known { IfSome result IsKnown }
{
    match words {
        [a, b, c, d] => {
            let plane = read_half_space(a.as_str(), b.as_str(), c.as_str(), d.as_str())?;
            Some(FileCommand::Sides(plane))
        }
        _ => None,
    }
}

// The command, where both are there.
fn pick_of(view: Option<View>, ray: Option<Ray>) -> Option<FileCommand>
    ensures value { result ≡ pick_from view ray }
    ensures known { IfSome result IsKnown }
{
    let view = view?;
    let ray = ray?;
    Some(FileCommand::Pick(view, ray))
}

// The view and the ray that the words spell.
fn read_pick(words: &[String]) -> Option<FileCommand>
    ensures value { result ≡ pick_in (map string_bytes words.now) }
    ensures known { IfSome result IsKnown }
{
    match words {
        [x, y, z, focal, threshold, limit, numbers @ ..] => {
            let eye = read_point(EYE_REACH, x.as_str(), y.as_str(), z.as_str());
            let view = read_view(eye, focal.as_str(), threshold.as_str(), limit.as_str());
            pick_of(view, read_ray(numbers))
        }
        _ => None,
    }
}

/// The name of the file that the words name; empty where they name none.
pub fn file_name(words: &[String]) -> &str
    ensures { result.now ≡ name_in (map string_bytes words.now) }
{
    match words {
        [_, name, ..] => name.as_str(),
        _ => "",
    }
}
