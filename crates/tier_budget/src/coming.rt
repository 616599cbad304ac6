//! The patches that come, in their order.

ghost use Rattle.std.specs.Prelude.{◌≡◌, Some, vec_capacity};
ghost use Rattle.tier_model.specs.Places.{is_coming, first_coming, first_bare, with_body, without};

use tier_model::Coming;

/// Whether the patch comes.
pub fn comes(coming: &[Coming], patch: u32) -> bool
    ensures { result ≡ is_coming coming.now patch }
{
    for one in coming {
        if one.patch == patch {
            return true;
        }
    }
    false
}

/// The first patch that comes.
pub fn first_patch(coming: &[Coming]) -> Option<u32>
    ensures { result ≡ first_coming coming.now }
{
    coming.first().map(|one| one.patch)
}

/// The first patch that comes without a body.
pub fn first_without_body(coming: &[Coming]) -> Option<u32>
    ensures { result ≡ first_bare coming.now }
{
    for one in coming {
        if !one.has_body {
            return Some(one.patch);
        }
    }
    None
}

/// The body of the patch is there.
pub fn give_body(coming: &mut [Coming], patch: u32)
    ensures { coming.new ≡ with_body patch coming.old }
{
    for one in coming.iter_mut() {
        if one.patch == patch {
            one.has_body = true;
        }
    }
}

/// The patch comes no more.
pub fn take_out(coming: &mut Vec<Coming>, patch: u32)
    ensures items { coming.new.items ≡ without patch coming.old.items }
    ensures capacity { vec_capacity coming.new ≡ vec_capacity coming.old }
{
    coming.retain(|one| one.patch != patch);
}
