//! Loading bodies again.

ghost use Rattle.std.specs.Prelude.{◌≡◌, ◌<◌, [], ◌∷◌, length, map, All, IfOk, IfErr, IfSome, MatchResult};
ghost use Rattle.std.specs.Arc.{arc_value};
ghost use Rattle.view_outside.specs.Files.{HasFile, file_bytes};
ghost use Rattle.view_outside.specs.OnlyRead.{OnlyIf, OnlyRead};
ghost use Rattle.view_outside.specs.Taken.{taken_after, RisesBelow, RisesAtMost};
ghost use Rattle.patch_file.specs.BodyRead.{IsBodyOf};
ghost use Rattle.body_loads.specs.declared.refusals.LoadRefusal.TheVariants.{ReadFault};
ghost use Rattle.body_loads.specs.Loads.{body_at, AreBodiesAt, RefusesLoad, NamesOneOf, IsBodyChange, size_at, sizes_sum, read_as, patches_of};

use crate::refusals::LoadRefusal;
use file_model::ReadRefusal;
use patch_file::{Body, Index, read_body};
use std::alloc::Global;
use std::sync::Arc;
use view_outside::Store;

/// Loads the body of this patch once more. `Changed` is how its bytes break the body rule now.
pub fn load_body<S: Store>(
    alloc: Global,
    index: &Index,
    store: &mut S,
    file: u32,
    patch: u32,
) -> Result<Arc<Body>, LoadRefusal>
    requires file { HasFile (S.files store.old) file }
    requires patch { patch < length index.now.fields }
    ensures told { IfSome (file_bytes (S.files store.old) file) (λ bytes. MatchResult result
        (λ body. body_at index.now bytes patch ≡ read_as (arc_value body))
        (RefusesLoad index.now bytes (patch ∷ []))) }
    ensures body { IfOk result (λ body. IsBodyOf index.now patch (arc_value body)) }
    ensures names { IfErr result (NamesOneOf (patch ∷ [])) }
    ensures changed { IfErr result IsBodyChange }
    ensures store { OnlyRead ReadFault (S.files store.old) (S.files store.new)
        (S.faults store.old) (S.faults store.new) result }
    ensures taken { IfOk result
        (λ _. S.taken store.new ≡ taken_after (S.taken store.old) (size_at index.now patch)) }
    ensures most { RisesAtMost (S.taken store.old) (S.taken store.new) (size_at index.now patch) }
    ensures cut { IfErr result (OnlyIf ReadFault
        (RisesBelow (S.taken store.old) (S.taken store.new) (size_at index.now patch))) }
{
    match read_body(alloc, index, store, file, patch) {
        Ok(body) => Ok(Arc::new(alloc, body)?),
        Err(ReadRefusal::File(fault)) => Err(LoadRefusal::Changed(patch, fault)),
        Err(ReadRefusal::ReadFault) => Err(LoadRefusal::ReadFault),
        Err(ReadRefusal::Memory) => Err(LoadRefusal::Memory),
    }
}

/// Loads the bodies of these patches, in order. `Changed` is the first of them whose bytes break the body
/// rule now, which no file of bytes that don't change has once it was accepted.
pub fn load_bodies<S: Store>(
    alloc: Global,
    index: &Index,
    store: &mut S,
    file: u32,
    patches: &[u32],
) -> Result<Vec<Arc<Body>>, LoadRefusal>
    requires file { HasFile (S.files store.old) file }
    requires patches { All (λ patch. patch < length index.now.fields) patches.now }
    ensures told { IfSome (file_bytes (S.files store.old) file) (λ bytes. MatchResult result
        (λ bodies. AreBodiesAt index.now bytes patches.now (map arc_value bodies.items))
        (RefusesLoad index.now bytes patches.now)) }
    ensures patches { IfOk result
        (λ bodies. patches_of (map arc_value bodies.items) ≡ patches.now) }
    ensures bodies { IfOk result
        (λ bodies. All (λ body. IsBodyOf index.now body.patch body) (map arc_value bodies.items)) }
    ensures names { IfErr result (NamesOneOf patches.now) }
    ensures changed { IfErr result IsBodyChange }
    ensures store { OnlyRead ReadFault (S.files store.old) (S.files store.new)
        (S.faults store.old) (S.faults store.new) result }
    ensures taken { IfOk result
        (λ _.
        S.taken store.new
        ≡ taken_after (S.taken store.old) (sizes_sum index.now patches.now)) }
    ensures most { RisesAtMost (S.taken store.old) (S.taken store.new)
        (sizes_sum index.now patches.now) }
    ensures cut { IfErr result (OnlyIf ReadFault
        (RisesBelow (S.taken store.old) (S.taken store.new) (sizes_sum index.now patches.now))) }
{
    let mut bodies = Vec::with_capacity(alloc, patches.len())?;
    for patch in patches {
        let body = load_body(alloc, index, store, file, *patch)?;
        bodies.push(body)?;
    }
    Ok(bodies)
}
