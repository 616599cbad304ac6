//! Loading all bodies of a file.

ghost use Rattle.std.specs.Prelude.{◌≡◌, map, IfOk, IfErr, IfSome, MatchResult};
ghost use Rattle.std.specs.Arc.{arc_value};
ghost use Rattle.file_model.specs.Lists.{bodies_size};
ghost use Rattle.view_outside.specs.Files.{HasFile, file_bytes};
ghost use Rattle.view_outside.specs.OnlyRead.{OnlyIf, OnlyRead};
ghost use Rattle.view_outside.specs.Taken.{taken_after, RisesBelow};
ghost use Rattle.body_loads.specs.declared.refusals.LoadRefusal.TheVariants.{ReadFault};
ghost use Rattle.body_loads.specs.Loads.{AreBodiesAt, RefusesLoad, NamesOneOf, IsBodyChange};
ghost use Rattle.file_convert.specs.Held.{HoldsBodies};
ghost use Rattle.file_convert.specs.Whole.{all_patches};

use body_loads::{LoadRefusal, load_bodies};
use grid_vertex::NoMemory;
use patch_file::{Body, Index};
use std::alloc::Global;
use std::sync::Arc;
use view_outside::Store;

/// All patches of the index, ascending.
fn all_patches(alloc: Global, index: &Index) -> Result<Vec<u32>, NoMemory>
    ensures { IfOk result (λ patches. patches.items ≡ all_patches index.now) }
{
    Ok((0..index.patch_count()).collect(alloc)?)
}

/// Loads the bodies of all patches of a file that was checked before, once more and in order. `Changed` is
/// the first patch whose bytes break the body rule now.
pub fn load_all<S: Store>(
    alloc: Global,
    index: &Index,
    store: &mut S,
    file: u32,
) -> Result<Vec<Arc<Body>>, LoadRefusal>
    requires { HasFile (S.files store.old) file }
    ensures told { IfSome (file_bytes (S.files store.old) file) (λ bytes. MatchResult result
        (λ bodies.
        AreBodiesAt index.now bytes (all_patches index.now) (map arc_value bodies.items))
        (RefusesLoad index.now bytes (all_patches index.now))) }
    ensures bodies { IfOk result (λ bodies. HoldsBodies index.now (map arc_value bodies.items)) }
    ensures names { IfErr result (NamesOneOf (all_patches index.now)) }
    ensures changed { IfErr result IsBodyChange }
    ensures taken { IfOk result
        (λ _. S.taken store.new
        ≡ taken_after (S.taken store.old) (bodies_size index.now.version index.now.fields)) }
    ensures cut { IfErr result (OnlyIf ReadFault
        (RisesBelow (S.taken store.old) (S.taken store.new)
        (bodies_size index.now.version index.now.fields))) }
    ensures store { OnlyRead ReadFault (S.files store.old) (S.files store.new)
        (S.faults store.old) (S.faults store.new) result }
{
    let patches = all_patches(alloc, index)?;
    load_bodies(alloc, index, store, file, &patches)
}
