//! How the tiers of a chain open.

ghost use Rattle.std.specs.Prelude.{◌≡◌, ◌<◌, ◌≤◌, length, map, slice_index, All, IfOk, IfErr, IfSome, Err};
ghost use Rattle.std.specs.Arc.{arc_value};
ghost use Rattle.view_outside.specs.Files.{HasFile, file_bytes};
ghost use Rattle.view_outside.specs.Taken.{taken_after, RisesAtMost};
ghost use Rattle.mesh_model.specs.Graph.{outgoing};
ghost use Rattle.tier_model.specs.Tiers.{IsWidth};
ghost use Rattle.tier_model.specs.Changes.{fresh};
ghost use Rattle.body_loads.specs.Loads.{sizes_sum};
ghost use Rattle.cache_chain.specs.ChainStates.{states_of, AreTiersOf};
ghost use Rattle.cache_chain.specs.Opening.{IsOpened, with_pins, MayPinAll};
ghost use Rattle.cache_chain.specs.Refusals.{base_size, NamesBudget, NamesChange, NamesBodyFault, HasReason};
ghost use Rattle.cache_chain.specs.declared.refusals.StartRefusal.TheVariants.{Budget};

use crate::refusals::StartRefusal;
use accepted_mesh::Mesh;
use arrayvec::ArrayVec;
use body_loads::load_bodies;
use grid_vertex::NoMemory;
use patch_file::{Body, Index};
use std::alloc::Global;
use std::sync::Arc;
use tier_budget::Tier;
use view_outside::Store;

/// How many bytes the bodies of these patches have together.
fn size_of_all(index: &Index, patches: &[u32]) -> u64
    requires patches { All (λ patch. patch < length index.now.fields) patches.now }
    requires few { length patches.now ≤ 65536 }
    ensures { result ≡ sizes_sum index.now patches.now }
{
    let mut sum = 0;
    for patch in patches {
        sum += index.body_size(*patch);
    }
    sum
}

/// A tier for each budget, all of which hold nothing.
fn empty_tiers(
    alloc: Global,
    index: &Index,
    budgets: &[u64],
    width: u32,
) -> Result<ArrayVec<Tier, 4, Global>, NoMemory>
    requires few { length budgets.now ≤ 4 }
    requires width { IsWidth width }
    ensures { IfOk result
        (λ tiers.
        states_of tiers.items ≡ map (λ budget. fresh index.now budget width) budgets.now) }
{
    let mut tiers = ArrayVec::new_in(alloc);
    for budget in budgets {
        tiers.push(Tier::silent(alloc, index, *budget, width)?);
    }
    Ok(tiers)
}

/// Pins these bodies, one after the other.
fn pin_bodies(tier: &mut Tier, bodies: Vec<Arc<Body>>)
    requires { MayPinAll tier.old.state (map arc_value bodies.items) }
    ensures { tier.new.state ≡ with_pins tier.old.state (map arc_value bodies.items) }
{
    for body in bodies {
        tier.pin(body);
    }
}

/// The tiers of a chain over the mesh's file in a store: one for each of these budgets, in bytes, of which the
/// first holds the base patches, pinned, and the others hold nothing. Each takes up to `width` patches, 1 to 8,
/// at a time. Condition: there are 1 to 4 budgets.
///
/// `Budget` comes exactly where the bodies of the base patches have more bytes than the first budget, and then
/// nothing was read. With the mesh and the store, the tiers are a chain's parts.
pub fn open_tiers<S: Store>(
    alloc: Global,
    mesh: &Mesh,
    budgets: &[u64],
    width: u32,
    store: &mut S,
    file: u32,
) -> Result<ArrayVec<Tier, 4, Global>, StartRefusal>
    requires some_budget { 1 ≤ length budgets.now }
    requires few { length budgets.now ≤ 4 }
    requires width { IsWidth width }
    requires file { HasFile (S.files store.old) file }
    ensures opened { IfOk result
        (λ tiers.
        IsOpened mesh.now.lists.index (file_bytes (S.files store.old) file) budgets.now width
        (states_of tiers.items)) }
    ensures are { IfOk result
        (λ tiers.
        AreTiersOf mesh.now.lists.index (file_bytes (S.files store.old) file)
        (states_of tiers.items)) }
    ensures large { slice_index budgets.now 0 < base_size mesh.now.lists
        → result ≡ Err (Budget (base_size mesh.now.lists) (slice_index budgets.now 0)) }
    ensures budget { IfErr result
        (NamesBudget (base_size mesh.now.lists) (slice_index budgets.now 0)) }
    ensures changed { IfErr result NamesBodyFault }
    ensures told { IfSome (file_bytes (S.files store.old) file)
        (λ bytes.
        IfErr result
        (NamesChange mesh.now.lists.index bytes
        (outgoing mesh.now.lists.index.fields mesh.now.lists.root))) }
    ensures reason { IfErr result
        (HasReason (base_size mesh.now.lists) (S.faults store.old) (S.faults store.new)
        (S.taken store.old) (S.taken store.new)) }
    ensures taken { IfOk result
        (λ _. S.taken store.new ≡ taken_after (S.taken store.old) (base_size mesh.now.lists)) }
    ensures most { RisesAtMost (S.taken store.old) (S.taken store.new) (base_size mesh.now.lists) }
    ensures later { S.faults store.old ≤ S.faults store.new }
    ensures files { S.files store.new ≡ S.files store.old }
{
    let index = mesh.index();
    let base = mesh.base();
    let need = size_of_all(index, base);
    let given = budgets[0];
    if need > given {
        return Err(StartRefusal::Budget { need, given });
    }
    let mut tiers = empty_tiers(alloc, index, budgets, width)?;
    let bodies = load_bodies(alloc, index, store, file, base)?;
    pin_bodies(&mut tiers[0], bodies);
    Ok(tiers)
}
