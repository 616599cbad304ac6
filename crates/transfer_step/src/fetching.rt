//! The fetch of a body.

ghost use Rattle.std.specs.Prelude.{◌≡◌, ◌<◌, ◌≤◌, true, Some, IfOk, OnErr, MatchResult};
ghost use Rattle.view_outside.specs.Faults.{Rose};
ghost use Rattle.view_outside.specs.Taken.{RisesAtMost};
ghost use Rattle.tier_model.specs.Places.{first_bare};
ghost use Rattle.tier_model.specs.Tiers.{size, body_at, IsTier};
ghost use Rattle.tier_model.specs.Answers.{IfGot, IfFault, IfChanged};
ghost use Rattle.tier_model.specs.Turns.{fetching, fetched_in, paired, BringsBody};
ghost use Rattle.transfer_step.specs.TurnWords.{IsFetching, TurnTakes};

use crate::fetches::Fetch;
use crate::supplies::Supply;
use grid_vertex::NoMemory;
use std::alloc::Global;
use tier_budget::{Abort, Tier, Turn};

/// Fetches the first patch that comes without a body. Condition: the patch is that one, and the journal
/// has a place.
pub fn fetch_patch<B: Supply>(
    alloc: Global,
    tier: &mut Tier,
    below: &mut B,
    patch: u32,
) -> Result<Turn, NoMemory>
    requires supply { B.sizes (B.place below.old) ≡ tier.old.state.sizes }
    requires bare { first_bare tier.old.state.coming ≡ Some patch }
    requires place { 1 ≤ tier.old.spare }
    ensures answer { IfOk result
        (λ a.
        paired a tier.new.state
        ≡ fetching (B.has (B.place below.old) patch) tier.old.state patch
        (fetched_in a tier.new.state)) }
    ensures kind { IfOk result IsFetching }
    ensures none { OnErr result (tier.new.state ≡ tier.old.state) }
    ensures kept { IsTier tier.new.state }
    ensures records { tier.new.records ≡ tier.old.records }
    ensures brings { IfOk result (λ a. BringsBody tier.old.state.sizes a tier.new.state) }
    ensures got { IfOk result
        (λ a. IfGot a (λ p. B.gives (B.place below.old) p (body_at tier.new.state p))) }
    ensures fault { IfOk result
        (λ a. IfFault a (λ _. Rose (B.faults below.old) (B.faults below.new))) }
    ensures changed { IfOk result (λ a. IfChanged a (B.finds (B.place below.old))) }
    ensures taken { B.tells_taken ≡ true → MatchResult result
        (λ a. TurnTakes tier.old.state.sizes a (B.taken below.old) (B.taken below.new))
        (λ _. RisesAtMost (B.taken below.old) (B.taken below.new) (size tier.old.state patch)) }
    ensures later { B.faults below.old ≤ B.faults below.new }
    ensures supply { B.place below.new ≡ B.place below.old }
{
    let _ = tier.budget();
    match below.fetch(alloc, patch)? {
        Fetch::Body(body) => {
            tier.arrive(body);
            Ok(Turn::Got(patch))
        }
        Fetch::Lost => {
            tier.abort(Abort::Lost);
            Ok(Turn::Lost(patch))
        }
        Fetch::Fault => {
            tier.abort(Abort::Fault);
            Ok(Turn::Fault(patch))
        }
        Fetch::Changed(fault) => {
            tier.abort(Abort::Changed(fault));
            Ok(Turn::Changed(patch, fault))
        }
    }
}
