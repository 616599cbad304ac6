//! The node whose patches are tried.

ghost use Rattle.std.specs.Prelude.{◌≡◌, ℕ, List, length};
ghost use Rattle.cut_refiner.specs.CutLists.{HaveRoom};
ghost use Rattle.cut_refiner.specs.RefinementStates.{IsGoing, IsNext};
ghost use Rattle.cut_refiner.specs.Hands.{AreLists};

use crate::cut_lists::CutLists;
use crate::refinement_states::RefinementState;
use crate::round_rules::RoundRules;

/// The next node whose patches are tried. Where there is none the set is listed.
pub fn go_on(
    rules: &RoundRules,
    refinement: &mut RefinementState,
    lists: &mut CutLists,
) -> Option<u32>
    requires going { (rest : List ℕ) × IsGoing rules.now rest refinement.old }
    requires lists { HaveRoom (length rules.now.mesh.index.nodes)
        (length rules.now.mesh.index.fields) lists.old }
    ensures growing { refinement.new.growing ≡ refinement.old.growing }
    ensures next { (rest : List ℕ) → IsGoing rules.now rest refinement.old
        → IsNext rules.now rest refinement.new result }
    ensures lists { AreLists rules.now refinement.new.growing.in_cut.items lists.new result }
{
    match refinement.next(rules) {
        Some(node) => Some(node),
        None => {
            lists.fill(&refinement.growing.in_cut, rules.mesh().index().fields());
            None
        }
    }
}
