//! Which patch leaves.

ghost use Rattle.std.specs.Prelude.{◌≡◌, ◌<◌, ◌≤◌, true, false, [], ◌++◌, MatchOption};
ghost use Rattle.std.specs.Option.{option_and_then};
ghost use Rattle.token_words.specs.Changes.{Stays, SetsStay};
ghost use Rattle.token_words.specs.Sessions.{session_count};
ghost use Rattle.tier_model.specs.Places.{is_marked};
ghost use Rattle.tier_model.specs.Tiers.{count, is_held, IsTier};
ghost use Rattle.tier_model.specs.Changes.{calmed};
ghost use Rattle.tier_model.specs.Choices.{victim};
ghost use Rattle.tier_model.specs.Answers.{IfEvict, IfKept};
ghost use Rattle.tier_model.specs.Turns.{evicting, uses_in, paired};
ghost use Rattle.tier_model.specs.Ties.{IsTied};
ghost use Rattle.transfer_step.specs.TurnWords.{TurnsEpochs, IsLeaving, misses_in};

use tier_budget::{Tier, Turn};
use token_words::{Evict, Keeper};

/// The lowest patch that may leave for the candidate, if there is a candidate.
fn find_victim(tier: &Tier, ahead: Option<u32>) -> Option<u32>
    requires { MatchOption ahead (Unit {0}) (λ p. p < count tier.now.state) }
    ensures { result ≡ option_and_then (victim tier.now.state) ahead }
{
    tier.least_held(ahead?)
}

/// Evicts the patch, unless it is in use. Condition: the patch is held and not pinned, nothing comes, and
/// the journal has a place.
fn evict<K: Keeper>(tier: &mut Tier, keeper: &mut K, patch: u32) -> Turn
    requires within { patch < count tier.old.state }
    requires held { is_held tier.old.state patch ≡ true }
    requires free { is_marked tier.old.state.pinned patch ≡ false }
    requires none_come { tier.old.state.coming ≡ [] }
    requires place { 1 ≤ tier.old.spare }
    requires words { K.has_words ≡ true → count tier.old.state ≤ K.patches keeper.old }
    requires tied { K.has_words ≡ true
        → IsTied tier.old.state (K.epochs keeper.old) (K.pinned keeper.old) }
    ensures answer { paired result tier.new.state
        ≡ evicting K.has_words tier.old.state patch (uses_in result) }
    ensures kind { IsLeaving result }
    ensures kept { IsTier tier.new.state }
    ensures records { tier.new.records ≡ tier.old.records }
    ensures epochs { TurnsEpochs K.has_words result (K.epochs keeper.old) (K.epochs keeper.new) }
    ensures free { K.has_words ≡ true → K.tells_sets ≡ true
        → IfEvict result (λ p. session_count (λ session. K.session_uses keeper.old session p) ≡ 0) }
    ensures found { K.has_words ≡ true → K.tells_sets ≡ true
        → IfKept result
        (λ p uses. uses ≡ session_count (λ session. K.session_uses keeper.old session p)) }
    ensures misses { K.tells_misses ≡ true
        → K.misses keeper.new ≡ K.misses keeper.old ++ misses_in result }
    ensures pins { Stays (K.pinned keeper.old) (K.pinned keeper.new) }
    ensures use_sets { K.tells_sets ≡ true
        → SetsStay (K.session_uses keeper.old) (K.session_uses keeper.new) }
    ensures lock_sets { K.tells_sets ≡ true
        → SetsStay (K.session_locks keeper.old) (K.session_locks keeper.new) }
    ensures keeper { (K.place keeper.new ≡ K.place keeper.old)
        × (K.patches keeper.new ≡ K.patches keeper.old) }
{
    match keeper.evict(patch) {
        Evict::Gone => {
            tier.drop_held(patch);
            Turn::Evict(patch)
        }
        Evict::Kept(uses) => {
            tier.pass_over(patch);
            Turn::Kept(patch, uses)
        }
    }
}

/// Evicts the victim for the candidate, or rests where there is none. Condition: nothing comes, and the
/// journal has a place.
pub fn evict_or_rest<K: Keeper>(tier: &mut Tier, keeper: &mut K, ahead: Option<u32>) -> Turn
    requires ahead { MatchOption ahead (Unit {0}) (λ p. p < count tier.old.state) }
    requires none_come { tier.old.state.coming ≡ [] }
    requires place { 1 ≤ tier.old.spare }
    requires words { K.has_words ≡ true → count tier.old.state ≤ K.patches keeper.old }
    requires tied { K.has_words ≡ true
        → IsTied tier.old.state (K.epochs keeper.old) (K.pinned keeper.old) }
    ensures answer { MatchOption (option_and_then (victim tier.old.state) ahead)
        (paired result tier.new.state ≡ paired Turn.Idle (calmed tier.old.state))
        (λ p.
        paired result tier.new.state
        ≡ evicting K.has_words tier.old.state p (uses_in result)) }
    ensures kind { IsLeaving result }
    ensures kept { IsTier tier.new.state }
    ensures records { tier.new.records ≡ tier.old.records }
    ensures epochs { TurnsEpochs K.has_words result (K.epochs keeper.old) (K.epochs keeper.new) }
    ensures free { K.has_words ≡ true → K.tells_sets ≡ true
        → IfEvict result (λ p. session_count (λ session. K.session_uses keeper.old session p) ≡ 0) }
    ensures found { K.has_words ≡ true → K.tells_sets ≡ true
        → IfKept result
        (λ p uses. uses ≡ session_count (λ session. K.session_uses keeper.old session p)) }
    ensures misses { K.tells_misses ≡ true
        → K.misses keeper.new ≡ K.misses keeper.old ++ misses_in result }
    ensures pins { Stays (K.pinned keeper.old) (K.pinned keeper.new) }
    ensures use_sets { K.tells_sets ≡ true
        → SetsStay (K.session_uses keeper.old) (K.session_uses keeper.new) }
    ensures lock_sets { K.tells_sets ≡ true
        → SetsStay (K.session_locks keeper.old) (K.session_locks keeper.new) }
    ensures keeper { (K.place keeper.new ≡ K.place keeper.old)
        × (K.patches keeper.new ≡ K.patches keeper.old) }
{
    match find_victim(tier, ahead) {
        Some(patch) => evict(tier, keeper, patch),
        None => {
            tier.calm();
            Turn::Idle
        }
    }
}
