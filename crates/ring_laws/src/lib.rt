//! Laws of sums and products of whole numbers.
//!
//! Code is only the laws' names, on functions that do nothing. The lemmas stand in `specs/`, where other
//! crates cite them.
#![tactic(auto)]

ghost use Rattle.std.specs.Prelude.{◌≡◌, true, List, ℤ};
ghost use Rattle.ring_laws.specs.Ring.{Exp, ◌:-◌, value, terms, are_zero};

/// Two expressions have one value, whatever their unknowns are, where nothing is left of their difference
/// once it is multiplied out.
pub fn equal_terms_have_one_value()
    ensures { (unknowns : List ℤ) (e f : Exp) → are_zero (terms (e :- f)) ≡ true
        → value unknowns e ≡ value unknowns f }
{}
