//! What the calls of one run agree on.

use std::marker::Brand;

/// Names one table, one setup and one lent store, for contracts alone: no call reads them. Types that have to agree
/// carry the same name.
pub trait Naming {
    ghost use Rattle.std.specs.Prelude.{◌≡◌, ℕ, length};
    ghost use Rattle.std.specs.Borrow.{GName};
    ghost use Rattle.atomic_table.specs.Seated.{TableId};
    ghost use Rattle.token_table.specs.Setups.{Setup};

    ghost table: { TableId };

    /// How many sessions the table was made with.
    ghost sessions: { ℕ };

    ghost setup: { Setup };

    /// Which store the lowest tier was lent.
    ghost lender: { GName };

    /// The table has a word for each patch of the setup's mesh.
    ghost fits: { table.words ≡ length setup.mesh.fields };
}

/// A name that stands for no run: a caller that begins one puts its own in this one's place.
impl Naming for Brand {
    ghost use Rattle.std.specs.Prelude.{refl};
    ghost use Rattle.token_table.specs.Setups.{no_table, no_setup};

    ghost table = { no_table };

    ghost sessions = { 0 };

    ghost setup = { no_setup };

    ghost lender = { 0 };

    ghost fits = { refl };
}
