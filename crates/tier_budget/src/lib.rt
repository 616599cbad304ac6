//! A tier of the cache: which patches it holds and which come, within a budget of bytes.
//!
//! A tier's journal says what it did. The bytes of the patches that are held or come never pass the
//! budget, and all memory is taken where a tier is made and where a place in its journal is. What a tier
//! is, and each of its changes, stands in `tier_model`; `docs/MODEL.md` tells it in prose.
//!
//! Only `rank` walks over all patches. Those that are missing and those that may leave stand in two
//! heaps by their wishes, and those that were passed over or put aside are listed.
#![tactic(auto)]

mod aside;
mod coming;
mod journals;
mod leaving;
mod lists;
mod marks;
mod missing;
mod missing_heap;
mod past;
mod patch_words;
mod tiers;
mod wishes;

pub use coming::{comes, first_patch, first_without_body};
pub use tier_model::{Abort, Coming, Turn};
pub use tiers::Tier;
pub use wishes::Wishes;
