//! A look-up over a link in memory.

ghost use Rattle.std.specs.Prelude.{◌≡◌, ◌-◌, ◌^◌, ◌<◌, true, IfOk, OnErr};
ghost use Rattle.view_outside.specs.Faults.{Rose};
ghost use Rattle.view_outside.specs.Files.{HasName};
ghost use Rattle.view_outside.specs.Messages.{IsName};
ghost use Rattle.memory_link.specs.MemoryLinks.{tells_far, IsLostStore};

use crate::memory_link::MemoryLink;
use patch_link::LinkStore;
use view_outside::{Failed, Store};

/// The number of the first file of this name on the far side. Where at most each third message is lost, it fails only
/// where the far store failed or has no such name. Where each is lost, or each second, it fails, and so does each call
/// after it.
pub fn find_far<S: Store>(
    store: &mut LinkStore<MemoryLink<'_, S>>,
    name: &str,
) -> Result<u32, Failed>
    ensures cause { tells_far store.old.link.lose ≡ true → IsName name.now → store.old.number < 2 ^ 64 - 1
        → OnErr result (HasName (S.files store.old.link.store) name.now
        → Rose (S.faults store.old.link.store) (S.faults store.new.link.store)) }
    ensures lost { IsLostStore store.old → IfOk result (λ _. ⊥) }
    ensures stays { IsLostStore store.old → IsLostStore store.new }
{
    store.find(name)
}
