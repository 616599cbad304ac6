//! Bodies that may be had at once.

ghost use Rattle.std.specs.Prelude.{◌≡◌, is_some, IfSome};
ghost use Rattle.std.specs.Arc.{arc_value};
ghost use Rattle.live_model.specs.Places.{is_fast};
ghost use Rattle.view_machine.specs.FastBodies.{IsFastBody};
ghost use Rattle.view_machine.specs.Machines.{world_of, run_state};

use crate::machines::Machine;
use patch_body::Body;
use std::sync::Arc;
use view_outside::Store;

impl<'a, S: Store> Machine<'a, S> {
    /// The body of a base patch, or of one that some session has locked: the top tier holds it, and it is its file's.
    /// None of another patch, and of a number that is no patch's.
    pub fn fast_body(&self, patch: u32) -> Option<&Arc<Body>>
        ensures fast { is_some result ≡ is_fast (world_of self.now) (run_state self.now) patch }
        ensures held { IfSome result
            (λ body.
            IsFastBody (world_of self.now) (run_state self.now) patch (arc_value body.now)) }
    {
        if self.words.is_fast(patch) {
            self.chain.top_body(patch)
        } else {
            None
        }
    }
}
