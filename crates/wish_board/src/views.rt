//! What a session posts: a view that is scored.

ghost use Rattle.std.specs.Prelude.{◌≡◌, ◌<◌, length, IfOk};
ghost use Rattle.tier_model.specs.Ranks.{view_wish};
ghost use Rattle.wish_board.specs.Boards.{posted_view, no_posted};

use accepted_mesh::Mesh;
use error_metric::{Want, scores_of};
use grid_vertex::NoMemory;
use std::alloc::Global;
use std::marker::Model;
use token_words::SESSIONS;

/// A view that is ready to be posted, by any session: each node's score in it, and the score that a node
/// it wants is above.
#[derive(Drop)]
pub struct ReadyView {
    scores: Vec<u64>,
    threshold: u64,
}

impl Model for ReadyView {
    ghost use Rattle.tier_model.specs.Ranks.{Posted};

    ghost Value = { Posted };

    ghost view = { λ v. record { scores = v.scores.items; threshold = v.threshold } };
}

impl ReadyView {
    /// What is wanted of the mesh. All the memory and the time that a view costs are taken here, before a
    /// board is at hand.
    pub fn of<W: Want>(alloc: Global, mesh: &Mesh, want: &W) -> Result<ReadyView, NoMemory>
        ensures value { IfOk result
            (λ view. view ≡ posted_view (W.scores want.now mesh.now.lists) (W.least want.now)) }
        ensures scored { IfOk result
            (λ view. length view.scores ≡ length mesh.now.lists.index.nodes) }
    {
        Ok(ReadyView {
            scores: scores_of(alloc, mesh, want)?,
            threshold: want.threshold(),
        })
    }

    /// The node's score, and 0 where the view doesn't want the node.
    pub(crate) fn wish(&self, node: usize) -> u64
        requires { node < length self.now.scores }
        ensures { result ≡ view_wish self.now node }
    {
        let score = self.scores[node];
        if self.threshold < score { score } else { 0 }
    }
}

/// No session has a view.
pub fn no_views(alloc: Global) -> Result<Vec<Option<ReadyView>>, NoMemory>
    ensures { IfOk result (λ views. views.items ≡ no_posted) }
{
    let mut views = Vec::with_capacity(alloc, SESSIONS as usize)?;
    for _session in 0..SESSIONS {
        views.push(None)?;
    }
    Ok(views)
}
