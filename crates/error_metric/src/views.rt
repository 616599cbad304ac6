//! What a view wants of a mesh: its nodes' scores from the eye.

ghost use Rattle.std.specs.Prelude.{◌≡◌, map};
ghost use Rattle.round_model.specs.Scores.{score_of};
ghost use Rattle.error_metric.specs.Laws.{as_many_scores, scores_fall};

use crate::scores::score_of_node;
use crate::wants::Want;
use accepted_mesh::Mesh;
use round_model::View;

impl Want for View {
    ghost scores = { λ seen mesh. map (score_of seen.eye seen.focal) mesh.index.nodes };

    ghost least = { λ seen. seen.threshold };

    ghost as_many = { as_many_scores };

    ghost falls = { scores_fall };

    fn score(&self, mesh: &Mesh, node: u32) -> u64 {
        score_of_node(self.eye(), self.focal(), &mesh.index().node(node))
    }

    fn threshold(&self) -> u64 {
        u64::from(View::threshold(self))
    }
}
