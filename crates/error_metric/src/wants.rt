//! What is wanted of a mesh.

ghost use Rattle.std.specs.Prelude.{◌≡◌, ℕ, ◌<◌, List, length, slice_get, Some};
ghost use Rattle.mesh_model.specs.Meshes.{MeshLists, IsMesh};
ghost use Rattle.round_laws.specs.Parents.{FallsAlong};
ghost use Rattle.round_model.specs.Views.{rules_of};

use accepted_mesh::Mesh;

/// Tells how much each node of a mesh is wanted. Along an arc into a node that isn't a sink the score
/// doesn't rise, so a node's parents are wanted at least as much as the node.
pub trait Want {
    /// Each node's score.
    ghost scores: { Self → MeshLists → List ℕ };

    /// The score that a wanted node is above.
    ghost least: { Self → ℕ };

    /// The node's score. Condition: the node is one of the mesh.
    fn score(&self, mesh: &Mesh, node: u32) -> u64
        requires { node < length mesh.now.lists.index.nodes }
        ensures { slice_get (scores self.now mesh.now.lists) node ≡ Some result };

    /// The score that a wanted node is above.
    fn threshold(&self) -> u64
        ensures { result ≡ least self.now };

    // One score a node,
    ghost as_many: { (want : Self) (mesh : MeshLists)
        → length (scores want mesh) ≡ length mesh.index.nodes };

    // and none above its parents'.
    ghost falls: { (want : Self) (mesh : MeshLists) (limit : ℕ) → IsMesh mesh
        → FallsAlong (rules_of mesh (scores want mesh) (least want) limit) };
}
