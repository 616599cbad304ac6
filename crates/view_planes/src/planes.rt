//! Views with half-spaces.

ghost use Rattle.std.specs.Prelude.{◌≡◌, [], ◌≤◌, IsTrue};
ghost use Rattle.grid_vertex.specs.Points.{is_in_grid};
ghost use Rattle.view_planes.specs.Planes.{PlanesSeen, has_room, with_plane, is_culled, culled_scores};
ghost use Rattle.view_planes.specs.Culling.{as_many_culled, culled_falls};

use crate::half_spaces::HalfSpace;
use accepted_mesh::Mesh;
use arrayvec::ArrayVec;
use error_metric::Want;
use grid_vertex::Ball;
use round_model::View;
use std::marker::Model;

/// A view with up to six half-spaces. It wants what the view wants, but no node whose ball is behind one.
#[derive(Drop)]
pub struct Planes {
    view: View,
    list: ArrayVec<HalfSpace, 6>,
}

impl Model for Planes {
    ghost use Rattle.view_planes.specs.Planes.{PlanesSeen};

    ghost Value = { PlanesSeen };

    ghost view = { λ p. record { view = p.view; planes = p.list.items } };
}

impl Planes {
    /// The view with no half-space.
    pub fn new(view: View) -> Planes
        ensures { result ≡ record { view = view; planes = [] } }
    {
        Planes {
            view,
            list: ArrayVec::new(),
        }
    }

    /// Puts a half-space behind the others. False, with nothing changed, exactly where six are there.
    pub fn add(&mut self, plane: HalfSpace) -> bool
        ensures room { result ≡ has_room self.old.planes }
        ensures planes { self.new ≡ with_plane self.old plane }
    {
        if self.list.is_full() {
            return false;
        }
        self.list.push(plane);
        true
    }

    /// The view alone, without the half-spaces.
    pub fn view(&self) -> &View
        ensures { result.now ≡ self.now.view }
    {
        &self.view
    }

    // Whether the ball is behind one of the half-spaces.
    fn is_culled(&self, ball: &Ball) -> bool
        requires centre { IsTrue (is_in_grid ball.now.centre) }
        requires radius { ball.now.radius ≤ 4194304 }
        ensures { result ≡ is_culled self.now.planes ball.now }
    {
        for plane in self.list.as_slice() {
            if plane.is_behind(ball) {
                return true;
            }
        }
        false
    }
}

impl Want for Planes {
    ghost scores = { culled_scores };

    ghost least = { λ seen. seen.view.threshold };

    ghost as_many = { as_many_culled };

    ghost falls = { culled_falls };

    fn score(&self, mesh: &Mesh, node: u32) -> u64 {
        if self.is_culled(&mesh.index().node(node).ball) {
            return 0;
        }
        self.view.score(mesh, node)
    }

    fn threshold(&self) -> u64 {
        u64::from(self.view.threshold())
    }
}
