//! Bodies that were collected, shared with the tier that holds them.

ghost use Rattle.std.specs.Prelude.{◌≡◌, ◌≤◌, [], map, IfOk};
ghost use Rattle.std.specs.Arc.{arc_value};
ghost use Rattle.session_runs.specs.Bodies.{BodiesSeen, AddsOne};

use grid_vertex::NoMemory;
use patch_file::Body;
use std::alloc::Global;
use std::marker::Model;
use std::sync::Arc;

/// Bodies, and room for so many more.
#[derive(Drop)]
pub struct BodyList {
    bodies: Vec<Arc<Body>>,
}

impl Model for BodyList {
    ghost use Rattle.std.specs.Prelude.{◌-◌, map, vec_len, vec_capacity};
    ghost use Rattle.std.specs.Arc.{arc_value};
    ghost use Rattle.session_runs.specs.Bodies.{BodiesSeen};

    ghost Value = { BodiesSeen };

    ghost view = { λ list.
        record {
          bodies = map arc_value list.bodies.items;
          spare = vec_capacity list.bodies - vec_len list.bodies;
        } };
}

impl BodyList {
    /// No bodies, with room for so many.
    pub fn with_room(alloc: Global, room: usize) -> Result<BodyList, NoMemory>
        ensures empty { IfOk result (λ list. list.bodies ≡ []) }
        ensures room { IfOk result (λ list. room ≤ list.spare) }
    {
        let bodies = Vec::with_capacity(alloc, room)?;
        Ok(BodyList { bodies })
    }

    /// The bodies.
    pub fn as_slice(&self) -> &[Arc<Body>]
        ensures { map arc_value result.now ≡ self.now.bodies }
    {
        &self.bodies
    }

    /// Appends a body. Condition: there is room.
    pub(crate) fn add(&mut self, body: Arc<Body>)
        requires { 1 ≤ self.old.spare }
        ensures { AddsOne (arc_value body) self.old self.new }
    {
        self.bodies.push_reserved(body);
    }
}
