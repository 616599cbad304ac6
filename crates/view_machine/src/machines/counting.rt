//! Frames that are counted in place of being written.

ghost use Rattle.std.specs.Prelude.{◌≡◌, ◌+◌, ◌*◌, ◌^◌, ◌<◌, ◌≤◌, List, All, Some, length, map, ◌++◌, IfOk, OnOk, OnErr};
ghost use Rattle.grid_vertex.specs.declared.triangles.Triangle.{Triangle};
ghost use Rattle.file_model.specs.Lists.{triangles_of};
ghost use Rattle.edge_chain.specs.Chains.{IsNetOf};
ghost use Rattle.frame_writer.specs.Frames.{triangles_in};
ghost use Rattle.script_model.specs.declared.orders.Order.TheVariants as orders;
ghost use Rattle.session_model.specs.Sessions.{SessionState};
ghost use Rattle.session_model.specs.DoneRounds.{HasDone};
ghost use Rattle.text_model.specs.FrameText.{Frame};
ghost use Rattle.run_model.specs.Lines.{frame_of, top_body};
ghost use Rattle.session_seats.specs.Seats.{at_seat, HasView, IsDoneAt};
ghost use Rattle.view_machine.specs.Machines.{world_of, run_state, KeepsPlace};
ghost use Rattle.view_machine.specs.OwnStops.{StopsIn};
ghost use Rattle.view_machine.specs.LineEnds.{frames_at};
ghost use Rattle.view_machine.specs.FrameLines.{IsAtTop};
ghost use Rattle.view_machine.specs.FrameSizes.{HasSize, ShowsSize};

use crate::machines::Machine;
use crate::sizes::FrameSize;
use body_edges::{Border, add_body};
use cache_chain::TierChain;
use edge_chain::EdgeChain;
use grid_vertex::NoMemory;
use std::alloc::Global;
use view_outside::Store;

// Adds the triangles of the patch's body, which the top tier holds. Its border takes the place of the one
// that stood in `border`.
fn add_patch<S: Store>(
    chain: &TierChain<S>,
    patch: u32,
    border: &mut Border,
    edges: &mut EdgeChain,
) -> Result<(), NoMemory>
    requires top { IsAtTop chain.now.mesh.lists.index.fields chain.now.tiers patch }
    requires room { edges.old.count ≤ 4294967295 * 65536 }
    ensures few { OnOk result (edges.new.count ≤ edges.old.count + 4294967295) }
    ensures nets { OnOk result
        ((triangles : List Triangle) → IsNetOf triangles edges.old
        → IsNetOf (triangles ++ triangles_of (top_body chain.now.tiers patch).lists) edges.new) }
{
    match chain.top_body(patch) {
        Some(body) => add_body(edges, border, body),
        None => unreachable!(),
    }
}

// The sums of the edges of patches that the top tier holds, gathered.
fn top_edges<S: Store>(
    alloc: Global,
    chain: &TierChain<S>,
    patches: &[u32],
) -> Result<EdgeChain, NoMemory>
    requires top { All (IsAtTop chain.now.mesh.lists.index.fields chain.now.tiers) patches.now }
    requires few { length patches.now ≤ 65536 }
    ensures { IfOk result (IsNetOf (triangles_in (map (top_body chain.now.tiers) patches.now))) }
{
    let mut edges = EdgeChain::new(alloc);
    let mut border = Border::new(alloc);
    for patch in patches {
        add_patch(chain, *patch, &mut border, &mut edges)?;
    }
    edges.gather();
    Ok(edges)
}

// The size of a frame of this cut and these patches, the edges of whose triangles were summed.
fn size_with(cut: &[u32], patches: &[u32], edges: &EdgeChain) -> FrameSize
    ensures { (frame : Frame) → frame.cut ≡ cut.now → frame.patches ≡ patches.now
        → IsNetOf frame.triangles edges.now → HasSize frame result }
{
    FrameSize {
        nodes: cut.len() as u64,
        patches: patches.len() as u64,
        triangles: edges.triangles(),
        open_edges: edges.open_edges(),
    }
}

impl<'a, S: Store> Machine<'a, S> {
    // How large the frame is that the session's round shows.
    fn size_of_round(&self, alloc: Global, session: u32) -> Result<FrameSize, NoMemory>
        requires { IsDoneAt self.now.seats.sessions session }
        ensures { IfOk result
            (λ size.
            (s : SessionState) (done : HasDone s) → at_seat self.now.seats.sessions session ≡ Some s
            → HasSize (frame_of self.now.chain.tiers session s done.round) size) }
    {
        let round = self.seats.round(session);
        let patches = round.patches();
        let edges = top_edges(alloc, &self.chain, patches)?;
        Ok(size_with(round.cut(), patches, &edges))
    }

    /// As `frame`, but the frame is counted as printed and no text is made of it: its size is told.
    pub fn count_frame(&mut self, alloc: Global, session: u32) -> Result<FrameSize, NoMemory>
        requires view { HasView self.old.seats.sessions session }
        requires few { frames_at self.old.seats.sessions session < 2 ^ 63 }
        ensures line { IfOk result
            (ShowsSize (world_of self.old) session (run_state self.old) (run_state self.new)) }
        ensures none { OnErr result
            (StopsIn (world_of self.old) (run_state self.old) (orders.Frame session)
            (run_state self.new)) }
        ensures place { KeepsPlace self.old self.new }
        ensures board { self.new.board ≡ self.old.board }
        ensures chain { self.new.chain ≡ self.old.chain }
    {
        self.finish_session(alloc, session)?;
        let size = self.size_of_round(alloc, session)?;
        self.print_session(session);
        Ok(size)
    }
}
