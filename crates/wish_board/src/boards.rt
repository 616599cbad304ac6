//! The board.

use crate::maxima::follow;
use crate::views::{ReadyView, no_views};
use accepted_mesh::Mesh;
use error_metric::Want;
use file_model::PatchField;
use grid_vertex::NoMemory;
use std::alloc::Global;
use std::marker::Model;
use std::mem;
use tier_budget::Wishes;

/// The view that each session posted, and the wishes of a mesh's patches. The version tells whether a
/// view was posted or taken off.
#[derive(Drop)]
pub struct WishBoard {
    fields: Vec<PatchField>,
    views: Vec<Option<ReadyView>>,
    greatest: Vec<u64>,
    version: u64,
}

impl Model for WishBoard {
    ghost use Rattle.wish_board.specs.Boards.{BoardSeen};

    ghost Value = { BoardSeen };

    ghost use Rattle.wish_board.specs.BoardView.{board_view, IsBoardInside};

    ghost view = { board_view };

    ghost invariant = { IsBoardInside };
}

impl WishBoard {
    ghost use Rattle.std.specs.Prelude.{◌≡◌, Some, None, length, IfOk, OnOk, OnErr, IfSome};
    ghost use Rattle.tier_model.specs.Ranks.{Posted};
    ghost use Rattle.token_words.specs.Sessions.{IsSession};
    ghost use Rattle.wish_board.specs.Boards.{Fits, posted_view, view_of, empty_board, with_view, without_view};

    /// A board for the mesh, without views.
    pub fn new(alloc: Global, mesh: &Mesh) -> Result<WishBoard, NoMemory>
        ensures { IfOk result (λ board. board ≡ empty_board mesh.now.lists) }
    {
        let index = mesh.index();
        Ok(WishBoard {
            fields: index.fields().to_vec(alloc)?,
            views: no_views(alloc)?,
            greatest: vec![in alloc; 0; index.node_count() as usize]?,
            version: 0,
        })
    }

    /// Posts what the session wants, in place of what it posted before. A refused call leaves the board
    /// as it was. The session is 1 to 64; condition: the mesh has the board's nodes and patches.
    pub fn post<W: Want>(&mut self, mesh: &Mesh, session: u32, want: &W) -> Result<(), NoMemory>
        requires session { IsSession session }
        requires mesh { Fits self.old mesh.now.lists.index }
        ensures posted { OnOk result
            (self.new
            ≡ with_view self.old session
            (Some (posted_view (W.scores want.now mesh.now.lists) (W.least want.now)))) }
        ensures refused { OnErr result (self.new ≡ self.old) }
    {
        let view = ReadyView::of(*self.greatest.allocator(), mesh, want)?;
        self.post_ready(session, view);
        Ok(())
    }

    /// Posts the view in place of what the session posted before, and hands that out. It takes no memory and
    /// scores nothing, so a lock around the board is held for short. The session is 1 to 64; condition: the
    /// view was scored over a mesh with the board's nodes.
    pub fn post_ready(&mut self, session: u32, view: ReadyView) -> Option<ReadyView>
        requires session { IsSession session }
        requires scored { length view.scores ≡ self.old.nodes }
        ensures posted { self.new ≡ with_view self.old session (Some view) }
        ensures earlier { result ≡ view_of self.old session }
    {
        self.put(session, Some(view))
    }

    /// Takes off what the session posted, and hands it out; without a view the board stays as it is. The
    /// session is 1 to 64.
    pub fn take_off(&mut self, session: u32) -> Option<ReadyView>
        requires { IsSession session }
        ensures board { self.new ≡ without_view self.old session }
        ensures earlier { result ≡ view_of self.old session }
    {
        if self.views[session as usize - 1].is_none() {
            return None;
        }
        self.put(session, None)
    }

    // This is the session's view from now on. Hands out the earlier one.
    fn put(&mut self, session: u32, view: Option<ReadyView>) -> Option<ReadyView>
        requires session { IsSession session }
        requires scored { IfSome view (λ (v : Posted). length v.scores ≡ self.old.nodes) }
        ensures board { self.new ≡ with_view self.old session view }
        ensures earlier { result ≡ view_of self.old session }
    {
        let slot = session as usize - 1;
        let earlier = mem::replace(&mut self.views[slot], view);
        follow(&mut self.greatest, &earlier, &self.views, slot);
        self.version = self.version.wrapping_add(1);
        earlier
    }
}

impl Wishes for WishBoard {
    ghost use Rattle.std.specs.Prelude.{length};
    ghost use Rattle.wish_board.specs.Boards.{BoardSeen, board_wish};

    ghost patches = { λ (board : BoardSeen). length board.fields };

    ghost wish_of = { board_wish };

    ghost version_of = { λ (board : BoardSeen). board.version };

    fn wish(&self, patch: u32) -> u64 {
        self.greatest[self.fields[patch as usize].tail as usize]
    }

    fn version(&self) -> u64 {
        self.version
    }
}
