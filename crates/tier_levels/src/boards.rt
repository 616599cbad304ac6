//! The board of wishes behind a lock, with a bell that wakes idle workers and the mark that ends them.

ghost use Rattle.wish_board.specs.Boards.{Fits};

use crate::floors::Ground;
use crate::levels::Level;
use crate::tier_numbers::TierNumber;
use accepted_mesh::Mesh;
use error_metric::Want;
use grid_vertex::NoMemory;
use std::alloc::Global;
use std::marker::PhantomData;
use std::sync::{Condvar, Mutex, Wait};
use tier_budget::Wishes;
use token_table::{Member, Naming};
use wish_board::{ReadyView, WishBoard};

/// What the lock keeps: a board for the mesh of the run, how often workers were stirred, and whether they are to end.
#[derive(Drop)]
struct Bell<N: Naming> {
    board: WishBoard,
    stirs: u64,
    is_ended: bool,
    run: PhantomData<N>,
    ghost fits: { Fits board N.setup.mesh },
}

/// How often workers were stirred, and whether they are to end, when it was looked at.
#[derive(Clone, Copy, Debug, PartialEq, Eq)]
pub struct Sight {
    pub stirs: u64,
    pub is_ended: bool,
}

/// The board of a run's wishes, which sessions post on and workers take their wishes from.
#[derive(Drop)]
pub struct BoardLock<N: Naming> {
    bell: Mutex<Bell<N>>,
    rung: Condvar,
}

impl<N: Naming> BoardLock<N> {
    ghost use Rattle.std.specs.Prelude.{◌≡◌};
    ghost use Rattle.token_words.specs.Sessions.{IsSession};

    /// Puts a board behind a lock. Condition: it is for the mesh that the run began with.
    pub fn new(board: WishBoard) -> BoardLock<N>
        requires { Fits board N.setup.mesh }
    {
        BoardLock {
            bell: Mutex::new(Bell {
                board,
                stirs: 0,
                is_ended: false,
                run: PhantomData,
            }),
            rung: Condvar::new(),
        }
    }

    /// Posts what the session wants, in place of what it posted before, and wakes idle workers. The memory is taken and
    /// the nodes are scored before the lock is. The session is 1 to 64; condition: the mesh is the one that the run began
    /// with.
    pub fn post<R: Wait, W: Want>(
        &self,
        rt: &R,
        alloc: Global,
        mesh: &Mesh,
        session: u32,
        want: &W,
    ) -> Result<(), NoMemory>
        requires session { IsSession session }
        requires mesh { mesh.now.lists.index ≡ N.setup.mesh }
    {
        let view = ReadyView::of(alloc, mesh, want)?;
        let mut bell = self.bell.lock(rt);
        let _earlier = bell.board.post_ready(session, view);
        drop(bell);
        self.rung.notify_all();
        Ok(())
    }

    /// Takes off what the session posted, and wakes idle workers. The session is 1 to 64.
    pub fn take_off<R: Wait>(&self, rt: &R, session: u32)
        requires { IsSession session }
    {
        let mut bell = self.bell.lock(rt);
        let _earlier = bell.board.take_off(session);
        drop(bell);
        self.rung.notify_all();
    }

    /// Wakes idle workers.
    pub fn stir<R: Wait>(&self, rt: &R) {
        let mut bell = self.bell.lock(rt);
        bell.stirs = bell.stirs.wrapping_add(1);
        drop(bell);
        self.rung.notify_all();
    }

    /// Tells the workers to end.
    pub fn end<R: Wait>(&self, rt: &R) {
        let mut bell = self.bell.lock(rt);
        bell.is_ended = true;
        drop(bell);
        self.rung.notify_all();
    }

    /// Looks at the bell and the end mark.
    pub fn look<R: Wait>(&self, rt: &R) -> Sight {
        let bell = self.bell.lock(rt);
        Sight {
            stirs: bell.stirs,
            is_ended: bell.is_ended,
        }
    }

    /// The level takes the board's wishes, where their version isn't its tier's.
    pub fn rank<'m, R: Wait, T: TierNumber, K: Member, F: Ground>(
        &self,
        rt: &R,
        level: &mut Level<'m, N, T, K, F>,
    ) {
        let bell = self.bell.lock(rt);
        level.take_wishes(&bell.board);
    }

    /// Waits while the board has this version, workers were stirred so often and are not to end.
    pub fn wait_past<R: Wait>(&self, rt: &R, version: u64, stirs: u64) {
        let bell = self.bell.lock(rt);
        let _bell = self.rung.wait_while(rt, bell, |bell| {
            !bell.is_ended && bell.stirs == stirs && bell.board.version() == version
        });
    }
}
