//! Wishes of the strip of two columns: from patch 0 on, the patches lead from the nodes 0, 0, 1, 1, 2, 2, 3.

ghost use Rattle.wish_board.specs.Boards.{Fits};

use super::*;
use accepted_mesh::Mesh;
use grid_vertex::{NoMemory, Point};
use mesh_graph::MeshGraph;
use patch_file::read_index;
use round_model::View;
use sample_files::strip;
use std::alloc::Global;
use std::process::Abort;
use std::test::Fail;
use tier_budget::Wishes;
use view_outside::{MemoryStore, NamedFile};

fn strip_mesh(alloc: Global) -> Result<Mesh, Fail> {
    let file = NamedFile::new(String::from_str(alloc, "T")?, strip().to_vec(alloc)?);
    let mut store = MemoryStore::new(vec![in alloc; file]?, Vec::new(alloc), Vec::new(alloc));
    let index = read_index(alloc, &mut store, 0)?;
    let _patches = index.patch_count();
    let graph = MeshGraph::of(alloc, index.nodes(), index.fields())?;
    match graph.verdict() {
        Ok(root) => Ok(Mesh::with(index, graph, root, 0)),
        Err(_) => Err(Fail::from("no root")),
    }
}

fn view(eye: [i32; 3], focal: u32, threshold: u32) -> Result<View, Fail> {
    let [x, y, z] = eye;
    match View::new(Point { x, y, z }, focal, threshold, 1000) {
        Some(view) => Ok(view),
        None => Err(Fail::from("no view")),
    }
}

/// The wish of each patch.
fn wishes_of(alloc: Global, board: &WishBoard, mesh: &Mesh) -> Result<Vec<u64>, NoMemory>
    requires { Fits board.now mesh.now.lists.index }
{
    let mut wishes = Vec::new(alloc);
    for patch in 0..mesh.index().patch_count() {
        wishes.push(board.wish(patch))?;
    }
    Ok(wishes)
}

/// Each patch has its wish, and this is the version.
fn expect_board(
    rt: &impl Abort,
    alloc: Global,
    board: &WishBoard,
    mesh: &Mesh,
    wishes: [u64; 7],
    version: u64,
) -> Result<(), Fail>
    requires { Fits board.now mesh.now.lists.index }
{
    let found = wishes_of(alloc, board, mesh)?;
    assert_eq!(rt; found.as_slice(), wishes.as_slice());
    assert_eq!(rt; board.version(), version);
    Ok(())
}

#[test]
#[tactic(auto, using(crate::specs::BoardLaws::fits_empty, crate::specs::BoardLaws::fits_with_view, crate::specs::BoardLaws::fits_without_view))]
fn wishes_follow_the_posted_views(rt: HostRuntime) -> Result<(), Fail> {
    let mesh = strip_mesh(rt.alloc())?;
    let mut board = WishBoard::new(rt.alloc(), &mesh)?;
    expect_board(&rt, rt.alloc(), &board, &mesh, [0, 0, 0, 0, 0, 0, 0], 0)?;
    board.post(&mesh, 1, &view([12, 2, 0], 3, 100)?)?;
    expect_board(
        &rt,
        rt.alloc(),
        &board,
        &mesh,
        [384, 384, 0, 0, 144, 144, 0],
        1,
    )?;
    board.post(&mesh, 64, &view([-4, 2, 0], 3, 100)?)?;
    expect_board(
        &rt,
        rt.alloc(),
        &board,
        &mesh,
        [384, 384, 192, 192, 144, 144, 0],
        2,
    )?;
    board.take_off(1);
    expect_board(
        &rt,
        rt.alloc(),
        &board,
        &mesh,
        [384, 384, 192, 192, 0, 0, 0],
        3,
    )?;
    board.take_off(1);
    board.post(&mesh, 64, &view([4, 2, 107], 100, 10)?)?;
    expect_board(
        &rt,
        rt.alloc(),
        &board,
        &mesh,
        [130, 130, 64, 64, 48, 48, 15],
        4,
    )
}
