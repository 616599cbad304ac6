//! Rounds whose answers are given: what is asked, and the cut that they give.

use super::*;
use accepted_mesh::Mesh;
use file_model::Try;
use grid_vertex::Point;
use mesh_graph::MeshGraph;
use patch_file::read_index;
use round_model::View;
use sample_files::{chain, strip};
use std::alloc::Global;
use std::process::Abort;
use std::test::Fail;
use view_outside::{MemoryStore, NamedFile};

fn mesh_of(alloc: Global, bytes: &[u8]) -> Result<Mesh, Fail> {
    let file = NamedFile::new(String::from_str(alloc, "Q")?, bytes.to_vec(alloc)?);
    let mut store = MemoryStore::new(vec![in alloc; file]?, Vec::new(alloc), Vec::new(alloc));
    let index = read_index(alloc, &mut store, 0)?;
    let _patches = index.patch_count();
    let graph = MeshGraph::of(alloc, index.nodes(), index.fields())?;
    match graph.verdict() {
        Ok(root) => Ok(Mesh::with(index, graph, root, 0)),
        Err(_) => Err(Fail::from("no root")),
    }
}

fn view(eye: [i32; 3], focal: u32, threshold: u32, limit: u32) -> Result<View, Fail> {
    let [x, y, z] = eye;
    match View::new(Point { x, y, z }, focal, threshold, limit) {
        Some(view) => Ok(view),
        None => Err(Fail::from("no view")),
    }
}

/// Does what is asked for, with the epoch that answers a try.
fn answer(refiner: &mut Refiner<'_>, epoch: u32) -> Ask {
    let ask = refiner.ask();
    match ask {
        Ask::Lock(_) => refiner.tell(epoch),
        Ask::GiveBack(_) => refiner.gave_back(),
        Ask::Done => {}
    }
    ask
}

/// A round is through after these tries and locks given back, and gives this cut and its patches.
fn expect_round(
    rt: &impl Abort,
    mut refiner: Refiner<'_>,
    steps: &[(Ask, u32)],
    cut: &[u32],
    patches: &[u32],
) -> Result<(), Fail> {
    for (ask, epoch) in steps {
        assert_eq!(rt; answer(&mut refiner, *epoch), *ask);
        if let Ask::Lock(patch) = *ask {
            let noted = Try {
                patch,
                epoch: *epoch,
            };
            assert_eq!(rt; refiner.tries().last(), Some(&noted));
        }
    }
    let Ask::Done = refiner.ask() else {
        return Err(Fail::from("more is asked"));
    };
    assert_eq!(rt; (refiner.cut(), refiner.patches()), (cut, patches));
    Ok(())
}

fn lock(patch: u32, epoch: u32) -> (Ask, u32) {
    (Ask::Lock(patch), epoch)
}

fn give_back(patch: u32) -> (Ask, u32) {
    (Ask::GiveBack(patch), 0)
}

#[test]
fn a_node_joins_where_all_its_patches_are_granted(rt: HostRuntime) -> Result<(), Fail> {
    let mesh = mesh_of(rt.alloc(), &strip())?;
    let far = view([4, 2, 107], 100, 10, 1000)?;
    let steps = [lock(2, 1), lock(3, 1), lock(4, 0)];
    let round = Refiner::begin(rt.alloc(), &mesh, &far, far.limit())?;
    expect_round(&rt, round, &steps, &[0, 1], &[1, 2, 3])?;
    let steps = [lock(2, 1), lock(3, 0), give_back(2), lock(4, 1), lock(5, 1)];
    let round = Refiner::begin(rt.alloc(), &mesh, &far, far.limit())?;
    expect_round(&rt, round, &steps, &[0, 2], &[0, 4, 5])?;
    let steps = [lock(2, 1), lock(3, 1), lock(4, 1), lock(5, 1), lock(6, 1)];
    let round = Refiner::begin(rt.alloc(), &mesh, &far, far.limit())?;
    expect_round(&rt, round, &steps, &[0, 1, 2, 3], &[2, 5, 6])
}

#[test]
fn the_eye_picks_the_column(rt: HostRuntime) -> Result<(), Fail> {
    let mesh = mesh_of(rt.alloc(), &strip())?;
    let right = view([12, 2, 0], 3, 100, 1000)?;
    let steps = [lock(4, 1), lock(5, 1)];
    let round = Refiner::begin(rt.alloc(), &mesh, &right, right.limit())?;
    expect_round(&rt, round, &steps, &[0, 2], &[0, 4, 5])?;
    let left = view([-4, 2, 0], 3, 100, 1000)?;
    let steps = [lock(2, 1), lock(3, 1)];
    let round = Refiner::begin(rt.alloc(), &mesh, &left, left.limit())?;
    expect_round(&rt, round, &steps, &[0, 1], &[1, 2, 3])
}

#[test]
fn a_parent_comes_before_its_child_of_the_same_score(rt: HostRuntime) -> Result<(), Fail> {
    let mesh = mesh_of(rt.alloc(), &chain())?;
    let near = view([2, 2, 0], 100, 9, 1000)?;
    let round = Refiner::begin(rt.alloc(), &mesh, &near, near.limit())?;
    expect_round(&rt, round, &[lock(1, 1), lock(2, 1)], &[0, 1, 2], &[2])?;
    let tight = view([2, 2, 0], 100, 9, 1)?;
    let round = Refiner::begin(rt.alloc(), &mesh, &tight, tight.limit())?;
    expect_round(&rt, round, &[], &[0], &[0])
}
