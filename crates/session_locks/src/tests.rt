//! Sessions over plain words: each step, and what is given back.

ghost use Rattle.std.specs.Prelude.{◌≡◌, ℕ, ◌≤◌, Bool, true, false, List, length, Some, None, IfOk};
ghost use Rattle.round_model.specs.Views.{ViewSeen};
ghost use Rattle.session_locks.specs.Passes.{IsPassOf};
ghost use Rattle.token_words.specs.PlainTokens.{patch_count, is_user, is_locker, session_of, IsUnused};
ghost use Rattle.token_words.specs.Sessions.{IsSession};

use super::*;
use accepted_mesh::Mesh;
use file_model::Try;
use grid_vertex::Point;
use mesh_graph::MeshGraph;
use patch_file::read_index;
use round_model::{Ask, View};
use sample_files::strip;
use std::alloc::Global;
use std::process::Abort;
use std::test::Fail;
use token_words::{PlainPass, PlainTokens, Tokens, Word};
use view_outside::{MemoryStore, NamedFile};

fn mesh_of(alloc: Global, bytes: &[u8]) -> Result<Mesh, Fail> {
    let file = NamedFile::new(String::from_str(alloc, "T")?, bytes.to_vec(alloc)?);
    let mut store = MemoryStore::new(vec![in alloc; file]?, Vec::new(alloc), Vec::new(alloc));
    let index = read_index(alloc, &mut store, 0)?;
    let _patches = index.patch_count();
    let graph = MeshGraph::of(alloc, index.nodes(), index.fields())?;
    match graph.verdict() {
        Ok(root) => Ok(Mesh::with(index, graph, root, 0)),
        Err(_) => Err(Fail::from("no root")),
    }
}

fn view(eye: [i32; 3], focal: u32, threshold: u32) -> Result<View, Fail> {
    let [x, y, z] = eye;
    match View::new(Point { x, y, z }, focal, threshold, 1000) {
        Some(view) => Ok(view),
        None => Err(Fail::from("no view")),
    }
}

/// The word of a patch that is there or not.
fn word(is_there: bool) -> Word {
    if is_there {
        Word {
            epoch: 1,
            is_pinned: false,
        }
    } else {
        Word {
            epoch: 0,
            is_pinned: false,
        }
    }
}

/// The strip's words: which of patches 2 to 6 are there.
fn words(alloc: Global, are_there: [bool; 5]) -> Result<PlainTokens, Fail>
    ensures patches { IfOk result (λ tokens. patch_count tokens ≡ 7) }
    ensures unused { IfOk result IsUnused }
{
    let base = Word {
        epoch: 1,
        is_pinned: true,
    };
    let [a, b, c, d, e] = are_there;
    let words = [base, base, word(a), word(b), word(c), word(d), word(e)];
    Ok(PlainTokens::with_words(alloc, &words)?)
}

/// These steps are taken, in this order.
fn expect_steps<T: Tokens>(
    rt: &impl Abort,
    alloc: Global,
    session: &mut Session<'_>,
    tokens: &mut T,
    pass: &mut T::Pass,
    steps: &[Stepped],
) -> Result<(), Fail>
    requires pass { IsPassOf (T.IsPass tokens.old pass.old) (T.patches tokens.old)
        (T.uses tokens.old pass.old) (T.locks tokens.old pass.old) session.old }
    requires view { (view : ViewSeen) × (session.old.state.view ≡ Some view) }
    ensures pass { IsPassOf (T.IsPass tokens.new pass.new) (T.patches tokens.new)
        (T.uses tokens.new pass.new) (T.locks tokens.new pass.new) session.new }
{
    for step in steps {
        assert_eq!(rt; session.step(alloc, tokens, pass)?, *step);
    }
    Ok(())
}

/// These free steps are taken, in this order, and then there is nothing to free.
fn expect_freed<T: Tokens>(
    rt: &impl Abort,
    session: &mut Session<'_>,
    tokens: &mut T,
    pass: &mut T::Pass,
    steps: &[Stepped],
)
    requires pass { IsPassOf (T.IsPass tokens.old pass.old) (T.patches tokens.old)
        (T.uses tokens.old pass.old) (T.locks tokens.old pass.old) session.old }
    ensures pass { IsPassOf (T.IsPass tokens.new pass.new) (T.patches tokens.new)
        (T.uses tokens.new pass.new) (T.locks tokens.new pass.new) session.new }
{
    for step in steps {
        assert_eq!(rt; session.free_step(tokens, pass), Some(*step));
    }
    assert_eq!(rt; session.free_step(tokens, pass), None);
}

/// Session 1 over a mesh of at most seven patches, with this view, and its pass.
fn seated<'m>(
    alloc: Global,
    mesh: &'m Mesh,
    tokens: &PlainTokens,
    view: View,
) -> Result<(Session<'m>, PlainPass), Fail>
    requires patches { patch_count tokens.now ≡ 7 }
    requires unused { IsUnused tokens.now }
    ensures pass { IfOk result
        (λ seat.
        IsPassOf (IsSession (session_of seat.1)) (patch_count tokens.now)
        (is_user tokens.now (session_of seat.1))
        (is_locker tokens.now (session_of seat.1)) seat.0) }
    ensures view { IfOk result (λ seat. (view : ViewSeen) × (seat.0.state.view ≡ Some view)) }
{
    if mesh.index().patch_count() > 7 {
        return Err(Fail::from("more than seven patches"));
    }
    let pass = tokens.pass(1);
    let mut session = Session::open(alloc, mesh, 1)?;
    session.set_view(view);
    Ok((session, pass))
}

/// Over the strip with these patches there, a view takes these steps, and then these uses are ended.
fn expect_session(
    rt: &impl Abort,
    alloc: Global,
    are_there: [bool; 5],
    view: View,
    steps: &[Stepped],
    freed: &[Stepped],
) -> Result<(), Fail> {
    let mesh = mesh_of(alloc, &strip())?;
    let mut tokens = words(alloc, are_there)?;
    let (mut session, mut pass) = seated(alloc, &mesh, &tokens, view)?;
    expect_steps(rt, alloc, &mut session, &mut tokens, &mut pass, steps)?;
    expect_freed(rt, &mut session, &mut tokens, &mut pass, freed);
    Ok(())
}

/// The session's round is done, and has this cut, these tries and these patches.
fn expect_done(
    rt: &impl Abort,
    session: &Session<'_>,
    cut: &[u32],
    tries: &[Try],
    patches: &[u32],
) -> Result<(), Fail> {
    let Some(round) = session.round() else {
        return Err(Fail::from("no round"));
    };
    let Ask::Done = round.ask() else {
        return Err(Fail::from("more is asked"));
    };
    assert_eq!(rt;
        (round.cut(), round.tries(), round.patches()),
        (cut, tries, patches)
    );
    Ok(())
}

fn tried(patch: u32, epoch: u32) -> Stepped {
    Stepped::Tried(patch, epoch)
}

#[test]
fn what_was_granted_stays_locked(rt: HostRuntime) -> Result<(), Fail> {
    let right = view([12, 2, 0], 3, 100)?;
    let are_there = [false, false, true, true, false];
    let steps = [tried(4, 1), tried(5, 1), Stepped::Done, Stepped::Done];
    let freed = [Stepped::Unlocked(4), Stepped::Unlocked(5)];
    expect_session(&rt, rt.alloc(), are_there, right, &steps, &freed)?;
    // A round under way is freed too.
    expect_session(&rt, rt.alloc(), are_there, right, &steps[..1], &freed[..1])
}

#[test]
fn a_finished_round_is_that_of_the_view(rt: HostRuntime) -> Result<(), Fail> {
    let mesh = mesh_of(rt.alloc(), &strip())?;
    let mut tokens = words(rt.alloc(), [false, false, true, true, false])?;
    let right = view([12, 2, 0], 3, 100)?;
    let (mut session, mut pass) = seated(rt.alloc(), &mesh, &tokens, right)?;
    session.finish(rt.alloc(), &mut tokens, &mut pass)?;
    let tries = [Try { patch: 4, epoch: 1 }, Try { patch: 5, epoch: 1 }];
    expect_done(&rt, &session, &[0, 2], &tries, &[0, 4, 5])?;
    let freed = [Stepped::Unlocked(4), Stepped::Unlocked(5)];
    expect_freed(&rt, &mut session, &mut tokens, &mut pass, &freed);
    Ok(())
}

#[test]
fn a_refused_try_is_withdrawn_in_the_next_step(rt: HostRuntime) -> Result<(), Fail> {
    let right = view([12, 2, 0], 3, 100)?;
    let steps = [tried(4, 0), Stepped::Withdrew(4), Stepped::Done];
    expect_session(&rt, rt.alloc(), [false; 5], right, &steps, &[])?;
    // A try in flight is freed too.
    expect_session(
        &rt,
        rt.alloc(),
        [false; 5],
        right,
        &steps[..1],
        &steps[1..2],
    )
}

#[test]
fn a_node_that_misses_gives_its_locks_back(rt: HostRuntime) -> Result<(), Fail> {
    let far = view([4, 2, 107], 100, 10)?;
    let steps = [
        tried(2, 1),
        tried(3, 0),
        Stepped::Withdrew(3),
        Stepped::GaveBack(2),
        tried(4, 1),
        tried(5, 1),
        Stepped::Done,
    ];
    let freed = [Stepped::Unlocked(4), Stepped::Unlocked(5)];
    expect_session(
        &rt,
        rt.alloc(),
        [true, false, true, true, false],
        far,
        &steps,
        &freed,
    )
}

#[test]
fn old_locks_go_before_the_next_round(rt: HostRuntime) -> Result<(), Fail> {
    let mesh = mesh_of(rt.alloc(), &strip())?;
    let mut tokens = words(rt.alloc(), [false, false, true, true, false])?;
    let right = view([12, 2, 0], 3, 100)?;
    let (mut session, mut pass) = seated(rt.alloc(), &mesh, &tokens, right)?;
    let steps = [tried(4, 1), tried(5, 1), Stepped::Done];
    expect_steps(
        &rt,
        rt.alloc(),
        &mut session,
        &mut tokens,
        &mut pass,
        &steps,
    )?;
    session.set_view(view([-4, 2, 0], 3, 100)?);
    let steps = [
        Stepped::Unlocked(4),
        Stepped::Unlocked(5),
        tried(2, 0),
        Stepped::Withdrew(2),
        Stepped::Done,
    ];
    expect_steps(
        &rt,
        rt.alloc(),
        &mut session,
        &mut tokens,
        &mut pass,
        &steps,
    )?;
    expect_freed(&rt, &mut session, &mut tokens, &mut pass, &[]);
    Ok(())
}
