//! Small plays of a chain: views are posted, tiers turn or settle, and the log of the turns is compared.

ghost use Rattle.std.specs.Prelude.{◌≡◌, ◌≤◌, length, IfOk};
ghost use Rattle.mesh_model.specs.Graph.{outgoing};
ghost use Rattle.mesh_model.specs.Meshes.{IsMesh};
ghost use Rattle.token_words.specs.PlainTokens.{IsStart};
ghost use Rattle.transfer_step.specs.TurnWords.{board_of};
ghost use Rattle.tier_model.specs.Tiers.{IsWidth};
ghost use Rattle.cache_chain.specs.Turning.{AllKeepWishes};
ghost use Rattle.wish_board.specs.Boards.{board_wish};
ghost use Rattle.chain_tests.specs.Scenes.{IsReady};

use super::{mesh_of, store_of};
use accepted_mesh::Mesh;
use cache_chain::{TierChain, TurnLine};
use grid_vertex::{NoMemory, Point};
use round_model::View;
use std::alloc::Global;
use std::process::Abort;
use std::test::Fail;
use tier_budget::Wishes;
use token_words::{PlainTokens, SESSIONS};
use view_outside::Store;
use wish_board::WishBoard;

/// What is done with a chain.
#[derive(Clone, Copy)]
pub enum Deed {
    /// The session of this number posts the view.
    Post(u32, View),
    /// The tier of this number turns.
    Turn(u32),
    /// All tiers settle.
    Settle,
}

/// How much a tier has at the end: the bytes that are held or come, the patches that are held, and those that
/// come.
#[derive(Clone, Copy, Debug, PartialEq, Eq)]
pub struct Content {
    pub load: u64,
    pub held: u32,
    pub coming: usize,
}

/// The view from an eye, by its focal number and threshold, of at most so many triangles.
pub fn view(eye: [i32; 3], focal: u32, threshold: u32, limit: u32) -> Result<View, Fail> {
    let [x, y, z] = eye;
    match View::new(Point { x, y, z }, focal, threshold, limit) {
        Some(view) => Ok(view),
        None => Err(Fail::from("no view")),
    }
}

/// The words of a chain that starts: the base patches are there, pinned, and no session uses a patch.
fn words_of(alloc: Global, mesh: &Mesh) -> Result<PlainTokens, NoMemory>
    ensures start { IfOk result
        (IsStart (length mesh.now.lists.index.fields)
        (outgoing mesh.now.lists.index.fields mesh.now.lists.root)) }
    ensures facts { IsMesh mesh.now.lists }
{
    PlainTokens::new(alloc, mesh.index().patch_count(), mesh.base())
}

/// No tier has taken the board's wishes yet.
fn expect_new_wishes<S: Store>(chain: &TierChain<'_, S>, board: &WishBoard) -> Result<(), Fail>
    ensures { IfOk result
        (λ _.
        AllKeepWishes (board_of (board_wish board.now) board.now.version) chain.now.tiers) }
{
    for tier in 0..chain.tier_count() {
        if chain.tier(tier).version() == board.version() {
            return Err(Fail::from("no new wishes"));
        }
    }
    Ok(())
}

/// The session posts the view.
fn post<S: Store>(
    mesh: &Mesh,
    chain: &TierChain<'_, S>,
    words: &PlainTokens,
    board: &mut WishBoard,
    session: u32,
    view: View,
) -> Result<(), Fail>
    requires { IsReady mesh.now chain.now words.now board.old }
    ensures { IfOk result (λ _. IsReady mesh.now chain.now words.now board.new) }
{
    if session < 1 || session > SESSIONS {
        return Err(Fail::from("no such session"));
    }
    board.post(mesh, session, &view)?;
    expect_new_wishes(chain, board)?;
    Ok(())
}

/// The tier turns, and the turn is logged.
fn turn<S: Store>(
    alloc: Global,
    mesh: &Mesh,
    chain: &mut TierChain<'_, S>,
    words: &mut PlainTokens,
    board: &WishBoard,
    tier: u32,
    log: &mut Vec<TurnLine>,
) -> Result<(), Fail>
    requires { IsReady mesh.now chain.old words.old board.now }
    ensures { IfOk result (λ _. IsReady mesh.now chain.new words.new board.now) }
{
    if tier >= chain.tier_count() {
        return Err(Fail::from("no such tier"));
    }
    let turn = chain.turn(alloc, tier, board, words)?;
    log.push(TurnLine { tier, turn })?;
    Ok(())
}

/// One deed, whose turns are logged.
fn act<S: Store>(
    alloc: Global,
    mesh: &Mesh,
    chain: &mut TierChain<'_, S>,
    words: &mut PlainTokens,
    board: &mut WishBoard,
    deed: Deed,
    log: &mut Vec<TurnLine>,
) -> Result<(), Fail>
    requires { IsReady mesh.now chain.old words.old board.old }
    ensures { IfOk result (λ _. IsReady mesh.now chain.new words.new board.new) }
{
    match deed {
        Deed::Post(session, view) => post(mesh, chain, words, board, session, view),
        Deed::Turn(tier) => turn(alloc, mesh, chain, words, board, tier, log),
        Deed::Settle => Ok(chain.settle(alloc, board, words, log)?),
    }
}

/// A file, the reads of it that fail, and how its chain starts.
#[derive(Clone, Copy)]
pub struct Scene<'a> {
    pub bytes: &'a [u8],
    pub fails: &'a [(u64, u32)],
    pub budgets: &'a [u64],
    pub width: u32,
}

/// What is done with a chain, the turns that are to be made, and what each tier is to have at the end.
#[derive(Clone, Copy)]
pub struct Course<'a> {
    pub deeds: &'a [Deed],
    pub turns: &'a [TurnLine],
    pub contents: &'a [Content],
}

/// The deeds, with the log of their turns.
fn turns_of<S: Store>(
    alloc: Global,
    mesh: &Mesh,
    chain: &mut TierChain<'_, S>,
    words: &mut PlainTokens,
    board: &mut WishBoard,
    deeds: &[Deed],
) -> Result<Vec<TurnLine>, Fail>
    requires { IsReady mesh.now chain.old words.old board.old }
{
    let mut log = Vec::new(alloc);
    for deed in deeds {
        act(alloc, mesh, chain, words, board, *deed, &mut log)?;
    }
    Ok(log)
}

/// What each tier has.
fn contents_of<S: Store>(
    alloc: Global,
    chain: &TierChain<'_, S>,
) -> Result<Vec<Content>, NoMemory> {
    let mut contents = Vec::new(alloc);
    for number in 0..chain.tier_count() {
        let tier = chain.tier(number);
        contents.push(Content {
            load: tier.load(),
            held: tier.held_count(),
            coming: tier.coming().len(),
        })?;
    }
    Ok(contents)
}

/// The play goes as it is to.
fn expect_turns<S: Store>(
    rt: &impl Abort,
    alloc: Global,
    mesh: &Mesh,
    chain: &mut TierChain<'_, S>,
    words: &mut PlainTokens,
    board: &mut WishBoard,
    play: &Course<'_>,
) -> Result<(), Fail>
    requires { IsReady mesh.now chain.old words.old board.old }
{
    let turns = turns_of(alloc, mesh, chain, words, board, play.deeds)?;
    assert_eq!(rt; turns.as_slice(), play.turns);
    let contents = contents_of(alloc, chain)?;
    assert_eq!(rt; contents.as_slice(), play.contents);
    Ok(())
}

/// A chain over the file starts, and the play goes as it is to.
pub fn expect_play(
    rt: &impl Abort,
    alloc: Global,
    scene: &Scene<'_>,
    play: &Course<'_>,
) -> Result<(), Fail>
    requires some_budget { 1 ≤ length scene.now.budgets.now }
    requires few { length scene.now.budgets.now ≤ 4 }
    requires width { IsWidth scene.now.width }
{
    let mesh = mesh_of(alloc, scene.bytes)?;
    let mut store = store_of(alloc, scene.bytes, scene.fails)?;
    let mut words = words_of(alloc, &mesh)?;
    let mut board = WishBoard::new(alloc, &mesh)?;
    match TierChain::start_wide(alloc, &mesh, scene.budgets, scene.width, &mut store, 0) {
        Ok(mut chain) => expect_turns(rt, alloc, &mesh, &mut chain, &mut words, &mut board, play),
        Err(_) => Err(Fail::from("no start")),
    }
}
