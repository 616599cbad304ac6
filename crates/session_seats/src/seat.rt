//! An open session with its pass.

ghost use Rattle.std.specs.Prelude.{◌≡◌, ℕ, false, None, Some, length, replicate, IfOk, IfErr};
ghost use Rattle.round_model.specs.Views.{ViewSeen};
ghost use Rattle.session_model.specs.Sessions.{opened};
ghost use Rattle.session_locks.specs.Sessions.{session_of as session_over};
ghost use Rattle.token_words.specs.Sessions.{IsSession};
ghost use Rattle.token_words.specs.PlainTokens.{words_seen, is_user, is_locker, session_of};
ghost use Rattle.token_words.specs.declared.session_sets.TheConstants.{SESSIONS as GREATEST};
ghost use Rattle.session_model.specs.Freeing.{FreesAll};

use accepted_mesh::Mesh;
use grid_vertex::NoMemory;
use session_locks::{Session, Stepped};
use std::alloc::Global;
use token_words::{PlainPass, PlainTokens, SESSIONS};

/// An open session with its pass, which tells the words who uses a patch.
#[derive(Drop)]
pub struct Seat<'m> {
    pub session: Session<'m>,
    pub pass: PlainPass,
}

impl<'m> Seat<'m> {
    ghost use Rattle.session_seats.specs.SeatParts.{HasPass};
    ghost use Rattle.session_seats.specs.SeatSteps.{KeepsSeat, SeatSteps, SeatStops, SeatFinishes, SeatStopsAfter};

    /// Session `number`, which uses no patch yet.
    pub fn open(
        alloc: Global,
        mesh: &'m Mesh,
        words: &PlainTokens,
        number: u32,
    ) -> Result<Seat<'m>, NoMemory>
        requires number { IsSession number }
        requires unused { (p : ℕ) → is_user words.now number p ≡ false }
        ensures session { IfOk result
            (λ seat.
            seat.session
            ≡ session_over mesh.now.lists number (opened (length mesh.now.lists.index.fields))) }
        ensures pass { IfOk result (λ seat. session_of seat.pass ≡ number) }
        ensures unlocked { IfOk result (λ _. (p : ℕ) → is_locker words.now number p ≡ false) }
    {
        let pass = words.pass(number);
        let session = Session::open(alloc, mesh, number)?;
        Ok(Seat { session, pass })
    }

    /// Takes one step.
    pub fn step(&mut self, alloc: Global, words: &mut PlainTokens) -> Result<Stepped, NoMemory>
        requires pass { HasPass words.old self.old }
        requires view { (view : ViewSeen) × (self.old.session.state.view ≡ Some view) }
        ensures step { IfOk result (λ did. SeatSteps (words_seen words.old) self.old did self.new) }
        ensures none { IfErr result (λ _. SeatStops self.old self.new) }
        ensures keeps { KeepsSeat words.old self.old words.new self.new }
    {
        self.session.step(alloc, words, &mut self.pass)
    }

    /// Takes steps until the round is done.
    pub fn finish(&mut self, alloc: Global, words: &mut PlainTokens) -> Result<(), NoMemory>
        requires pass { HasPass words.old self.old }
        requires view { (view : ViewSeen) × (self.old.session.state.view ≡ Some view) }
        ensures round { IfOk result (λ _. SeatFinishes (words_seen words.old) self.old self.new) }
        ensures none { IfErr result (λ _. SeatStopsAfter (words_seen words.old) self.old self.new) }
        ensures keeps { KeepsSeat words.old self.old words.new self.new }
    {
        self.session.finish(alloc, words, &mut self.pass)
    }

    /// Takes steps towards no use until there is none, and returns how many old locks were given back.
    pub fn free(&mut self, words: &mut PlainTokens) -> u64
        requires pass { HasPass words.old self.old }
        ensures frees { FreesAll self.old.session.state result self.new.session.state }
        ensures keeps { KeepsSeat words.old self.old words.new self.new }
    {
        self.session.free_all(words, &mut self.pass)
    }
}

/// A seat for each session, none of them open.
pub fn no_seats<'m>(alloc: Global) -> Result<Vec<Option<Seat<'m>>>, NoMemory>
    ensures { IfOk result (λ seats. seats.items ≡ replicate GREATEST None) }
{
    let mut seats = Vec::with_capacity(alloc, SESSIONS as usize)?;
    for _session in 0..SESSIONS {
        seats.push(None)?;
    }
    Ok(seats)
}
