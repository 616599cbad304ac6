//! Scripts, and reading them.

ghost use Rattle.std.specs.Prelude.{◌≡◌, ◌+◌, ◌≤◌, IfOk, IfErr, IfSome, MatchResult};
ghost use Rattle.std.specs.List.{filter};
ghost use Rattle.view_outside.specs.Faults.{Rose};
ghost use Rattle.view_outside.specs.OnlyRead.{OnlyIf};
ghost use Rattle.line_reader.specs.Reads.{ReadsAtMost, ReadsThrough};
ghost use Rattle.script_model.specs.Orders.{is_of_session};
ghost use Rattle.script_model.specs.Scripts.{script_in, AreLines};
ghost use Rattle.view_script.specs.declared.refusals.ScriptRefusal.TheVariants.{ReadFault};
ghost use Rattle.view_script.specs.Answers.{Gives, IfJudged, IsNotReadFault};

use crate::reading::read_lines;
use crate::refusals::ScriptRefusal;
use crate::sources::read_bytes;
use grid_vertex::NoMemory;
use script_model::{Line, MOST_SCRIPT, Mode};
use std::alloc::Global;
use std::marker::Model;
use text_model::ScriptFault;
use view_outside::Source;

/// A script for a mode and a number of tiers.
#[derive(Drop)]
pub struct Script {
    lines: Vec<Line>,
    mode: Mode,
    tiers: u32,
}

impl Model for Script {
    ghost use Rattle.script_model.specs.Scripts.{AreLines};
    ghost use Rattle.view_script.specs.ScriptSeen.{ScriptSeen};

    ghost Value = { ScriptSeen };

    ghost view = { λ script.
        record { lines = script.lines.items; mode = script.mode; tiers = script.tiers } };

    ghost invariant = { λ script. AreLines script.mode script.tiers script.lines.items };
}

// Whether the line orders the session.
fn is_of_session(line: &Line, session: u32) -> bool
    ensures { result ≡ is_of_session session line.now }
{
    match line.order.session() {
        Some(named) => named == session,
        None => false,
    }
}

impl Script {
    /// The lines that have words, in their order.
    pub fn lines(&self) -> &[Line]
        ensures value { result.now ≡ self.now.lines }
        ensures rules { AreLines self.now.mode self.now.tiers self.now.lines }
    {
        &self.lines
    }

    /// What the script is for.
    pub fn mode(&self) -> Mode
        ensures { result ≡ self.now.mode }
    {
        self.mode
    }

    /// How many tiers the script is for.
    pub fn tiers(&self) -> u32
        ensures { result ≡ self.now.tiers }
    {
        self.tiers
    }

    /// The lines that order this session, in their order.
    pub fn of_session(&self, alloc: Global, session: u32) -> Result<Vec<Line>, NoMemory>
        ensures { IfOk result
            (λ lines. lines.items ≡ filter (is_of_session session) self.now.lines) }
    {
        let mut lines = Vec::new(alloc);
        for line in &self.lines {
            if is_of_session(line, session) {
                lines.push(*line)?;
            }
        }
        Ok(lines)
    }
}

// The script that the bytes are.
#[tactic(auto, unfolding(script_model::specs::Scripts::script_in))]
fn script_of(alloc: Global, mode: Mode, tiers: u32, bytes: &[u8]) -> Result<Script, ScriptRefusal>
    ensures value { Gives (λ script. script.lines) result (script_in mode tiers bytes.now) }
    ensures mode { IfOk result (λ script. script.mode ≡ mode) }
    ensures tiers { IfOk result (λ script. script.tiers ≡ tiers) }
    ensures unread { IfErr result IsNotReadFault }
{
    if bytes.len() > MOST_SCRIPT as usize {
        return Err(ScriptRefusal::Script(ScriptFault::TooLong));
    }
    match read_lines(alloc, mode, tiers, bytes) {
        Ok(lines) => Ok(Script { lines, mode, tiers }),
        Err(refusal) => Err(refusal),
    }
}

/// Reads a script to its end, or to one byte past the most that a script has.
///
/// `Script` is the least fault of the first faulty line, and `ReadFault` a failure of the source.
pub fn read_script<I: Source>(
    alloc: Global,
    source: &mut I,
    mode: Mode,
    tiers: u32,
) -> Result<Script, ScriptRefusal>
    ensures exact { IfSome (I.rest source.old)
        (λ bytes. Gives (λ script. script.lines) result (script_in mode tiers bytes)) }
    ensures mode { IfOk result (λ script. script.mode ≡ mode) }
    ensures tiers { IfOk result (λ script. script.tiers ≡ tiers) }
    ensures read { ReadsAtMost (MOST_SCRIPT + 1) (I.rest source.old) (I.rest source.new) }
    ensures through { MatchResult result
        (λ _. ReadsThrough (MOST_SCRIPT + 1) (I.rest source.old) (I.rest source.new))
        (IfJudged (ReadsThrough (MOST_SCRIPT + 1) (I.rest source.old) (I.rest source.new))) }
    ensures later { I.faults source.old ≤ I.faults source.new }
    ensures cause { IfErr result
        (OnlyIf ReadFault (Rose (I.faults source.old) (I.faults source.new))) }
{
    match read_bytes(alloc, source) {
        Ok(bytes) => script_of(alloc, mode, tiers, bytes.as_slice()),
        Err(refusal) => Err(refusal),
    }
}
