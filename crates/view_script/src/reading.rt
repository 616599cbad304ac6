//! Reading the lines of a script.

ghost use Rattle.std.specs.Prelude.{◌≡◌, ◌≤◌, length, IfOk, IfErr, MatchResult};
ghost use Rattle.script_model.specs.ScriptLines.{lines_of};
ghost use Rattle.script_model.specs.Histories.{no_sessions};
ghost use Rattle.script_model.specs.Scripts.{line_in, lines_in};
ghost use Rattle.view_script.specs.Answers.{Gives, Refuses, IsNotReadFault};
ghost use Rattle.view_script.specs.Stages.{history_of};
ghost use Rattle.view_script.specs.AddedLines.{AddsLine, IsNew, NamesSession};

use crate::refusals::ScriptRefusal;
use crate::sessions::Sessions;
use crate::spelling::spelt;
use crate::words::{is_text, words_of};
use script_model::{Line, MOST_SCRIPT, Mode};
use std::alloc::Global;
use text_model::ScriptFault;

/// The lines so far, and how far the sessions have come by them.
#[derive(Drop)]
pub struct LineReader {
    mode: Mode,
    tiers: u32,
    sessions: Sessions,
    lines: Vec<Line>,
}

impl LineReader {
    fn new(alloc: Global, mode: Mode, tiers: u32) -> LineReader
        ensures { IsNew mode tiers result }
    {
        LineReader {
            mode,
            tiers,
            sessions: Sessions::new(),
            lines: Vec::new(alloc),
        }
    }

    // What the line of this number orders; nothing where it has no words.
    #[tactic(auto, unfolding(script_model::specs::Scripts::line_in, script_model::specs::Scripts::words_in))]
    fn line_of(
        &self,
        alloc: Global,
        number: u32,
        line: &[u8],
    ) -> Result<Option<Line>, ScriptRefusal>
        ensures value { Gives (λ read. read) result
            (line_in self.now.mode self.now.tiers (history_of self.now.sessions) number line.now) }
        ensures numbered { IfOk result NamesSession }
        ensures unread { IfErr result IsNotReadFault }
    {
        if !is_text(line) {
            return Err(ScriptRefusal::Script(ScriptFault::NotText(number)));
        }
        let words = words_of(alloc, line)?;
        if words.is_empty() {
            return Ok(None);
        }
        let order = match spelt(number, &words) {
            Ok(order) => order,
            Err(fault) => return Err(ScriptRefusal::Script(fault)),
        };
        match self.sessions.fault(self.mode, self.tiers, number, &order) {
            Some(fault) => Err(ScriptRefusal::Script(fault)),
            None => Ok(Some(Line { number, order })),
        }
    }

    // Adds the line of this number, if it has words.
    fn add_line(&mut self, alloc: Global, number: u32, line: &[u8]) -> Result<(), ScriptRefusal>
        ensures added { MatchResult result (λ _. AddsLine number line.now self.old self.new)
            (λ refusal.
            Refuses refusal
            (line_in self.old.mode self.old.tiers (history_of self.old.sessions) number
            line.now)) }
        ensures unread { IfErr result IsNotReadFault }
    {
        match self.line_of(alloc, number, line) {
            Ok(Some(line)) => {
                self.sessions.take(&line.order);
                self.lines.push(line)?;
                Ok(())
            }
            Ok(None) => Ok(()),
            Err(refusal) => Err(refusal),
        }
    }

    fn into_lines(self) -> Vec<Line>
        ensures { result ≡ self.lines }
    {
        self.lines
    }
}

/// The lines with words of a script that isn't too long, or its first fault.
pub fn read_lines(
    alloc: Global,
    mode: Mode,
    tiers: u32,
    bytes: &[u8],
) -> Result<Vec<Line>, ScriptRefusal>
    requires { length bytes.now ≤ MOST_SCRIPT }
    ensures value { Gives (λ lines. lines.items) result
        (lines_in mode tiers no_sessions 1 (lines_of bytes.now)) }
    ensures unread { IfErr result IsNotReadFault }
{
    let mut reader = LineReader::new(alloc, mode, tiers);
    let mut number = 1;
    for line in bytes.split(|byte| *byte == b'\n') {
        reader.add_line(alloc, number, line)?;
        number += 1;
    }
    Ok(reader.into_lines())
}
