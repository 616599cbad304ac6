//! A reader over a text in memory.

ghost use Rattle.std.specs.Prelude.{◌≡◌, ◌+◌, ◌≤◌, length, drop, Ok, Err, Some, None, IfOk, MatchResult, ◌-◌};
ghost use Rattle.audit_lines.specs.Places.{place_at, start_of, met, line_ahead, fault_at_end};

use crate::lines::{differs, first_of, number_behind};
use audit_lines::AuditFault;
use std::marker::Model;

/// Where one stands in a text: what is left of it, and the number of the line, from 1.
#[derive(Drop)]
pub struct TextReader<'a> {
    rest: &'a [u8],
    line: u64,
}

impl<'a> Model for TextReader<'a> {
    ghost use Rattle.std.specs.Prelude.{◌+◌, ◌≤◌, ◌^◌, length};
    ghost use Rattle.audit_lines.specs.Places.{Place, place_at};

    ghost Value = { Place };

    ghost view = { λ reader. place_at reader.rest.now reader.line };

    ghost invariant = { λ reader. reader.line + length reader.rest.now ≤ 2 ^ 63 };
}

impl<'a> TextReader<'a> {
    /// At the beginning of the text, in line 1.
    pub fn new(text: &'a [u8]) -> TextReader<'a>
        ensures { result ≡ start_of text.now }
    {
        TextReader {
            rest: text,
            line: 1,
        }
    }

    /// The number of the line.
    pub fn line(&self) -> u64
        ensures { result ≡ self.now.line }
    {
        self.line
    }

    /// Goes behind the text that is due, or tells the fault of the first line that isn't as it is due and stays where
    /// it was.
    pub fn take(&mut self, text: &[u8]) -> Result<(), AuditFault>
        ensures { MatchResult result (λ _. met text.now self.old ≡ Ok self.new)
            (λ fault. (met text.now self.old ≡ Err fault) × (self.new ≡ self.old)) }
    {
        let line = self.line_behind(text)?;
        self.rest = &self.rest[text.len()..];
        self.line = line;
        Ok(())
    }

    /// The line so many lines on, without its line feed. Short where the text ends before that.
    pub fn ahead(&self, lines: u32) -> Result<&'a [u8], AuditFault>
        ensures { MatchResult result
            (λ line. line_ahead lines self.now.rest (lines + self.now.line) ≡ Ok line.now)
            (λ fault. line_ahead lines self.now.rest (lines + self.now.line) ≡ Err fault) }
    {
        let number = lines as u64 + self.line;
        let mut rest = self.rest;
        for _passed in 0..lines {
            match first_of(rest) {
                Some(first) => rest = first.rest,
                None => return Err(AuditFault::Short(number)),
            }
        }
        match first_of(rest) {
            Some(first) => Ok(first.line),
            None => Err(AuditFault::Short(number)),
        }
    }

    /// Long where the text goes on.
    pub fn end(&self) -> Result<(), AuditFault>
        ensures { MatchResult result (λ _. fault_at_end self.now.rest self.now.line ≡ None)
            (λ fault. fault_at_end self.now.rest self.now.line ≡ Some fault) }
    {
        if self.rest.is_empty() {
            Ok(())
        } else {
            Err(AuditFault::Long(self.line))
        }
    }

    /// The number of the line behind the text that is due.
    fn line_behind(&self, text: &[u8]) -> Result<u64, AuditFault>
        ensures within { IfOk result (λ line. (length text.now ≤ length self.now.rest)
            × (line + (length self.now.rest - length text.now) ≤ self.now.line + length self.now.rest)) }
        ensures met { MatchResult result
            (λ line. met text.now self.now ≡ Ok (place_at (drop (length text.now) self.now.rest) line))
            (λ fault. met text.now self.now ≡ Err fault) }
    {
        let mut line = self.line;
        for at in 0..text.len() {
            if at == self.rest.len() {
                return Err(AuditFault::Short(line));
            }
            if self.rest[at] != text[at] {
                return Err(differs(&self.rest[at..], line));
            }
            line = number_behind(text[at], line);
        }
        Ok(line)
    }
}
