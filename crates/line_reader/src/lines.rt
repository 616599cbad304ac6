//! A reader of lines.

ghost use Rattle.std.specs.Prelude.{◌≡◌, ℕ, ◌<◌, ◌≤◌, ◌+◌, ◌^◌, [], drop, IfOk, IfErr, OnOk, length};
ghost use Rattle.view_outside.specs.Faults.{Rose};
ghost use Rattle.view_outside.specs.OnlyRead.{OnlyIf};
ghost use Rattle.line_reader.specs.declared.refusals.LineRefusal.TheVariants.{Memory, ReadFault};
ghost use Rattle.line_reader.specs.Bytes.{TakesByte, TakesKept, Refills, keeps_byte};
ghost use Rattle.line_reader.specs.Lines.{FindsLine, found_by, ended_by};

use crate::pieces::read_piece;
use crate::refusals::LineRefusal;
use std::alloc::Global;
use std::marker::Model;
use view_outside::Source;

// How many bytes are read at once.
const CHUNK: usize = 4_096;

/// What was read of a source.
#[derive(Clone, Copy, Debug, PartialEq, Eq)]
pub enum LineRead {
    /// A line, which the reader holds.
    Line,
    /// A line of too many bytes, which is let go.
    Long,
    /// Nothing, since the source ended.
    End,
}

/// The last line that was read, and the bytes that were read behind it.
#[derive(Drop)]
pub struct LineReader {
    piece: Vec<u8>,
    next: usize,
    line: Vec<u8>,
}

impl Model for LineReader {
    ghost use Rattle.std.specs.Prelude.{◌≤◌, drop, length};
    ghost use Rattle.line_reader.specs.LineSeen.{LineSeen};

    ghost Value = { LineSeen };

    ghost view = { λ reader.
        record { kept = drop reader.next reader.piece.items; line = reader.line.items } };

    ghost invariant = { λ reader. reader.next ≤ length reader.piece.items };
}

// What is found where a line feed follows so many bytes.
fn found_of(seen: u64, most: u32) -> LineRead
    ensures { result ≡ found_by seen most }
{
    if seen <= u64::from(most) {
        LineRead::Line
    } else {
        LineRead::Long
    }
}

// What is found where the source ends behind so many bytes.
fn ended_of(seen: u64, most: u32) -> LineRead
    ensures { result ≡ ended_by seen most }
{
    if seen == 0 {
        LineRead::End
    } else {
        found_of(seen, most)
    }
}

impl LineReader {
    /// Nothing was read.
    pub fn new(alloc: Global) -> LineReader
        ensures kept { result.kept ≡ [] }
        ensures line { result.line ≡ [] }
    {
        LineReader {
            piece: Vec::new(alloc),
            next: 0,
            line: Vec::new(alloc),
        }
    }

    /// The bytes of the last line, without its line feed.
    pub fn line(&self) -> &[u8]
        ensures { result.now ≡ self.now.line }
    {
        &self.line
    }

    // Reads a piece where no byte is kept.
    fn refill<I: Source>(&mut self, source: &mut I) -> Result<(), LineRefusal>
        ensures fills { OnOk result
            (Refills self.old.kept self.new.kept (I.rest source.old) (I.rest source.new)) }
        ensures line { self.new.line ≡ self.old.line }
        ensures later { I.faults source.old ≤ I.faults source.new }
        ensures cause { IfErr result
            (OnlyIf ReadFault (Rose (I.faults source.old) (I.faults source.new))) }
    {
        if self.next < self.piece.len() {
            return Ok(());
        }
        self.piece.clear();
        self.next = 0;
        let mut chunk = [0; CHUNK];
        read_piece(source, &mut chunk, &mut self.piece)?;
        Ok(())
    }

    // Takes the first byte that is kept.
    fn take_byte(&mut self) -> Option<u8>
        ensures takes { TakesKept result self.old.kept self.new.kept }
        ensures line { self.new.line ≡ self.old.line }
    {
        match self.piece.get(self.next) {
            Some(byte) => {
                self.next += 1;
                Some(*byte)
            }
            None => None,
        }
    }

    // Takes the next byte. None means that there is none.
    fn next_byte<I: Source>(&mut self, source: &mut I) -> Result<Option<u8>, LineRefusal>
        ensures takes { IfOk result
            (λ byte.
            TakesByte byte self.old.kept self.new.kept (I.rest source.old) (I.rest source.new)) }
        ensures line { self.new.line ≡ self.old.line }
        ensures later { I.faults source.old ≤ I.faults source.new }
        ensures cause { IfErr result
            (OnlyIf ReadFault (Rose (I.faults source.old) (I.faults source.new))) }
    {
        self.refill(source)?;
        Ok(self.take_byte())
    }

    // Puts the byte behind the line, if that has fewer than so many.
    fn keep_byte(&mut self, byte: u8, most: u32) -> Result<(), LineRefusal>
        ensures line { OnOk result (self.new.line ≡ keeps_byte most self.old.line byte) }
        ensures kept { self.new.kept ≡ self.old.kept }
        ensures cause { IfErr result (λ refusal. refusal ≡ Memory) }
    {
        if self.line.len() < most as usize {
            self.line.push(byte)?;
        }
        Ok(())
    }

    /// Reads the next line: the bytes before a line feed, or those before the source's end, if there are any. Of one
    /// with more than `most` bytes the others are read and let go. The source is read only where no byte is kept, so
    /// that a line is found as soon as its line feed came.
    ///
    /// After a refusal the bytes of the line that was begun are lost.
    pub fn read_line<I: Source>(
        &mut self,
        source: &mut I,
        most: u32,
    ) -> Result<LineRead, LineRefusal>
        ensures finds { IfOk result
            (λ found.
            FindsLine found most self.old.kept self.new.kept (I.rest source.old)
            (I.rest source.new) self.new.line) }
        ensures later { I.faults source.old ≤ I.faults source.new }
        ensures cause { IfErr result
            (OnlyIf ReadFault (Rose (I.faults source.old) (I.faults source.new))) }
    {
        self.line.clear();
        let mut seen = 0;
        'reads: while seen < u64::MAX {
            match self.next_byte(source)? {
                None => return Ok(ended_of(seen, most)),
                Some(b'\n') => return Ok(found_of(seen, most)),
                Some(byte) => {
                    self.keep_byte(byte, most)?;
                    seen += 1;
                }
            }
        }
        Ok(found_of(seen, most))
    }
}
