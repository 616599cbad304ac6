//! Lines as words.

ghost use Rattle.std.specs.Prelude.{◌≡◌, ◌-◌, ◌≤◌, length, map, IfOk};
ghost use Rattle.std.specs.List.{list_all};
ghost use Rattle.script_model.specs.ScriptLines.{is_blank, is_text_byte, words_of};
ghost use Rattle.script_model.specs.Orders.{word_at};

use std::alloc::{AllocError, Global};

// Whether a line may have the byte.
fn is_text_byte(byte: u8) -> bool
    ensures { result ≡ is_text_byte byte }
{
    (b' ' <= byte && byte <= b'~') || byte == b'\t' || byte == b'\r'
}

// Whether the byte stands between words.
fn is_blank(byte: u8) -> bool
    ensures { result ≡ is_blank byte }
{
    byte == b' ' || byte == b'\t' || byte == b'\r'
}

/// Whether a line may have each of the bytes.
pub fn is_text(line: &[u8]) -> bool
    ensures { result ≡ list_all is_text_byte line.now }
{
    line.iter().all(|byte| is_text_byte(*byte))
}

/// The words of a line.
pub fn words_of(alloc: Global, line: &[u8]) -> Result<Vec<&[u8]>, AllocError>
    ensures { IfOk result (λ words. map (λ word. word.now) words.items ≡ words_of line.now) }
{
    line.split(|byte| is_blank(*byte))
        .filter(|piece| !piece.is_empty())
        .collect(alloc)
}

/// The word of this number; the first one is 1.
pub fn word_at<'a>(number: u32, words: &[&'a [u8]]) -> &'a [u8]
    requires first { 1 ≤ number }
    requires last { number ≤ length words.now }
    ensures { result.now ≡ word_at number (map (λ word. word.now) words.now) }
{
    words[number as usize - 1]
}
