//! Line feeds in bytes.

ghost use Rattle.std.specs.Prelude.{◌≡◌, ◌+◌, ◌<◌, ◌^◌, MatchOption, Some, None};
ghost use Rattle.audit_lines.specs.Places.{feeds_of, has_line_feed, differs_at, first_line};

use audit_lines::AuditFault;

/// The byte that ends a line.
const LINE_FEED: u8 = 10;

/// The number of the line behind a byte of this line.
pub(crate) fn number_behind(byte: u8, line: u64) -> u64
    requires { line + 1 < 2 ^ 64 }
    ensures { result ≡ feeds_of byte + line }
{
    if byte == LINE_FEED { 1 + line } else { line }
}

/// Whether a line ends in these bytes.
fn ends_a_line(bytes: &[u8]) -> bool
    ensures { result ≡ has_line_feed bytes.now }
{
    bytes.iter().any(|byte| *byte == LINE_FEED)
}

/// The fault of a line whose rest begins with a byte that isn't the one that is due.
pub(crate) fn differs(rest: &[u8], line: u64) -> AuditFault
    ensures { result ≡ differs_at rest.now line }
{
    if ends_a_line(rest) {
        AuditFault::Differs(line)
    } else {
        AuditFault::Short(line)
    }
}

/// A line without its line feed, and what is behind it.
#[derive(Clone, Copy)]
pub(crate) struct FirstLine<'a> {
    pub(crate) line: &'a [u8],
    pub(crate) rest: &'a [u8],
}

/// The first line, if the bytes have a line feed.
pub(crate) fn first_of<'a>(text: &'a [u8]) -> Option<FirstLine<'a>>
    ensures { MatchOption result (first_line text.now ≡ None) (λ first.
        first_line text.now ≡ Some (record { line = first.line.now; rest = first.rest.now })) }
{
    for at in 0..text.len() {
        if text[at] == LINE_FEED {
            return Some(FirstLine {
                line: &text[..at],
                rest: &text[at + 1..],
            });
        }
    }
    None
}
