//! Words read as numbers.

ghost use Rattle.std.specs.Prelude.{◌≡◌, ◌↔◌, ◌^◌, ◌<◌, ◌≤◌, unsigned_abs, IfSome, IsTrue};
ghost use Rattle.number_words.specs.Numbers.{number_in, signed_in, HasPlusOrLeadingZero};

/// Tells whether the word has a `+` or a needless 0 in front, which `parse` would read over.
fn has_plus_or_leading_zero(word: &[u8]) -> bool
    ensures { IsTrue result ↔ HasPlusOrLeadingZero word.now }
{
    matches!(word, [b'+', ..] | [b'0', _, ..])
}

/// The number that a word of text spells, if it is at most `most`.
fn read_text(word: &str, most: u64) -> Option<u64>
    ensures value { result ≡ number_in most word.now }
    ensures bound { IfSome result (λ number. number ≤ most) }
{
    if has_plus_or_leading_zero(word.as_bytes()) {
        return None;
    }
    let number = word.parse::<u64>().ok()?;
    (number <= most).then_some(number)
}

/// The number that the word spells, if it is at most `most`. Bytes that are no text spell none.
pub fn read_number(word: &[u8], most: u64) -> Option<u64>
    ensures value { result ≡ number_in most word.now }
    ensures bound { IfSome result (λ number. number ≤ most) }
{
    match str::from_utf8(word) {
        Ok(text) => read_text(text, most),
        Err(_) => None,
    }
}

/// The integer that the word spells, if it is from `-most` to `most`.
pub fn read_wide_signed(word: &[u8], most: u64) -> Option<i64>
    requires { most < 2 ^ 63 }
    ensures value { result ≡ signed_in most word.now }
    ensures bound { IfSome result (λ integer. unsigned_abs integer ≤ most) }
{
    match word.strip_prefix(b"-") {
        Some(digits) => match read_number(digits, most)? {
            0 => None,
            number => Some(-(number as i64)),
        },
        None => Some(read_number(word, most)? as i64),
    }
}

/// The same, for bounds of an `i32`.
pub fn read_signed(word: &[u8], most: u32) -> Option<i32>
    requires { most < 2 ^ 31 }
    ensures value { result ≡ signed_in most word.now }
    ensures bound { IfSome result (λ integer. unsigned_abs integer ≤ most) }
{
    let integer = read_wide_signed(word, u64::from(most))?;
    Some(integer as i32)
}
