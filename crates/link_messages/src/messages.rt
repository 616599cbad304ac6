//! A message in memory.

/// A question to the far side of a file, or an answer from there. Each answer carries its question's number.
#[derive(Clone, Copy, Debug, PartialEq, Eq)]
pub enum Message<'a> {
    /// Asks for `length` bytes, 1 to 1,024, of a file from an offset on.
    AskBytes {
        number: u64,
        file: u32,
        offset: u64,
        length: u16,
    },
    /// The bytes of a file at an offset, at most as many as were asked for. None means that the file ends there.
    Bytes {
        number: u64,
        file: u32,
        offset: u64,
        length: u16,
        bytes: &'a [u8],
    },
    /// Asks for the number of the first file of a name of 1 to 255 bytes.
    AskName {
        number: u64,
        name: &'a str,
    },
    /// The number of that file.
    File {
        number: u64,
        file: u32,
    },
    /// The far side failed.
    Failed {
        number: u64,
    },
}
