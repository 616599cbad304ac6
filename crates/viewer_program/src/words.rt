//! The words behind the program's name.

use grid_vertex::NoMemory;
use std::alloc::Global;
use std::env::{Env, FillError};
use text_model::Status;

// How many bytes of a word are asked for at first.
const ROOM: usize = 256;

// The bytes of the word in this place; none where there are fewer words.
fn word_at<E: Env>(env: &E, alloc: Global, place: usize) -> Result<Option<Vec<u8>>, NoMemory> {
    let mut bytes = vec![in alloc; 0; ROOM]?;
    for _ in 0..usize::BITS {
        match env.arg(place, &mut bytes) {
            Ok(length) => {
                bytes.truncate(length);
                return Ok(Some(bytes));
            }
            Err(FillError::NotPresent) => return Ok(None),
            Err(FillError::TooLong) => {
                let more = bytes.len().saturating_mul(2);
                bytes.resize(more, 0)?;
            }
        }
    }
    Err(NoMemory)
}

/// The words behind the program's name, which is never looked at. Words that are no text are no command.
pub fn program_words<E: Env>(env: &E, alloc: Global) -> Result<Vec<String>, Status> {
    let mut words = Vec::new(alloc);
    for place in 1..usize::MAX {
        let bytes = match word_at(env, alloc, place) {
            Ok(Some(bytes)) => bytes,
            Ok(None) => break,
            Err(NoMemory) => return Err(Status::Memory),
        };
        let Ok(word) = String::from_utf8(bytes) else {
            return Err(Status::Usage);
        };
        if words.push(word).is_err() {
            return Err(Status::Memory);
        }
    }
    Ok(words)
}
