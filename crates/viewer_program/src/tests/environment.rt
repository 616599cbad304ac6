//! The words behind the program's name.

use super::*;
use crate::words::program_words;
use std::env::{Env, FillError};

// A program's name and words.
#[derive(Clone, Copy)]
struct Arguments<'a>(&'a [&'a [u8]]);

impl Env for Arguments<'_> {
    fn arg(&self, i: usize, buf: &mut [u8]) -> Result<usize, FillError> {
        let Some(word) = self.0.get(i) else {
            return Err(FillError::NotPresent);
        };
        if buf.len() < word.len() {
            return Err(FillError::TooLong);
        }
        buf[..word.len()].copy_from_slice(word);
        Ok(word.len())
    }

    fn var(&self, _name: &str, _buf: &mut [u8]) -> Result<usize, FillError> {
        Err(FillError::NotPresent)
    }

    fn var_at(&self, _i: usize, _buf: &mut [u8]) -> Result<usize, FillError> {
        Err(FillError::NotPresent)
    }
}

// The name is no text, and a word is longer than any name of a file.
#[test]
fn words_are_taken_whole(rt: HostRuntime) -> Result<(), Fail> {
    let long = [b'Q'; 5000];
    let arguments = Arguments(&[&[0xFF], b"base", &long]);
    match program_words(&arguments, rt.alloc()) {
        Ok(words) => {
            assert_eq!(rt; words.len(), 2);
            assert_eq!(rt; words[1].len(), 5000);
            Ok(())
        }
        Err(_) => Err(Fail::from("there are words")),
    }
}

#[test]
fn a_word_that_is_no_text(rt: HostRuntime) {
    let arguments = Arguments(&[b"viewer", b"base", &[b'Q', 0xFF]]);
    let status = program_words(&arguments, rt.alloc()).err();
    assert_eq!(rt; status, Some(Status::Usage));
}
