//! Reading a text in memory line by line: what is due is taken, and lines ahead are looked at.
//!
//! A reader is seen as its place in the text, and each call as one of the definitions of `audit_lines`.
#![tactic(auto)]

mod lines;
mod readers;

pub use readers::TextReader;

#[cfg(test)]
mod tests;
