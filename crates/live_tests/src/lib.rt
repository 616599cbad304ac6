//! A driven machine over a small file, as tests.
#![tactic(auto)]

#[cfg(test)]
mod tests;
