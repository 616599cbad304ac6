//! Worked rows of chains of tiers, as tests over small files.
#![tactic(auto)]

#[cfg(test)]
mod tests;
