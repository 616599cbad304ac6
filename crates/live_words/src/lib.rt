//! The words of a driver's lines: the orders that they spell, and the texts of the answers that a script has not.
#![tactic(auto)]

mod bodies;
mod refused;
mod shows;
mod spelling;

pub use bodies::body_text;
pub use refused::refused_text;
pub use shows::show_text;
pub use spelling::live_spelt;

#[cfg(test)]
mod tests;
