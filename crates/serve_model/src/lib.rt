//! The text of a served run: what each session prints alone, the journals that the tiers leave, and the settling and
//! the frames behind them.
//!
//! The definitions stand in `specs/`, and `docs/TEXTS.md` tells the text in prose; there is no code.
#![tactic(auto)]
