//! Runs of the viewer: what a state is and what keeps it safe, the events that lead from one state to the
//! next, and what the lines of a script do and print.
//!
//! The definitions stand in `specs/`, and `docs/MODEL.md` tells them in prose; there is no code.
#![tactic(auto)]
