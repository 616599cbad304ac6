//! A machine that is driven line by line: each line of a source is answered before the next one is read.
//!
//! `live_model` defines what a line does and is answered, and `docs/TEXTS.md` tells it in prose.
#![tactic(auto)]

mod answering;
mod driving;
mod judging;
mod obeying;
mod refusals;
mod stepping;

pub use answering::answer;
pub use driving::drive;
pub use judging::judge;
pub use obeying::obey;
pub use refusals::DriveRefusal;
pub use stepping::{answer_next, no_sessions};
