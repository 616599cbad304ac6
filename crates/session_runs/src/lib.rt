//! A session of a served script, by its own thread, and the bodies of its frames, collected from the top level.
//!
//! A session locks patches by its seat at the shared words. Under the top level's lock its seat visits the keeper's,
//! so each locked patch is known to be there. What holds of a level stands in `level_model`.
#![tactic(auto)]

mod body_list;
mod collecting;
mod frames;
mod lines;
mod running;
mod serving;

pub use body_list::BodyList;
pub use collecting::collect;
pub use running::run_session;
