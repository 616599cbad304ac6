//! Reading a script: its lines with words, or the first fault that it has.
//!
//! `docs/TEXTS.md` tells the script language, and `script_model` defines it.
#![tactic(auto)]

mod reading;
mod refusals;
mod scripts;
mod sessions;
mod sources;
mod spelling;
mod views;
mod words;

pub use refusals::ScriptRefusal;
pub use script_model::{Line, MOST_SCRIPT, Mode, Order};
pub use scripts::{Script, read_script};
pub use sessions::Sessions;
pub use spelling::spelt;
pub use views::count_at;
pub use words::{is_text, word_at, words_of};

#[cfg(test)]
mod tests;
