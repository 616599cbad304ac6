//! Readers that go through a text line by line and tell its first fault, and the laws by which what they accept is
//! what a definition of texts says.
//!
//! Code is only the faults and the laws' names, on functions that do nothing. The definitions and the lemmas that
//! lead to the laws stand in `specs/`.
#![tactic(auto)]

mod faults;
mod laws;

pub use faults::AuditFault;
pub use laws::{
    JudgedLine, ReadFrom, a_due_text_is_met_or_its_first_fault_is_told, a_due_text_is_read,
    a_reader_for_each_item_reads_all, a_reader_goes_on, a_told_text_is_read, a_whole_text_is_read,
    readers_go_behind_each_other,
};
