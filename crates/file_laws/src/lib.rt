//! The laws of a patch file: reading a string of bytes and spelling what it says undo each other.
//!
//! Code is only the laws' names, on functions that do nothing. The lemmas that lead to them stand in
//! `specs/`, where the crates that read and write files cite them.
#![tactic(auto)]

ghost use Rattle.std.specs.Prelude.{◌≡◌, ◌↔◌, ℕ, List, ◌++◌, length, Err};
ghost use Rattle.file_model.specs.declared.faults.FileFault.{FileFault};
ghost use Rattle.file_model.specs.declared.faults.FileFault.TheVariants.{Truncated};
ghost use Rattle.file_model.specs.Numbers.{number_in};
ghost use Rattle.file_model.specs.Lists.{FileLists};
ghost use Rattle.file_model.specs.Rules.{IsPatchFile};
ghost use Rattle.file_model.specs.Reading.{file_in};
ghost use Rattle.file_laws.specs.Numbers.{IsBytes};
ghost use Rattle.file_laws.specs.Appended.{IsLasting};

/// Reading a string of bytes from left to right gives a file exactly where the string is the patch
/// file of what was read.
pub fn reading_is_exact()
    ensures { (file : FileLists) (bytes : List ℕ) → IsBytes bytes
        → (file_in bytes ≡ Ok file) ↔ IsPatchFile file bytes }
{}

/// A string is the patch file of at most one version with its nodes, fields and bodies.
pub fn string_says_one_file()
    ensures { (one other : FileLists) (bytes : List ℕ) → IsPatchFile one bytes
        → IsPatchFile other bytes → one ≡ other }
{}

/// A version with its nodes, fields and bodies has at most one string.
pub fn file_has_one_string()
    ensures { (file : FileLists) (xs ys : List ℕ) → IsPatchFile file xs → IsPatchFile file ys
        → xs ≡ ys }
{}

/// A string that ends too early is told with its own length.
pub fn truncated_tells_the_length()
    ensures { (bytes : List ℕ) (end : ℕ) → file_in bytes ≡ Err (Truncated end)
        → end ≡ length bytes }
{}

/// Any other first fault of a string stays the first one whatever bytes follow.
pub fn fault_stays_whatever_follows()
    ensures { (bytes more : List ℕ) (fault : FileFault) → file_in bytes ≡ Err fault
        → IsLasting fault → file_in (bytes ++ more) ≡ Err fault }
{}

/// Strings of one length that are the same number are equal.
pub fn number_has_one_string()
    ensures { (w : ℕ) (xs ys : List ℕ) → IsBytes xs → IsBytes ys → length xs ≡ w → length ys ≡ w
        → number_in w xs ≡ number_in w ys → xs ≡ ys }
{}
