//! Versions of rule files: each says which keys a rule and the file may have.

/// The version of a rule file.
#[derive(Clone, Copy, Debug, PartialEq, Eq)]
pub enum Version {
    One,
    /// A rule may be about owners (`owner`).
    Two,
    /// The file may have tables that hide attributes (`hide`).
    Three,
}
