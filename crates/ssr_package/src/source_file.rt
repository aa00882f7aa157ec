//! A file as it stands on the disk.

/// A file's name, a path with slashes from the folder of its package, and its text.
#[derive(Debug, PartialEq, Eq, Drop)]
pub struct SourceFile {
    pub name: String,
    pub text: String,
}
