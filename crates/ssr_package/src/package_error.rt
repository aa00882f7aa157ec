//! Why there is no run.
ghost use Rattle.std.specs.Prelude.{◌≡◌};

use crate::notes::Trouble;
use std::alloc::{AllocError, AllocFailed};
use std::fmt;

/// Why a package's files aren't told.
#[derive(Debug, Drop)]
pub enum PackageError {
    /// There is no `Cargo.toml` in the folder or above it: the folder.
    NoManifest(String),
    /// A manifest can't be read: its path.
    Unreadable(String, Trouble),
    /// A manifest is no TOML: its path, and what the reader of TOML says.
    NotToml(String, String),
    /// A manifest is neither a package's nor a workspace's: its path.
    NoPackage(String),
    /// There is no package of this name.
    NoSuchPackage(String),
    /// A given path lies outside of the folder: the path.
    Outside(String),
    /// A given path is not there: the path.
    Missing(String),
    /// There are more files or folders than a run takes.
    TooMany,
    /// Memory ran out.
    Memory,
}

impl From<AllocError> for PackageError {
    ghost use Rattle.ssr_package.specs.declared.package_error.PackageError.TheVariants.{Memory};

    ghost from_gives = { λ _ e. e ≡ Memory };

    fn from(_: AllocError) -> PackageError {
        PackageError::Memory
    }
}

impl<T: Drop> From<AllocFailed<T>> for PackageError {
    ghost use Rattle.ssr_package.specs.declared.package_error.PackageError.TheVariants.{Memory};

    ghost from_gives = { λ _ e. e ≡ Memory };

    fn from(_: AllocFailed<T>) -> PackageError {
        PackageError::Memory
    }
}

impl fmt::Display for PackageError {
    ghost use Rattle.ssr_package.specs.Errors.{error_words};

    ghost output = { error_words };

    fn fmt<W: fmt::Write>(&self, f: &mut fmt::Formatter<W>) -> fmt::Result {
        match self {
            PackageError::NoManifest(folder) => write!(f, "no Cargo.toml in {folder} or above"),
            PackageError::Unreadable(path, why) => write!(f, "{path}: {why}"),
            PackageError::NotToml(path, why) => write!(f, "{path}: {why}"),
            PackageError::NoPackage(path) => write!(f, "{path}: neither a package nor a workspace"),
            PackageError::NoSuchPackage(name) => write!(f, "no package {name}"),
            PackageError::Outside(path) => write!(f, "{path}: outside of the folder"),
            PackageError::Missing(path) => write!(f, "{path}: not there"),
            PackageError::TooMany => f.write_str("too many files"),
            PackageError::Memory => f.write_str("out of memory"),
        }
    }
}

impl std::error::Error for PackageError {}
