//! What new texts are written to. What it was asked is known to proofs alone.
ghost use Rattle.std.specs.Prelude.{◌≡◌, List, [], ◌∷◌, ◌++◌, OnErr, OnOk};
ghost use Rattle.ssr_writing.specs.Disk.{Call, Made, Missed, NotMade, NotRenamed, Removed, Renamed, Saw};

use crate::faults::WriteFault;
use std::fs::Permissions;

/// A disk. Others may write to it at any time, so it tells what it was asked, and not what it has.
pub trait Disk {
    // The calls so far, the latest last.
    ghost calls: { Self → List Call };

    /// The permissions of a regular file, reached through no link, that has exactly this text.
    fn see(&mut self, path: &str, text: &str) -> Result<Permissions, WriteFault>
        ensures ok { OnOk result (calls self.new ≡ calls self.old ++ Saw path.now text.now ∷ []) }
        ensures err { OnErr result (calls self.new ≡ calls self.old ++ Missed path.now ∷ []) };

    /// Makes a new file with this text, whole and lasting. Where that fails it isn't there.
    fn make(&mut self, path: &str, text: &str, permissions: Permissions) -> Result<(), WriteFault>
        ensures ok { OnOk result (calls self.new ≡ calls self.old ++ Made path.now text.now ∷ []) }
        ensures err { OnErr result (calls self.new ≡ calls self.old ++ NotMade path.now ∷ []) };

    /// Puts a file in the place of another.
    fn rename(&mut self, from: &str, to: &str) -> Result<(), WriteFault>
        ensures ok { OnOk result (calls self.new ≡ calls self.old ++ Renamed from.now to.now ∷ []) }
        ensures err { OnErr result (calls self.new ≡ calls self.old ++ NotRenamed from.now to.now ∷ []) };

    /// Removes a file. One that can't be removed stays, since nothing more can be done.
    fn remove(&mut self, path: &str)
        ensures { calls self.new ≡ calls self.old ++ Removed path.now ∷ [] };
}
