//! What holds of the calls that a disk is asked, whatever the code: each function here does nothing, and what it ensures is a law.
ghost use Rattle.std.specs.Prelude.{List, take};
ghost use Rattle.ssr_writing.specs.declared.faults.WriteError.{WriteError};
ghost use Rattle.ssr_writing.specs.declared.writing.NewText.{NewText};
ghost use Rattle.ssr_writing.specs.Disk.{AreApart, Call, Stops, writes};
ghost use Rattle.ssr_writing.specs.Replay.{AreWritten, HasNoTemporaries, Texts, after};

/// On a disk to which nobody else writes, and where no temporary file lies, a run that ends well leaves each file with its new
/// text and all else as it was. A run that fails does so with the files in front of the one that fails: with none, all is as it
/// was.
pub fn calm()
    ensures ends_well { (files : List NewText) (texts : Texts) → AreApart files → HasNoTemporaries files texts → AreWritten files texts (after (writes files) texts) }
    ensures fails { (files : List NewText) (texts : Texts) (e : WriteError) (asked : List Call) → HasNoTemporaries files texts → Stops files e asked → AreWritten (take e.written files) texts (after asked texts) }
{}
