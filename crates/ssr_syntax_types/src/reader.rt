//! What the functions of forms call for a goal one level below.
ghost use Rattle.std.specs.Prelude.{◌≡◌};
ghost use Rattle.ssr_syntax_types.specs.declared.goals.Goal.{Goal};
ghost use Rattle.ssr_syntax_forms.specs.Parser.{Steps};
ghost use Rattle.ssr_syntax_forms.specs.Runs.{RunsBelow};

use crate::goals::Goal;
use ssr_syntax_forms::{Fault, Parser};

/// Reads a goal one level below.
pub trait Reader {
    /// When it may be called.
    ghost can_read: { Self → Type 0 };
    /// What it does to the parser's state, and whether it reads all of Rust.
    ghost reads: { Self → RunsBelow Goal };

    /// Whether all of Rust is read, or the stated language alone.
    fn is_whole(&self) -> bool
        ensures { result ≡ (reads self.now).is_whole };

    fn read(&self, p: &mut Parser<'_>, goal: Goal) -> Result<(), Fault>
        requires { can_read self.now }
        ensures { Steps p.new result ((reads self.now).runs goal p.old) };
}
