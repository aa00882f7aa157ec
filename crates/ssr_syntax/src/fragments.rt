//! Texts that are no whole file.
ghost use Rattle.std.specs.Prelude.{◌≡◌};
ghost use Rattle.ssr_syntax.specs.Reading.{goal_of};

use ssr_syntax_kinds::Fragment;
use ssr_syntax_types::goals::{ExprPlace, Goal, ItemPlace, PatPlace};

/// The goal that a text is read as for a fragment of this kind.
pub(crate) fn goal(fragment: Fragment) -> Goal
    ensures { result ≡ goal_of fragment }
{
    match fragment {
        Fragment::Expr => Goal::Expr(ExprPlace::Anywhere),
        Fragment::Ty => Goal::Ty,
        Fragment::Item => Goal::Item(ItemPlace::InModule),
        Fragment::Pat => Goal::Pat(PatPlace::TopLevel),
        Fragment::Stmt => Goal::Stmt,
    }
}
