//! The function that reads literals.
ghost use Rattle.ssr_syntax_types.specs.Literals as form;
ghost use Rattle.ssr_syntax_forms.specs.Runs.{Runs};

use crate::reader::Reader;
use ssr_syntax_forms::{Fault, Parser, TokenSet};
use ssr_syntax_kinds::SyntaxKind;
use ssr_syntax_kinds::SyntaxKind::*;

/// The tokens that are literals.
#[derive(Clone, Copy)]
pub struct Literals;

impl TokenSet for Literals {
    ghost kinds = { λ _. form.literals };

    #[inline(always)]
    #[tactic(auto, unfolding(crate::specs::Literals::literals))]
    fn contains(self, kind: SyntaxKind) -> bool {
        matches!(
            kind,
            INT_NUMBER
                | FLOAT_NUMBER
                | STRING
                | BYTE_STRING
                | C_STRING
                | BYTE
                | CHAR
                | TRUE_KW
                | FALSE_KW
        )
    }
}

/// LITERAL: a number, a string, a byte, a character, `true` or `false`.
#[tactic(auto, unfolding(crate::specs::Literals::literal))]
pub fn literal<R: Reader>(goals: &R, p: &mut Parser<'_>) -> Result<(), Fault>
    requires { R.can_read goals.now }
    ensures { Runs (R.reads goals.now) form.literal p.old p.new result }
{
    let m = p.start();
    p.expect_any(Literals)?;
    p.complete(&m, LITERAL)
}
