//! What patterns begin with, and the operators of ranges: expressions and items ask for them too.
ghost use Rattle.ssr_syntax_types.specs.PatternSets as form;

use crate::literals::Literals;
use crate::paths::PathFirst;
use ssr_syntax_forms::TokenSet;
use ssr_syntax_kinds::SyntaxKind;
use ssr_syntax_kinds::SyntaxKind::*;

/// The operators of ranges.
#[derive(Clone, Copy)]
pub struct Ranges;

impl TokenSet for Ranges {
    ghost kinds = { λ _. form.ranges };

    #[inline(always)]
    #[tactic(auto, unfolding(crate::specs::PatternSets::ranges))]
    fn contains(self, kind: SyntaxKind) -> bool {
        matches!(kind, DOT2 | DOT2EQ)
    }
}

/// What a literal in a pattern begins with.
#[derive(Clone, Copy)]
pub struct LiteralPatFirst;

impl TokenSet for LiteralPatFirst {
    ghost kinds = { λ _. form.literal_pat_first };

    #[inline(always)]
    #[tactic(auto, unfolding(crate::specs::PatternSets::literal_pat_first))]
    fn contains(self, kind: SyntaxKind) -> bool {
        matches!(kind, MINUS) || Literals.contains(kind)
    }
}

/// What a bound of a range begins with.
#[derive(Clone, Copy)]
pub struct BoundFirst;

impl TokenSet for BoundFirst {
    ghost kinds = { λ _. form.bound_first };

    #[inline(always)]
    #[tactic(auto, using(ssr_syntax_forms::proofs::Shared::mem_append), unfolding(crate::specs::PatternSets::bound_first))]
    fn contains(self, kind: SyntaxKind) -> bool {
        LiteralPatFirst.contains(kind) || PathFirst.contains(kind)
    }
}

/// What other patterns without `|` in front begin with.
#[derive(Clone, Copy)]
pub struct PatMarks;

impl TokenSet for PatMarks {
    ghost kinds = { λ _. form.pat_marks };

    #[inline(always)]
    #[tactic(auto, unfolding(crate::specs::PatternSets::pat_marks))]
    fn contains(self, kind: SyntaxKind) -> bool {
        matches!(
            kind,
            AMP | AMP2 | DOT2 | DOT2EQ | UNDERSCORE | L_PAREN | L_BRACK | REF_KW | MUT_KW
        )
    }
}

/// What a pattern without `|` in front begins with.
#[derive(Clone, Copy)]
pub struct SinglePatFirst;

impl TokenSet for SinglePatFirst {
    ghost kinds = { λ _. form.single_pat_first };

    #[inline(always)]
    #[tactic(auto, using(ssr_syntax_forms::proofs::Shared::mem_append), unfolding(crate::specs::PatternSets::single_pat_first))]
    fn contains(self, kind: SyntaxKind) -> bool {
        BoundFirst.contains(kind) || PatMarks.contains(kind)
    }
}

/// What a pattern begins with.
#[derive(Clone, Copy)]
pub struct PatFirst;

impl TokenSet for PatFirst {
    ghost kinds = { λ _. form.pat_first };

    #[inline(always)]
    #[tactic(auto, unfolding(crate::specs::PatternSets::pat_first))]
    fn contains(self, kind: SyntaxKind) -> bool {
        matches!(kind, PIPE) || SinglePatFirst.contains(kind)
    }
}

/// What a parameter begins with; with `true`, where all of Rust is read.
#[derive(Clone, Copy)]
pub struct ParamFirst(pub bool);

impl TokenSet for ParamFirst {
    ghost kinds = { λ s. form.param_first s.0 };

    #[inline(always)]
    #[tactic(auto, using(ssr_syntax_forms::proofs::Shared::mem_append, ssr_syntax_forms::proofs::Shared::mem_where_whole), unfolding(crate::specs::PatternSets::param_first))]
    fn contains(self, kind: SyntaxKind) -> bool {
        SinglePatFirst.contains(kind) || self.0 && POUND.contains(kind)
    }
}
