//! The functions that read generic arguments in angle brackets.
ghost use Rattle.ssr_syntax_exprs.specs.GenericArgs as form;
ghost use Rattle.ssr_syntax_forms.specs.Runs.{Runs, RunsAnywhere};

use crate::blocks::block_expr;
use ssr_syntax_forms::{Fault, Parser, TokenSet};
use ssr_syntax_kinds::SyntaxKind;
use ssr_syntax_kinds::SyntaxKind::*;
use ssr_syntax_types::goals::Goal;
use ssr_syntax_types::literals::{Literals, literal};
use ssr_syntax_types::paths::{CloseAngle, OpenAngle, TypeFirst, lifetime, name_ref, type_arg};
use ssr_syntax_types::reader::Reader;
use ssr_syntax_types::types::bounds_or_none;

/// What a generic argument begins with that is neither a literal nor a type.
#[derive(Clone, Copy)]
struct GenericArgMarks;

impl TokenSet for GenericArgMarks {
    ghost kinds = { λ _. form.generic_arg_marks };

    #[inline(always)]
    #[tactic(auto, unfolding(crate::specs::GenericArgs::generic_arg_marks))]
    fn contains(self, kind: SyntaxKind) -> bool {
        matches!(kind, LIFETIME_IDENT | MINUS | L_CURLY)
    }
}

/// What a generic argument begins with.
#[derive(Clone, Copy)]
struct GenericArgFirst(bool);

impl TokenSet for GenericArgFirst {
    ghost kinds = { λ s. form.generic_arg_first s.0 };

    #[inline(always)]
    #[tactic(auto, using(ssr_syntax_forms::proofs::Shared::mem_append), unfolding(crate::specs::GenericArgs::generic_arg_first))]
    fn contains(self, kind: SyntaxKind) -> bool {
        GenericArgMarks.contains(kind)
            || Literals.contains(kind)
            || TypeFirst(self.0).contains(kind)
    }
}

/// LIFETIME_ARG: a LIFETIME.
#[tactic(auto, unfolding(crate::specs::GenericArgs::lifetime_arg))]
fn lifetime_arg<R: Reader>(goals: &R, p: &mut Parser<'_>) -> Result<(), Fault>
    requires { R.can_read goals.now }
    ensures { Runs (R.reads goals.now) form.lifetime_arg p.old p.new result }
{
    let m = p.start();
    lifetime(goals, p)?;
    p.complete(&m, LIFETIME_ARG)
}

/// CONST_ARG: a LITERAL.
#[tactic(auto, unfolding(crate::specs::GenericArgs::literal_arg))]
fn literal_arg<R: Reader>(goals: &R, p: &mut Parser<'_>) -> Result<(), Fault>
    requires { R.can_read goals.now }
    ensures { Runs (R.reads goals.now) form.literal_arg p.old p.new result }
{
    let m = p.start();
    literal(goals, p)?;
    p.complete(&m, CONST_ARG)
}

/// PREFIX_EXPR: `-` and a LITERAL.
#[tactic(auto, unfolding(crate::specs::GenericArgs::negative_literal))]
fn negative_literal<R: Reader>(goals: &R, p: &mut Parser<'_>) -> Result<(), Fault>
    requires { R.can_read goals.now }
    ensures { Runs (R.reads goals.now) form.negative_literal p.old p.new result }
{
    let m = p.start();
    p.expect(MINUS)?;
    literal(goals, p)?;
    p.complete(&m, PREFIX_EXPR)
}

/// CONST_ARG: `-` and a LITERAL.
#[tactic(auto, unfolding(crate::specs::GenericArgs::negative_arg))]
fn negative_arg<R: Reader>(goals: &R, p: &mut Parser<'_>) -> Result<(), Fault>
    requires { R.can_read goals.now }
    ensures { Runs (R.reads goals.now) form.negative_arg p.old p.new result }
{
    let m = p.start();
    negative_literal(goals, p)?;
    p.complete(&m, CONST_ARG)
}

/// CONST_ARG: a BLOCK_EXPR.
#[tactic(auto, unfolding(crate::specs::GenericArgs::block_arg))]
fn block_arg<R: Reader>(goals: &R, p: &mut Parser<'_>) -> Result<(), Fault>
    requires { R.can_read goals.now }
    ensures { Runs (R.reads goals.now) form.block_arg p.old p.new result }
{
    let m = p.start();
    block_expr(goals, p)?;
    p.complete(&m, CONST_ARG)
}

/// ASSOC_TYPE_ARG: a NAME_REF, `=` and a type.
#[tactic(auto, unfolding(crate::specs::GenericArgs::assoc_type_arg))]
fn assoc_type_arg<R: Reader>(goals: &R, p: &mut Parser<'_>) -> Result<(), Fault>
    requires { R.can_read goals.now }
    ensures { Runs (R.reads goals.now) form.assoc_type_arg p.old p.new result }
{
    let m = p.start();
    name_ref(goals, p)?;
    p.expect(EQ)?;
    goals.read(p, Goal::Ty)?;
    p.complete(&m, ASSOC_TYPE_ARG)
}

/// ASSOC_TYPE_ARG: a NAME_REF, `:` and perhaps bounds.
#[tactic(auto, unfolding(crate::specs::GenericArgs::assoc_bound_arg))]
fn assoc_bound_arg<R: Reader>(goals: &R, p: &mut Parser<'_>) -> Result<(), Fault>
    requires { R.can_read goals.now }
    ensures { Runs (R.reads goals.now) form.assoc_bound_arg p.old p.new result }
{
    let m = p.start();
    name_ref(goals, p)?;
    p.expect(COLON)?;
    bounds_or_none(goals, p)?;
    p.complete(&m, ASSOC_TYPE_ARG)
}

/// Any generic argument.
#[tactic(auto, using(ssr_syntax_forms::proofs::Shared::run_also_decide), unfolding(crate::specs::GenericArgs::generic_arg))]
fn generic_arg<R: Reader>(goals: &R, p: &mut Parser<'_>) -> Result<(), Fault>
    requires { R.can_read goals.now }
    ensures { RunsAnywhere (R.reads goals.now) form.generic_arg p.old p.new result }
{
    if goals.is_whole() && p.at_two(IDENT, COLON) {
        assoc_bound_arg(goals, p)
    } else {
        stated_generic_arg(goals, p)
    }
}

/// Any generic argument of the stated language.
#[tactic(auto, using(ssr_syntax_forms::proofs::Shared::run_decide), unfolding(crate::specs::GenericArgs::stated_generic_arg))]
fn stated_generic_arg<R: Reader>(goals: &R, p: &mut Parser<'_>) -> Result<(), Fault>
    requires { R.can_read goals.now }
    ensures { RunsAnywhere (R.reads goals.now) form.stated_generic_arg p.old p.new result }
{
    if p.at(LIFETIME_IDENT) {
        lifetime_arg(goals, p)
    } else if p.at_any(Literals) {
        literal_arg(goals, p)
    } else if p.at(MINUS) {
        negative_arg(goals, p)
    } else if p.at(L_CURLY) {
        block_arg(goals, p)
    } else if p.at_two(IDENT, EQ) {
        assoc_type_arg(goals, p)
    } else {
        type_arg(goals, p)
    }
}

/// GENERIC_ARG_LIST: generic arguments in angle brackets, with commas between them, perhaps with `::` in front.
#[tactic(auto, using(ssr_syntax_forms::proofs::Shared::run_comma_list_by), unfolding(crate::specs::GenericArgs::generic_arg_list))]
pub fn generic_arg_list<R: Reader>(goals: &R, p: &mut Parser<'_>) -> Result<(), Fault>
    requires { R.can_read goals.now }
    ensures { Runs (R.reads goals.now) form.generic_arg_list p.old p.new result }
{
    let m = p.start();
    p.eat(COLON2)?;
    p.expect_part(OpenAngle)?;
    p.comma_list(GenericArgFirst(goals.is_whole()), |p| generic_arg(goals, p))?;
    p.expect_part(CloseAngle)?;
    p.complete(&m, GENERIC_ARG_LIST)
}
