//! The functions that read types and bounds.
ghost use Rattle.std.specs.Prelude.{◌≡◌, true};
ghost use Rattle.ssr_syntax_types.specs.Types as form;
ghost use Rattle.ssr_syntax_forms.specs.Forms.{passes};
ghost use Rattle.ssr_syntax_forms.specs.Runs.{Runs, RunsAnywhere, RunsFrom};

use crate::goals::{ExprPlace, Goal, PathPlace};
use crate::paths::{
    CloseAngle, OpenAngle, PathFirst, PathNames, TypeFirst, lifetime, name, path, path_name,
    ret_type,
};
use crate::reader::Reader;
use crate::token_trees::attrs;
use ssr_syntax_forms::{Fault, Mark, Parser, TokenSet};
use ssr_syntax_kinds::SyntaxKind;
use ssr_syntax_kinds::SyntaxKind::*;

/// What a reference begins with.
#[derive(Clone, Copy)]
pub struct Ampersands;

impl TokenSet for Ampersands {
    ghost kinds = { λ _. form.ampersands };

    #[inline(always)]
    fn contains(self, kind: SyntaxKind) -> bool {
        matches!(kind, AMP | AMP2)
    }
}

/// The words of a raw pointer.
#[derive(Clone, Copy)]
pub struct PointerWords;

impl TokenSet for PointerWords {
    ghost kinds = { λ _. form.pointer_words };

    #[inline(always)]
    fn contains(self, kind: SyntaxKind) -> bool {
        matches!(kind, CONST_KW | MUT_KW)
    }
}

/// What a bound `use` names begins with.
#[derive(Clone, Copy)]
struct UseArgFirst;

impl TokenSet for UseArgFirst {
    ghost kinds = { λ _. form.use_arg_first };

    #[inline(always)]
    fn contains(self, kind: SyntaxKind) -> bool {
        matches!(kind, LIFETIME_IDENT) || PathNames.contains(kind)
    }
}

/// What a bound of the stated language begins with.
#[derive(Clone, Copy)]
struct StatedBoundFirst;

impl TokenSet for StatedBoundFirst {
    ghost kinds = { λ _. form.stated_bound_first };

    #[inline(always)]
    #[tactic(auto, unfolding(crate::specs::Types::stated_bound_first))]
    fn contains(self, kind: SyntaxKind) -> bool {
        matches!(kind, LIFETIME_IDENT | QUESTION) || PathFirst.contains(kind)
    }
}

/// What else a bound of all of Rust begins with.
#[derive(Clone, Copy)]
struct WholeBoundWords;

impl TokenSet for WholeBoundWords {
    ghost kinds = { λ _. form.whole_bound_words };

    #[inline(always)]
    fn contains(self, kind: SyntaxKind) -> bool {
        matches!(kind, USE_KW | FOR_KW | L_PAREN)
    }
}

/// What a bound begins with; with `true`, where all of Rust is read.
#[derive(Clone, Copy)]
struct TypeBoundFirst(bool);

impl TokenSet for TypeBoundFirst {
    ghost kinds = { λ s. form.type_bound_first s.0 };

    #[inline(always)]
    #[tactic(auto, using(ssr_syntax_forms::proofs::Shared::mem_append, ssr_syntax_forms::proofs::Shared::mem_where_whole), unfolding(crate::specs::Types::type_bound_first))]
    fn contains(self, kind: SyntaxKind) -> bool {
        StatedBoundFirst.contains(kind) || self.0 && WholeBoundWords.contains(kind)
    }
}

/// What names a parameter.
#[derive(Clone, Copy)]
struct NameOrUnderscore;

impl TokenSet for NameOrUnderscore {
    ghost kinds = { λ _. form.param_names };

    #[inline(always)]
    fn contains(self, kind: SyntaxKind) -> bool {
        matches!(kind, IDENT | UNDERSCORE)
    }
}

/// What a parameter of a pointer to a function begins with.
#[derive(Clone, Copy)]
struct FnPtrParamFirst;

impl TokenSet for FnPtrParamFirst {
    ghost kinds = { λ _. form.fn_ptr_param_first };

    #[inline(always)]
    #[tactic(auto, unfolding(crate::specs::Types::fn_ptr_param_first))]
    fn contains(self, kind: SyntaxKind) -> bool {
        matches!(kind, POUND | DOT2) || TypeFirst(true).contains(kind)
    }
}

/// What a pointer to a function begins with.
#[derive(Clone, Copy)]
struct FnPtrFirst;

impl TokenSet for FnPtrFirst {
    ghost kinds = { λ _. form.fn_ptr_first };

    #[inline(always)]
    fn contains(self, kind: SyntaxKind) -> bool {
        matches!(kind, FN_KW | UNSAFE_KW | EXTERN_KW)
    }
}

/// What the path of a macro call hasn't.
#[derive(Clone, Copy)]
struct NoMacroPath;

impl TokenSet for NoMacroPath {
    ghost kinds = { λ _. form.no_macro_path };

    #[inline(always)]
    fn contains(self, kind: SyntaxKind) -> bool {
        matches!(kind, L_ANGLE | L_PAREN)
    }
}

/// PATH_TYPE: a PATH.
#[tactic(auto, unfolding(crate::specs::Types::path_type))]
pub fn path_type<R: Reader>(goals: &R, p: &mut Parser<'_>) -> Result<(), Fault>
    requires { R.can_read goals.now }
    ensures { Runs (R.reads goals.now) form.path_type p.old p.new result }
{
    let m = p.start();
    path(goals, p, PathPlace::InType)?;
    p.complete(&m, PATH_TYPE)
}

/// REF_TYPE: `&`, also the first of `&&`, perhaps a LIFETIME and `mut`, and a type.
#[tactic(auto, unfolding(crate::specs::Types::ref_type))]
fn ref_type<R: Reader>(goals: &R, p: &mut Parser<'_>) -> Result<(), Fault>
    requires { R.can_read goals.now }
    ensures { Runs (R.reads goals.now) form.ref_type p.old p.new result }
{
    let m = p.start();
    p.expect_part(Ampersands)?;
    if p.at(LIFETIME_IDENT) {
        lifetime(goals, p)?;
    }
    p.eat(MUT_KW)?;
    goals.read(p, Goal::Ty)?;
    p.complete(&m, REF_TYPE)
}

/// PTR_TYPE: `*`, `const` or `mut`, and a type.
#[tactic(auto, unfolding(crate::specs::Types::ptr_type))]
fn ptr_type<R: Reader>(goals: &R, p: &mut Parser<'_>) -> Result<(), Fault>
    requires { R.can_read goals.now }
    ensures { Runs (R.reads goals.now) form.ptr_type p.old p.new result }
{
    let m = p.start();
    p.expect(STAR)?;
    p.expect_any(PointerWords)?;
    goals.read(p, Goal::Ty)?;
    p.complete(&m, PTR_TYPE)
}

/// NEVER_TYPE: `!`.
#[tactic(auto, unfolding(crate::specs::Types::never_type))]
fn never_type<R: Reader>(goals: &R, p: &mut Parser<'_>) -> Result<(), Fault>
    requires { R.can_read goals.now }
    ensures { Runs (R.reads goals.now) form.never_type p.old p.new result }
{
    let m = p.start();
    p.expect(BANG)?;
    p.complete(&m, NEVER_TYPE)
}

/// INFER_TYPE: `_`.
#[tactic(auto, unfolding(crate::specs::Types::infer_type))]
fn infer_type<R: Reader>(goals: &R, p: &mut Parser<'_>) -> Result<(), Fault>
    requires { R.can_read goals.now }
    ensures { Runs (R.reads goals.now) form.infer_type p.old p.new result }
{
    let m = p.start();
    p.expect(UNDERSCORE)?;
    p.complete(&m, INFER_TYPE)
}

/// TUPLE_TYPE of no type, behind `(`.
#[tactic(auto, unfolding(crate::specs::Types::unit_type))]
fn unit_type<R: Reader>(goals: &R, p: &mut Parser<'_>, m: &Mark<'_>) -> Result<(), Fault>
    requires { R.can_read goals.now }
    ensures { RunsFrom (R.reads goals.now) form.unit_type m.now p.old p.new result }
{
    p.expect(R_PAREN)?;
    p.complete(m, TUPLE_TYPE)
}

/// PAREN_TYPE, behind `(` and a type.
#[tactic(auto, unfolding(crate::specs::Types::paren_type))]
fn paren_type<R: Reader>(goals: &R, p: &mut Parser<'_>, m: &Mark<'_>) -> Result<(), Fault>
    requires { R.can_read goals.now }
    ensures { RunsFrom (R.reads goals.now) form.paren_type m.now p.old p.new result }
{
    p.expect(R_PAREN)?;
    p.complete(m, PAREN_TYPE)
}

/// TUPLE_TYPE, behind `(` and the first type.
#[tactic(auto, using(ssr_syntax_forms::proofs::Shared::run_comma_list_by), unfolding(crate::specs::Types::tuple_type))]
fn tuple_type<R: Reader>(goals: &R, p: &mut Parser<'_>, m: &Mark<'_>) -> Result<(), Fault>
    requires { R.can_read goals.now }
    ensures { RunsFrom (R.reads goals.now) form.tuple_type m.now p.old p.new result }
{
    p.expect(COMMA)?;
    p.comma_list(TypeFirst(goals.is_whole()), |p| goals.read(p, Goal::Ty))?;
    p.expect(R_PAREN)?;
    p.complete(m, TUPLE_TYPE)
}

/// PAREN_TYPE or TUPLE_TYPE, behind `(`.
#[tactic(auto, unfolding(crate::specs::Types::paren_or_tuple_type))]
fn paren_or_tuple_type<R: Reader>(goals: &R, p: &mut Parser<'_>, m: &Mark<'_>) -> Result<(), Fault>
    requires { R.can_read goals.now }
    ensures { RunsFrom (R.reads goals.now) form.paren_or_tuple_type m.now p.old p.new result }
{
    goals.read(p, Goal::Ty)?;
    if p.at(R_PAREN) {
        paren_type(goals, p, m)
    } else {
        tuple_type(goals, p, m)
    }
}

/// PAREN_TYPE or TUPLE_TYPE.
#[tactic(auto, unfolding(crate::specs::Types::type_in_parentheses))]
fn type_in_parentheses<R: Reader>(goals: &R, p: &mut Parser<'_>) -> Result<(), Fault>
    requires { R.can_read goals.now }
    ensures { Runs (R.reads goals.now) form.type_in_parentheses p.old p.new result }
{
    let m = p.start();
    p.expect(L_PAREN)?;
    if p.at(R_PAREN) {
        unit_type(goals, p, &m)
    } else {
        paren_or_tuple_type(goals, p, &m)
    }
}

/// ARRAY_TYPE, behind `[` and a type.
#[tactic(auto, unfolding(crate::specs::Types::array_type))]
fn array_type<R: Reader>(goals: &R, p: &mut Parser<'_>, m: &Mark<'_>) -> Result<(), Fault>
    requires { R.can_read goals.now }
    ensures { RunsFrom (R.reads goals.now) form.array_type m.now p.old p.new result }
{
    p.expect(SEMICOLON)?;
    goals.read(p, Goal::Expr(ExprPlace::Anywhere))?;
    p.expect(R_BRACK)?;
    p.complete(m, ARRAY_TYPE)
}

/// SLICE_TYPE, behind `[` and a type.
#[tactic(auto, unfolding(crate::specs::Types::slice_type))]
fn slice_type<R: Reader>(goals: &R, p: &mut Parser<'_>, m: &Mark<'_>) -> Result<(), Fault>
    requires { R.can_read goals.now }
    ensures { RunsFrom (R.reads goals.now) form.slice_type m.now p.old p.new result }
{
    p.expect(R_BRACK)?;
    p.complete(m, SLICE_TYPE)
}

/// ARRAY_TYPE or SLICE_TYPE.
#[tactic(auto, unfolding(crate::specs::Types::type_in_brackets))]
fn type_in_brackets<R: Reader>(goals: &R, p: &mut Parser<'_>) -> Result<(), Fault>
    requires { R.can_read goals.now }
    ensures { Runs (R.reads goals.now) form.type_in_brackets p.old p.new result }
{
    let m = p.start();
    p.expect(L_BRACK)?;
    goals.read(p, Goal::Ty)?;
    if p.at(SEMICOLON) {
        array_type(goals, p, &m)
    } else {
        slice_type(goals, p, &m)
    }
}

/// TYPE_BOUND: a LIFETIME.
#[tactic(auto, unfolding(crate::specs::Types::lifetime_bound))]
fn lifetime_bound<R: Reader>(goals: &R, p: &mut Parser<'_>) -> Result<(), Fault>
    requires { R.can_read goals.now }
    ensures { Runs (R.reads goals.now) form.lifetime_bound p.old p.new result }
{
    let m = p.start();
    lifetime(goals, p)?;
    p.complete(&m, TYPE_BOUND)
}

/// A PATH_TYPE, perhaps with `?` in front, and in all of Rust perhaps with FOR_BINDER.
#[tactic(auto, using(ssr_syntax_forms::proofs::Shared::run_also), unfolding(crate::specs::Types::bounding_path))]
fn bounding_path<R: Reader>(goals: &R, p: &mut Parser<'_>) -> Result<(), Fault>
    requires { R.can_read goals.now }
    ensures { RunsAnywhere (R.reads goals.now) form.bounding_path p.old p.new result }
{
    p.eat(QUESTION)?;
    if p.at(FOR_KW) && goals.is_whole() {
        goals.read(p, Goal::ForBinder)?;
    }
    goals.read(p, Goal::PathType)
}

/// TYPE_BOUND: perhaps `?`, and a PATH_TYPE.
#[tactic(auto, unfolding(crate::specs::Types::trait_bound))]
fn trait_bound<R: Reader>(goals: &R, p: &mut Parser<'_>) -> Result<(), Fault>
    requires { R.can_read goals.now }
    ensures { Runs (R.reads goals.now) form.trait_bound p.old p.new result }
{
    let m = p.start();
    bounding_path(goals, p)?;
    p.complete(&m, TYPE_BOUND)
}

/// TYPE_BOUND in parentheses.
#[tactic(auto, unfolding(crate::specs::Types::paren_bound))]
fn paren_bound<R: Reader>(goals: &R, p: &mut Parser<'_>) -> Result<(), Fault>
    requires { R.can_read goals.now }
    ensures { Runs (R.reads goals.now) form.paren_bound p.old p.new result }
{
    let m = p.start();
    p.expect(L_PAREN)?;
    bounding_path(goals, p)?;
    p.expect(R_PAREN)?;
    p.complete(&m, TYPE_BOUND)
}

/// What a bound `use` names: a LIFETIME or a NAME_REF.
#[tactic(auto, unfolding(crate::specs::Types::use_arg))]
fn use_arg<R: Reader>(goals: &R, p: &mut Parser<'_>) -> Result<(), Fault>
    requires { R.can_read goals.now }
    ensures { RunsAnywhere (R.reads goals.now) form.use_arg p.old p.new result }
{
    if p.at(LIFETIME_IDENT) {
        lifetime(goals, p)
    } else {
        path_name(goals, p)
    }
}

/// USE_BOUND_GENERIC_ARGS: these in angle brackets.
#[tactic(auto, using(ssr_syntax_forms::proofs::Shared::run_comma_list), unfolding(crate::specs::Types::use_args))]
fn use_args<R: Reader>(goals: &R, p: &mut Parser<'_>) -> Result<(), Fault>
    requires { R.can_read goals.now }
    ensures { Runs (R.reads goals.now) form.use_args p.old p.new result }
{
    let m = p.start();
    p.expect_part(OpenAngle)?;
    p.comma_list(UseArgFirst, |p| use_arg(goals, p))?;
    p.expect_part(CloseAngle)?;
    p.complete(&m, USE_BOUND_GENERIC_ARGS)
}

/// TYPE_BOUND: `use` and USE_BOUND_GENERIC_ARGS.
#[tactic(auto, unfolding(crate::specs::Types::use_bound))]
fn use_bound<R: Reader>(goals: &R, p: &mut Parser<'_>) -> Result<(), Fault>
    requires { R.can_read goals.now }
    ensures { Runs (R.reads goals.now) form.use_bound p.old p.new result }
{
    let m = p.start();
    p.expect(USE_KW)?;
    use_args(goals, p)?;
    p.complete(&m, TYPE_BOUND)
}

/// TYPE_BOUND.
#[tactic(auto, using(ssr_syntax_forms::proofs::Shared::run_also), unfolding(crate::specs::Types::type_bound))]
fn type_bound<R: Reader>(goals: &R, p: &mut Parser<'_>) -> Result<(), Fault>
    requires { R.can_read goals.now }
    ensures { RunsAnywhere (R.reads goals.now) form.type_bound p.old p.new result }
{
    if p.at(USE_KW) && goals.is_whole() {
        use_bound(goals, p)
    } else if p.at(L_PAREN) && goals.is_whole() {
        paren_bound(goals, p)
    } else {
        stated_bound(goals, p)
    }
}

/// TYPE_BOUND of the stated language.
#[tactic(auto, unfolding(crate::specs::Types::stated_bound))]
fn stated_bound<R: Reader>(goals: &R, p: &mut Parser<'_>) -> Result<(), Fault>
    requires { R.can_read goals.now }
    ensures { RunsAnywhere (R.reads goals.now) form.stated_bound p.old p.new result }
{
    if p.at(LIFETIME_IDENT) {
        lifetime_bound(goals, p)
    } else {
        trait_bound(goals, p)
    }
}

/// TYPE_BOUND, which in all of Rust may lack behind `+`.
#[tactic(auto, using(ssr_syntax_forms::proofs::Shared::run_decide), unfolding(crate::specs::Types::bound_or_end))]
fn bound_or_end<R: Reader>(goals: &R, p: &mut Parser<'_>) -> Result<(), Fault>
    requires { R.can_read goals.now }
    ensures { RunsAnywhere (R.reads goals.now) form.bound_or_end p.old p.new result }
{
    if goals.is_whole() && !p.at_any(TypeBoundFirst(true)) {
        Ok(())
    } else {
        type_bound(goals, p)
    }
}

/// `+` and a TYPE_BOUND.
#[tactic(auto, unfolding(crate::specs::Types::further_bound))]
fn further_bound<R: Reader>(goals: &R, p: &mut Parser<'_>) -> Result<(), Fault>
    requires { R.can_read goals.now }
    ensures { RunsAnywhere (R.reads goals.now) form.further_bound p.old p.new result }
{
    p.expect(PLUS)?;
    bound_or_end(goals, p)
}

/// TYPE_BOUND_LIST: TYPE_BOUNDs with `+` between them.
#[tactic(auto, unfolding(crate::specs::Types::type_bound_list))]
pub fn type_bound_list<R: Reader>(goals: &R, p: &mut Parser<'_>) -> Result<(), Fault>
    requires { R.can_read goals.now }
    ensures { Runs (R.reads goals.now) form.type_bound_list p.old p.new result }
{
    let m = p.start();
    type_bound(goals, p)?;
    p.repeated(PLUS, |p| further_bound(goals, p))?;
    p.refuse_at(PLUS)?;
    p.complete(&m, TYPE_BOUND_LIST)
}

/// TYPE_BOUND_LIST or nothing.
#[tactic(auto, using(ssr_syntax_forms::proofs::Shared::run_choose_by), unfolding(crate::specs::Types::bounds_or_none))]
pub fn bounds_or_none<R: Reader>(goals: &R, p: &mut Parser<'_>) -> Result<(), Fault>
    requires { R.can_read goals.now }
    ensures { RunsAnywhere (R.reads goals.now) form.bounds_or_none p.old p.new result }
{
    if p.at_any(TypeBoundFirst(goals.is_whole())) {
        type_bound_list(goals, p)
    } else {
        Ok(())
    }
}

/// DYN_TRAIT_TYPE: `dyn` and a TYPE_BOUND_LIST.
#[tactic(auto, unfolding(crate::specs::Types::dyn_trait_type))]
fn dyn_trait_type<R: Reader>(goals: &R, p: &mut Parser<'_>) -> Result<(), Fault>
    requires { R.can_read goals.now }
    ensures { Runs (R.reads goals.now) form.dyn_trait_type p.old p.new result }
{
    let m = p.start();
    p.expect(DYN_KW)?;
    type_bound_list(goals, p)?;
    p.complete(&m, DYN_TRAIT_TYPE)
}

/// IMPL_TRAIT_TYPE: `impl` and a TYPE_BOUND_LIST.
#[tactic(auto, unfolding(crate::specs::Types::impl_trait_type))]
fn impl_trait_type<R: Reader>(goals: &R, p: &mut Parser<'_>) -> Result<(), Fault>
    requires { R.can_read goals.now }
    ensures { Runs (R.reads goals.now) form.impl_trait_type p.old p.new result }
{
    let m = p.start();
    p.expect(IMPL_KW)?;
    p.refuse_at(OpenAngle)?;
    type_bound_list(goals, p)?;
    p.complete(&m, IMPL_TRAIT_TYPE)
}

/// ABI: `extern` and perhaps a string.
#[tactic(auto, unfolding(crate::specs::Types::abi))]
pub fn abi<R: Reader>(goals: &R, p: &mut Parser<'_>) -> Result<(), Fault>
    requires { R.can_read goals.now }
    ensures { Runs (R.reads goals.now) form.abi p.old p.new result }
{
    let m = p.start();
    p.expect(EXTERN_KW)?;
    p.eat(STRING)?;
    p.complete(&m, ABI)
}

/// `...`, for any further arguments.
#[tactic(auto, unfolding(crate::specs::Types::variadic))]
pub fn variadic<R: Reader>(goals: &R, p: &mut Parser<'_>) -> Result<(), Fault>
    requires { R.can_read goals.now }
    ensures { RunsAnywhere (R.reads goals.now) form.variadic p.old p.new result }
{
    p.expect(DOT2)?;
    p.expect(DOT)
}

/// `...` or a type.
#[tactic(auto, unfolding(crate::specs::Types::variadic_or_type))]
pub fn variadic_or_type<R: Reader>(goals: &R, p: &mut Parser<'_>) -> Result<(), Fault>
    requires { R.can_read goals.now }
    ensures { RunsAnywhere (R.reads goals.now) form.variadic_or_type p.old p.new result }
{
    if p.at(DOT2) {
        variadic(goals, p)
    } else {
        goals.read(p, Goal::Ty)
    }
}

/// WILDCARD_PAT: the `_` in the place of a parameter's name.
#[tactic(auto, unfolding(crate::specs::Types::ignored_name))]
fn ignored_name<R: Reader>(goals: &R, p: &mut Parser<'_>) -> Result<(), Fault>
    requires { R.can_read goals.now }
    ensures { Runs (R.reads goals.now) form.ignored_name p.old p.new result }
{
    let m = p.start();
    p.expect(UNDERSCORE)?;
    p.complete(&m, WILDCARD_PAT)
}

/// IDENT_PAT: the name of a parameter.
#[tactic(auto, unfolding(crate::specs::Types::told_name))]
fn told_name<R: Reader>(goals: &R, p: &mut Parser<'_>) -> Result<(), Fault>
    requires { R.can_read goals.now }
    ensures { Runs (R.reads goals.now) form.told_name p.old p.new result }
{
    let m = p.start();
    name(goals, p)?;
    p.complete(&m, IDENT_PAT)
}

/// The name of a parameter, or `_`.
#[tactic(auto, unfolding(crate::specs::Types::fn_ptr_name))]
fn fn_ptr_name<R: Reader>(goals: &R, p: &mut Parser<'_>) -> Result<(), Fault>
    requires { R.can_read goals.now }
    ensures { RunsAnywhere (R.reads goals.now) form.fn_ptr_name p.old p.new result }
{
    if p.at(UNDERSCORE) {
        ignored_name(goals, p)
    } else {
        told_name(goals, p)
    }
}

/// A name, `:`, and `...` or a type.
#[tactic(auto, unfolding(crate::specs::Types::named_fn_ptr_param))]
fn named_fn_ptr_param<R: Reader>(goals: &R, p: &mut Parser<'_>) -> Result<(), Fault>
    requires { R.can_read goals.now }
    ensures { RunsAnywhere (R.reads goals.now) form.named_fn_ptr_param p.old p.new result }
{
    fn_ptr_name(goals, p)?;
    p.expect(COLON)?;
    variadic_or_type(goals, p)
}

/// `...` or a type, perhaps with a name in front.
#[tactic(auto, using(ssr_syntax_forms::proofs::Shared::run_decide), unfolding(crate::specs::Types::named_or_bare_param))]
fn named_or_bare_param<R: Reader>(goals: &R, p: &mut Parser<'_>) -> Result<(), Fault>
    requires { R.can_read goals.now }
    ensures { RunsAnywhere (R.reads goals.now) form.named_or_bare_param p.old p.new result }
{
    if p.at_two(NameOrUnderscore, COLON) {
        named_fn_ptr_param(goals, p)
    } else {
        variadic_or_type(goals, p)
    }
}

/// PARAM of a pointer to a function: ATTRs, perhaps a name, and a type.
#[tactic(auto, unfolding(crate::specs::Types::fn_ptr_param))]
fn fn_ptr_param<R: Reader>(goals: &R, p: &mut Parser<'_>) -> Result<(), Fault>
    requires { R.can_read goals.now }
    ensures { Runs (R.reads goals.now) form.fn_ptr_param p.old p.new result }
{
    let m = p.start();
    attrs(goals, p)?;
    named_or_bare_param(goals, p)?;
    p.complete(&m, PARAM)
}

/// PARAM_LIST of a pointer to a function.
#[tactic(auto, using(ssr_syntax_forms::proofs::Shared::run_comma_list), unfolding(crate::specs::Types::fn_ptr_params))]
fn fn_ptr_params<R: Reader>(goals: &R, p: &mut Parser<'_>) -> Result<(), Fault>
    requires { R.can_read goals.now }
    ensures { Runs (R.reads goals.now) form.fn_ptr_params p.old p.new result }
{
    let m = p.start();
    p.expect(L_PAREN)?;
    p.comma_list(FnPtrParamFirst, |p| fn_ptr_param(goals, p))?;
    p.expect(R_PAREN)?;
    p.complete(&m, PARAM_LIST)
}

/// FN_PTR_TYPE: perhaps `unsafe` and an ABI, `fn`, parameters, and perhaps a RET_TYPE.
#[tactic(auto, unfolding(crate::specs::Types::fn_ptr_type))]
fn fn_ptr_type<R: Reader>(goals: &R, p: &mut Parser<'_>) -> Result<(), Fault>
    requires { R.can_read goals.now }
    ensures { Runs (R.reads goals.now) form.fn_ptr_type p.old p.new result }
{
    let m = p.start();
    p.eat(UNSAFE_KW)?;
    if p.at(EXTERN_KW) {
        abi(goals, p)?;
    }
    p.expect(FN_KW)?;
    fn_ptr_params(goals, p)?;
    if p.at(THIN_ARROW) {
        ret_type(goals, p)?;
    }
    p.complete(&m, FN_PTR_TYPE)
}

/// FOR_TYPE: a FOR_BINDER and a type.
#[tactic(auto, unfolding(crate::specs::Types::for_type))]
fn for_type<R: Reader>(goals: &R, p: &mut Parser<'_>) -> Result<(), Fault>
    requires { R.can_read goals.now }
    ensures { Runs (R.reads goals.now) form.for_type p.old p.new result }
{
    let m = p.start();
    goals.read(p, Goal::ForBinder)?;
    goals.read(p, Goal::Ty)?;
    p.complete(&m, FOR_TYPE)
}

/// MACRO_TYPE: a MACRO_CALL, behind its PATH.
#[tactic(auto, unfolding(crate::specs::Types::macro_type))]
fn macro_type<R: Reader>(goals: &R, p: &mut Parser<'_>, m: &Mark<'_>) -> Result<(), Fault>
    requires { R.can_read goals.now }
    ensures { RunsFrom (R.reads goals.now) form.macro_type m.now p.old p.new result }
{
    p.refuse_since(m, NoMacroPath)?;
    p.expect(BANG)?;
    goals.read(p, Goal::TokenTree)?;
    p.complete(m, MACRO_CALL)?;
    p.complete(m, MACRO_TYPE)
}

/// PATH_TYPE or MACRO_TYPE.
#[tactic(auto, using(ssr_syntax_forms::proofs::Shared::run_also_decide), unfolding(crate::specs::Types::path_or_macro_type))]
fn path_or_macro_type<R: Reader>(goals: &R, p: &mut Parser<'_>) -> Result<(), Fault>
    requires { R.can_read goals.now }
    ensures { Runs (R.reads goals.now) form.path_or_macro_type p.old p.new result }
{
    let m = p.start();
    path(goals, p, PathPlace::InType)?;
    if goals.is_whole() && p.at(BANG) {
        macro_type(goals, p, &m)
    } else {
        p.complete(&m, PATH_TYPE)
    }
}

/// A type that begins with a word or a path.
#[tactic(auto, unfolding(crate::specs::Types::worded_type))]
fn worded_type<R: Reader>(goals: &R, p: &mut Parser<'_>) -> Result<(), Fault>
    requires { R.can_read goals.now }
    ensures { Runs (R.reads goals.now) form.worded_type p.old p.new result }
{
    if p.at(DYN_KW) {
        dyn_trait_type(goals, p)
    } else if p.at(IMPL_KW) {
        impl_trait_type(goals, p)
    } else {
        path_or_macro_type(goals, p)
    }
}

/// A type that begins with a word or a path, or one of all of Rust that its first word tells.
#[tactic(auto, using(ssr_syntax_forms::proofs::Shared::run_also), unfolding(crate::specs::Types::other_type))]
fn other_type<R: Reader>(goals: &R, p: &mut Parser<'_>) -> Result<(), Fault>
    requires { R.can_read goals.now }
    ensures { Runs (R.reads goals.now) form.other_type p.old p.new result }
{
    if p.at(FOR_KW) && goals.is_whole() {
        for_type(goals, p)
    } else if p.at_any(FnPtrFirst) && goals.is_whole() {
        fn_ptr_type(goals, p)
    } else {
        worded_type(goals, p)
    }
}

/// Any type.
#[tactic(auto, unfolding(crate::specs::Types::any_type))]
pub fn any_type<R: Reader>(goals: &R, p: &mut Parser<'_>) -> Result<(), Fault>
    requires { R.can_read goals.now }
    ensures { Runs (R.reads goals.now) form.any_type p.old p.new result }
{
    if p.at_any(Ampersands) {
        ref_type(goals, p)
    } else if p.at(STAR) {
        ptr_type(goals, p)
    } else if p.at(L_PAREN) {
        type_in_parentheses(goals, p)
    } else if p.at(L_BRACK) {
        type_in_brackets(goals, p)
    } else if p.at(BANG) {
        never_type(goals, p)
    } else if p.at(UNDERSCORE) {
        infer_type(goals, p)
    } else {
        other_type(goals, p)
    }
}
