//! The functions that read parameters, `where` and visibility.
ghost use Rattle.std.specs.Prelude.{◌≡◌};
ghost use Rattle.ssr_syntax_item_parts.specs.Params as form;
ghost use Rattle.ssr_syntax_forms.specs.Forms.{passes};
ghost use Rattle.ssr_syntax_forms.specs.Runs.{Runs, RunsAnywhere, RunsFrom};

use ssr_syntax_forms::{Fault, Mark, Parser, TokenSet};
use ssr_syntax_kinds::SyntaxKind;
use ssr_syntax_kinds::SyntaxKind::*;
use ssr_syntax_types::goals::{Goal, PatPlace};
use ssr_syntax_types::paths::{CloseAngle, OpenAngle, TypeFirst, lifetime, name, simple_path};
use ssr_syntax_types::pattern_sets::ParamFirst;
use ssr_syntax_types::reader::Reader;
use ssr_syntax_types::token_trees::{attrs, some_attrs};
use ssr_syntax_types::types::{bounds_or_none, type_bound_list, variadic, variadic_or_type};

/// What a generic parameter of the stated language begins with.
#[derive(Clone, Copy)]
struct StatedParamFirst;

impl TokenSet for StatedParamFirst {
    ghost kinds = { λ _. form.stated_param_first };

    #[inline(always)]
    #[tactic(auto, unfolding(crate::specs::Params::stated_param_first))]
    fn contains(self, kind: SyntaxKind) -> bool {
        matches!(kind, IDENT | LIFETIME_IDENT | CONST_KW)
    }
}

/// What a generic parameter begins with; with `true`, where all of Rust is read.
#[derive(Clone, Copy)]
struct GenericParamFirst(bool);

impl TokenSet for GenericParamFirst {
    ghost kinds = { λ s. form.generic_param_first s.0 };

    #[inline(always)]
    #[tactic(auto, using(ssr_syntax_forms::proofs::Shared::mem_append, ssr_syntax_forms::proofs::Shared::mem_where_whole), unfolding(crate::specs::Params::generic_param_first))]
    fn contains(self, kind: SyntaxKind) -> bool {
        StatedParamFirst.contains(kind) || self.0 && POUND.contains(kind)
    }
}

/// What a predicate of a `where` begins with; with `true`, where all of Rust is read.
#[derive(Clone, Copy)]
struct WherePredFirst(bool);

impl TokenSet for WherePredFirst {
    ghost kinds = { λ s. form.where_pred_first s.0 };

    #[inline(always)]
    #[tactic(auto, unfolding(crate::specs::Params::where_pred_first))]
    fn contains(self, kind: SyntaxKind) -> bool {
        matches!(kind, LIFETIME_IDENT) || TypeFirst(self.0).contains(kind)
    }
}

/// What stands behind `self` as a parameter.
#[derive(Clone, Copy)]
struct EndsSelf;

impl TokenSet for EndsSelf {
    ghost kinds = { λ _. form.ends_self };

    #[inline(always)]
    fn contains(self, kind: SyntaxKind) -> bool {
        matches!(kind, COLON | COMMA | R_PAREN)
    }
}

/// The paths that stand in a visibility without `in`.
#[derive(Clone, Copy)]
struct OwnWords;

impl TokenSet for OwnWords {
    ghost kinds = { λ _. form.own_words };

    #[inline(always)]
    fn contains(self, kind: SyntaxKind) -> bool {
        matches!(kind, CRATE_KW | SELF_KW | SUPER_KW)
    }
}

/// What stands behind a field's type.
#[derive(Clone, Copy)]
struct EndsType;

impl TokenSet for EndsType {
    ghost kinds = { λ _. form.ends_type };

    #[inline(always)]
    fn contains(self, kind: SyntaxKind) -> bool {
        matches!(kind, COMMA | R_PAREN)
    }
}

/// Whether a SELF_PARAM is next.
#[tactic(auto, using(ssr_syntax_forms::proofs::Shared::first_passes, ssr_syntax_forms::proofs::Shared::others_pass))]
fn at_self(p: &Parser<'_>) -> bool
    ensures { result ≡ passes form.self_ahead p.now.rest }
{
    p.at_two(SELF_KW, EndsSelf)
        || p.at_two(MUT_KW, SELF_KW)
        || p.at_two(AMP, LIFETIME_IDENT)
        || p.at_three(AMP, SELF_KW, EndsSelf)
        || p.at_four(AMP, MUT_KW, SELF_KW, EndsSelf)
}

/// Whether the restriction of a VISIBILITY is next.
#[tactic(auto, using(ssr_syntax_forms::proofs::Shared::first_passes, ssr_syntax_forms::proofs::Shared::others_pass))]
fn at_restriction(p: &Parser<'_>) -> bool
    ensures { result ≡ passes form.in_ahead p.now.rest }
{
    p.at_two(L_PAREN, IN_KW) || p.at_three(L_PAREN, OwnWords, R_PAREN)
}

/// LIFETIME_PARAM: a LIFETIME, and perhaps `:` and bounds.
#[tactic(auto, unfolding(crate::specs::Params::lifetime_param))]
fn lifetime_param<R: Reader>(goals: &R, p: &mut Parser<'_>, m: &Mark<'_>) -> Result<(), Fault>
    requires { R.can_read goals.now }
    ensures { RunsFrom (R.reads goals.now) form.lifetime_param m.now p.old p.new result }
{
    lifetime(goals, p)?;
    if p.at(COLON) {
        p.expect(COLON)?;
        type_bound_list(goals, p)?;
    }
    p.complete(m, LIFETIME_PARAM)
}

/// CONST_PARAM: `const`, a NAME, `:` and a type.
#[tactic(auto, unfolding(crate::specs::Params::const_param))]
fn const_param<R: Reader>(goals: &R, p: &mut Parser<'_>, m: &Mark<'_>) -> Result<(), Fault>
    requires { R.can_read goals.now }
    ensures { RunsFrom (R.reads goals.now) form.const_param m.now p.old p.new result }
{
    p.expect(CONST_KW)?;
    name(goals, p)?;
    p.expect(COLON)?;
    goals.read(p, Goal::Ty)?;
    p.complete(m, CONST_PARAM)
}

/// TYPE_PARAM: a NAME, perhaps `:` and bounds, and perhaps `=` and a type.
#[tactic(auto, unfolding(crate::specs::Params::type_param))]
fn type_param<R: Reader>(goals: &R, p: &mut Parser<'_>, m: &Mark<'_>) -> Result<(), Fault>
    requires { R.can_read goals.now }
    ensures { RunsFrom (R.reads goals.now) form.type_param m.now p.old p.new result }
{
    name(goals, p)?;
    if p.at(COLON) {
        p.expect(COLON)?;
        bounds_or_none(goals, p)?;
    }
    if p.at(EQ) {
        p.expect(EQ)?;
        goals.read(p, Goal::Ty)?;
    }
    p.complete(m, TYPE_PARAM)
}

/// Any generic parameter, behind its ATTRs.
#[tactic(auto, unfolding(crate::specs::Params::bare_generic_param))]
fn bare_generic_param<R: Reader>(goals: &R, p: &mut Parser<'_>, m: &Mark<'_>) -> Result<(), Fault>
    requires { R.can_read goals.now }
    ensures { RunsFrom (R.reads goals.now) form.bare_generic_param m.now p.old p.new result }
{
    if p.at(LIFETIME_IDENT) {
        lifetime_param(goals, p, m)
    } else if p.at(CONST_KW) {
        const_param(goals, p, m)
    } else {
        type_param(goals, p, m)
    }
}

/// A generic parameter with ATTRs.
#[tactic(auto, unfolding(crate::specs::Params::attributed_generic_param))]
fn attributed_generic_param<R: Reader>(goals: &R, p: &mut Parser<'_>) -> Result<(), Fault>
    requires { R.can_read goals.now }
    ensures { Runs (R.reads goals.now) form.attributed_generic_param p.old p.new result }
{
    let m = p.start();
    some_attrs(goals, p)?;
    bare_generic_param(goals, p, &m)
}

/// Any generic parameter.
#[tactic(auto, using(ssr_syntax_forms::proofs::Shared::run_also), unfolding(crate::specs::Params::generic_param))]
fn generic_param<R: Reader>(goals: &R, p: &mut Parser<'_>) -> Result<(), Fault>
    requires { R.can_read goals.now }
    ensures { RunsAnywhere (R.reads goals.now) form.generic_param p.old p.new result }
{
    if p.at(POUND) && goals.is_whole() {
        attributed_generic_param(goals, p)
    } else {
        stated_generic_param(goals, p)
    }
}

/// Any generic parameter of the stated language.
#[tactic(auto, unfolding(crate::specs::Params::stated_generic_param))]
fn stated_generic_param<R: Reader>(goals: &R, p: &mut Parser<'_>) -> Result<(), Fault>
    requires { R.can_read goals.now }
    ensures { RunsAnywhere (R.reads goals.now) form.stated_generic_param p.old p.new result }
{
    let n = p.start();
    bare_generic_param(goals, p, &n)
}

/// GENERIC_PARAM_LIST: parameters in angle brackets, with commas between them.
#[tactic(auto, using(ssr_syntax_forms::proofs::Shared::run_comma_list_by), unfolding(crate::specs::Params::generic_param_list))]
pub fn generic_param_list<R: Reader>(goals: &R, p: &mut Parser<'_>) -> Result<(), Fault>
    requires { R.can_read goals.now }
    ensures { Runs (R.reads goals.now) form.generic_param_list p.old p.new result }
{
    let m = p.start();
    p.expect_part(OpenAngle)?;
    p.comma_list(
        GenericParamFirst(goals.is_whole()),
        |p| generic_param(goals, p),
    )?;
    p.expect_part(CloseAngle)?;
    p.complete(&m, GENERIC_PARAM_LIST)
}

/// FOR_BINDER: `for` and a GENERIC_PARAM_LIST.
#[tactic(auto, unfolding(crate::specs::Params::for_binder))]
pub fn for_binder<R: Reader>(goals: &R, p: &mut Parser<'_>) -> Result<(), Fault>
    requires { R.can_read goals.now }
    ensures { Runs (R.reads goals.now) form.for_binder p.old p.new result }
{
    let m = p.start();
    p.expect(FOR_KW)?;
    generic_param_list(goals, p)?;
    p.complete(&m, FOR_BINDER)
}

/// A GENERIC_PARAM_LIST, or nothing.
#[tactic(auto, unfolding(crate::specs::Params::generic_params))]
pub fn generic_params<R: Reader>(goals: &R, p: &mut Parser<'_>, m: &Mark<'_>) -> Result<(), Fault>
    requires { R.can_read goals.now }
    ensures { RunsFrom (R.reads goals.now) form.generic_params m.now p.old p.new result }
{
    if p.at_any(OpenAngle) {
        generic_param_list(goals, p)
    } else {
        Ok(())
    }
}

/// What a predicate of a `where` is on.
#[tactic(auto, unfolding(crate::specs::Params::lifetime_or_type))]
fn lifetime_or_type<R: Reader>(goals: &R, p: &mut Parser<'_>) -> Result<(), Fault>
    requires { R.can_read goals.now }
    ensures { RunsAnywhere (R.reads goals.now) form.lifetime_or_type p.old p.new result }
{
    if p.at(LIFETIME_IDENT) {
        lifetime(goals, p)
    } else {
        goals.read(p, Goal::Ty)
    }
}

/// WHERE_PRED: a LIFETIME or a type, `:`, and perhaps bounds.
#[tactic(auto, unfolding(crate::specs::Params::where_pred))]
fn where_pred<R: Reader>(goals: &R, p: &mut Parser<'_>) -> Result<(), Fault>
    requires { R.can_read goals.now }
    ensures { Runs (R.reads goals.now) form.where_pred p.old p.new result }
{
    let m = p.start();
    lifetime_or_type(goals, p)?;
    p.expect(COLON)?;
    bounds_or_none(goals, p)?;
    p.complete(&m, WHERE_PRED)
}

/// WHERE_CLAUSE: `where` and WHERE_PREDs, with commas between them.
#[tactic(auto, using(ssr_syntax_forms::proofs::Shared::run_comma_list_by), unfolding(crate::specs::Params::where_clause))]
fn where_clause<R: Reader>(goals: &R, p: &mut Parser<'_>) -> Result<(), Fault>
    requires { R.can_read goals.now }
    ensures { Runs (R.reads goals.now) form.where_clause p.old p.new result }
{
    let m = p.start();
    p.expect(WHERE_KW)?;
    p.comma_list(WherePredFirst(goals.is_whole()), |p| where_pred(goals, p))?;
    p.complete(&m, WHERE_CLAUSE)
}

/// A WHERE_CLAUSE, or nothing.
#[tactic(auto, unfolding(crate::specs::Params::wheres))]
pub fn wheres<R: Reader>(goals: &R, p: &mut Parser<'_>, m: &Mark<'_>) -> Result<(), Fault>
    requires { R.can_read goals.now }
    ensures { RunsFrom (R.reads goals.now) form.wheres m.now p.old p.new result }
{
    if p.at(WHERE_KW) {
        where_clause(goals, p)
    } else {
        Ok(())
    }
}

/// NAME: `self`.
#[tactic(auto, unfolding(crate::specs::Params::self_name))]
fn self_name<R: Reader>(goals: &R, p: &mut Parser<'_>) -> Result<(), Fault>
    requires { R.can_read goals.now }
    ensures { Runs (R.reads goals.now) form.self_name p.old p.new result }
{
    let m = p.start();
    p.expect(SELF_KW)?;
    p.complete(&m, NAME)
}

/// `&` and perhaps a LIFETIME.
#[tactic(auto, unfolding(crate::specs::Params::self_reference))]
fn self_reference<R: Reader>(goals: &R, p: &mut Parser<'_>) -> Result<(), Fault>
    requires { R.can_read goals.now }
    ensures { RunsAnywhere (R.reads goals.now) form.self_reference p.old p.new result }
{
    p.expect(AMP)?;
    if p.at(LIFETIME_IDENT) {
        lifetime(goals, p)
    } else {
        Ok(())
    }
}

/// SELF_PARAM: perhaps `&` and a LIFETIME, perhaps `mut`, `self`, and perhaps `:` and a type.
#[tactic(auto, unfolding(crate::specs::Params::self_param))]
fn self_param<R: Reader>(goals: &R, p: &mut Parser<'_>, m: &Mark<'_>) -> Result<(), Fault>
    requires { R.can_read goals.now }
    ensures { RunsFrom (R.reads goals.now) form.self_param m.now p.old p.new result }
{
    if p.at(AMP) {
        self_reference(goals, p)?;
    }
    p.eat(MUT_KW)?;
    self_name(goals, p)?;
    if p.at(COLON) {
        p.expect(COLON)?;
        goals.read(p, Goal::Ty)?;
    }
    p.complete(m, SELF_PARAM)
}

/// The type of a parameter, which in all of Rust may be `...`.
#[tactic(auto, unfolding(crate::specs::Params::param_type))]
fn param_type<R: Reader>(goals: &R, p: &mut Parser<'_>) -> Result<(), Fault>
    requires { R.can_read goals.now }
    ensures { RunsAnywhere (R.reads goals.now) form.param_type p.old p.new result }
{
    if goals.is_whole() {
        variadic_or_type(goals, p)
    } else {
        goals.read(p, Goal::Ty)
    }
}

/// PARAM: `...`.
#[tactic(auto, unfolding(crate::specs::Params::variadic_param))]
fn variadic_param<R: Reader>(goals: &R, p: &mut Parser<'_>) -> Result<(), Fault>
    requires { R.can_read goals.now }
    ensures { Runs (R.reads goals.now) form.variadic_param p.old p.new result }
{
    let m = p.start();
    variadic(goals, p)?;
    p.complete(&m, PARAM)
}

/// PARAM of any form.
#[tactic(auto, using(ssr_syntax_forms::proofs::Shared::run_also_decide), unfolding(crate::specs::Params::any_param))]
fn any_param<R: Reader>(goals: &R, p: &mut Parser<'_>) -> Result<(), Fault>
    requires { R.can_read goals.now }
    ensures { RunsAnywhere (R.reads goals.now) form.any_param p.old p.new result }
{
    if goals.is_whole() && p.at_two(DOT2, DOT) {
        variadic_param(goals, p)
    } else {
        param(goals, p)
    }
}

/// PARAM: a pattern, `:` and a type.
#[tactic(auto, unfolding(crate::specs::Params::bare_param))]
fn bare_param<R: Reader>(goals: &R, p: &mut Parser<'_>, m: &Mark<'_>) -> Result<(), Fault>
    requires { R.can_read goals.now }
    ensures { RunsFrom (R.reads goals.now) form.bare_param m.now p.old p.new result }
{
    goals.read(p, Goal::Pat(PatPlace::NoBar))?;
    p.expect(COLON)?;
    param_type(goals, p)?;
    p.complete(m, PARAM)
}

/// PARAM, in all of Rust perhaps with ATTRs.
#[tactic(auto, unfolding(crate::specs::Params::param))]
fn param<R: Reader>(goals: &R, p: &mut Parser<'_>) -> Result<(), Fault>
    requires { R.can_read goals.now }
    ensures { Runs (R.reads goals.now) form.param p.old p.new result }
{
    let m = p.start();
    if goals.is_whole() {
        attrs(goals, p)?;
    }
    bare_param(goals, p, &m)
}

/// PARAMs with commas between them.
#[tactic(auto, using(ssr_syntax_forms::proofs::Shared::run_comma_list_by), unfolding(crate::specs::Params::params))]
fn params<R: Reader>(goals: &R, p: &mut Parser<'_>) -> Result<(), Fault>
    requires { R.can_read goals.now }
    ensures { RunsAnywhere (R.reads goals.now) form.params p.old p.new result }
{
    p.comma_list(ParamFirst(goals.is_whole()), |p| any_param(goals, p))
}

/// SELF_PARAM, and perhaps PARAMs behind a comma.
#[tactic(auto, unfolding(crate::specs::Params::params_behind_self))]
fn params_behind_self<R: Reader>(goals: &R, p: &mut Parser<'_>) -> Result<(), Fault>
    requires { R.can_read goals.now }
    ensures { RunsAnywhere (R.reads goals.now) form.params_behind_self p.old p.new result }
{
    let n = p.start();
    self_param(goals, p, &n)?;
    if p.at(COMMA) {
        p.expect(COMMA)?;
        params(goals, p)
    } else {
        Ok(())
    }
}

/// SELF_PARAM or PARAM, behind its ATTRs.
#[tactic(auto, using(ssr_syntax_forms::proofs::Shared::run_decide), unfolding(crate::specs::Params::self_or_param))]
fn self_or_param<R: Reader>(goals: &R, p: &mut Parser<'_>, m: &Mark<'_>) -> Result<(), Fault>
    requires { R.can_read goals.now }
    ensures { RunsFrom (R.reads goals.now) form.self_or_param m.now p.old p.new result }
{
    if at_self(p) {
        self_param(goals, p, m)
    } else {
        bare_param(goals, p, m)
    }
}

/// The first parameter with its ATTRs: SELF_PARAM or PARAM.
#[tactic(auto, unfolding(crate::specs::Params::attributed_first))]
fn attributed_first<R: Reader>(goals: &R, p: &mut Parser<'_>) -> Result<(), Fault>
    requires { R.can_read goals.now }
    ensures { Runs (R.reads goals.now) form.attributed_first p.old p.new result }
{
    let m = p.start();
    some_attrs(goals, p)?;
    self_or_param(goals, p, &m)
}

/// Parameters, the first one with ATTRs.
#[tactic(auto, unfolding(crate::specs::Params::params_behind_attributed))]
fn params_behind_attributed<R: Reader>(goals: &R, p: &mut Parser<'_>) -> Result<(), Fault>
    requires { R.can_read goals.now }
    ensures { RunsAnywhere (R.reads goals.now) form.params_behind_attributed p.old p.new result }
{
    attributed_first(goals, p)?;
    if p.at(COMMA) {
        p.expect(COMMA)?;
        params(goals, p)
    } else {
        Ok(())
    }
}

/// Parameters, perhaps with SELF_PARAM in front.
#[tactic(auto, using(ssr_syntax_forms::proofs::Shared::run_also_decide), unfolding(crate::specs::Params::any_params))]
fn any_params<R: Reader>(goals: &R, p: &mut Parser<'_>) -> Result<(), Fault>
    requires { R.can_read goals.now }
    ensures { RunsAnywhere (R.reads goals.now) form.any_params p.old p.new result }
{
    if goals.is_whole() && p.at(POUND) {
        params_behind_attributed(goals, p)
    } else {
        stated_params(goals, p)
    }
}

/// All parameters of a function.
#[tactic(auto, using(ssr_syntax_forms::proofs::Shared::run_decide), unfolding(crate::specs::Params::stated_params))]
fn stated_params<R: Reader>(goals: &R, p: &mut Parser<'_>) -> Result<(), Fault>
    requires { R.can_read goals.now }
    ensures { RunsAnywhere (R.reads goals.now) form.stated_params p.old p.new result }
{
    if at_self(p) {
        params_behind_self(goals, p)
    } else {
        params(goals, p)
    }
}

/// PARAM_LIST: parameters in parentheses.
#[tactic(auto, unfolding(crate::specs::Params::param_list))]
pub fn param_list<R: Reader>(goals: &R, p: &mut Parser<'_>) -> Result<(), Fault>
    requires { R.can_read goals.now }
    ensures { Runs (R.reads goals.now) form.param_list p.old p.new result }
{
    let m = p.start();
    p.expect(L_PAREN)?;
    any_params(goals, p)?;
    p.expect(R_PAREN)?;
    p.complete(&m, PARAM_LIST)
}

/// NAME_REF: `crate`, `self` or `super`.
#[tactic(auto, unfolding(crate::specs::Params::own_name))]
fn own_name<R: Reader>(goals: &R, p: &mut Parser<'_>) -> Result<(), Fault>
    requires { R.can_read goals.now }
    ensures { Runs (R.reads goals.now) form.own_name p.old p.new result }
{
    let m = p.start();
    p.expect_any(OwnWords)?;
    p.complete(&m, NAME_REF)
}

/// PATH_SEGMENT: one of these.
#[tactic(auto, unfolding(crate::specs::Params::own_segment))]
fn own_segment<R: Reader>(goals: &R, p: &mut Parser<'_>) -> Result<(), Fault>
    requires { R.can_read goals.now }
    ensures { Runs (R.reads goals.now) form.own_segment p.old p.new result }
{
    let m = p.start();
    own_name(goals, p)?;
    p.complete(&m, PATH_SEGMENT)
}

/// PATH: one of these.
#[tactic(auto, unfolding(crate::specs::Params::own_path))]
fn own_path<R: Reader>(goals: &R, p: &mut Parser<'_>) -> Result<(), Fault>
    requires { R.can_read goals.now }
    ensures { Runs (R.reads goals.now) form.own_path p.old p.new result }
{
    let m = p.start();
    own_segment(goals, p)?;
    p.complete(&m, PATH)
}

/// `in` and a PATH.
#[tactic(auto, unfolding(crate::specs::Params::in_path))]
fn in_path<R: Reader>(goals: &R, p: &mut Parser<'_>) -> Result<(), Fault>
    requires { R.can_read goals.now }
    ensures { RunsAnywhere (R.reads goals.now) form.in_path p.old p.new result }
{
    p.expect(IN_KW)?;
    simple_path(goals, p)
}

/// What a visibility is restricted to.
#[tactic(auto, unfolding(crate::specs::Params::restricting_path))]
fn restricting_path<R: Reader>(goals: &R, p: &mut Parser<'_>) -> Result<(), Fault>
    requires { R.can_read goals.now }
    ensures { RunsAnywhere (R.reads goals.now) form.restricting_path p.old p.new result }
{
    if p.at(IN_KW) {
        in_path(goals, p)
    } else {
        own_path(goals, p)
    }
}

/// A path in parentheses.
#[tactic(auto, unfolding(crate::specs::Params::restriction))]
fn restriction<R: Reader>(goals: &R, p: &mut Parser<'_>) -> Result<(), Fault>
    requires { R.can_read goals.now }
    ensures { RunsAnywhere (R.reads goals.now) form.restriction p.old p.new result }
{
    p.expect(L_PAREN)?;
    restricting_path(goals, p)?;
    p.expect(R_PAREN)
}

/// VISIBILITY: `pub`, and perhaps a path in parentheses.
#[tactic(auto, unfolding(crate::specs::Params::visibility))]
pub fn visibility<R: Reader>(goals: &R, p: &mut Parser<'_>) -> Result<(), Fault>
    requires { R.can_read goals.now }
    ensures { Runs (R.reads goals.now) form.visibility p.old p.new result }
{
    let m = p.start();
    p.expect(PUB_KW)?;
    if p.at(L_PAREN) {
        restriction(goals, p)?;
    }
    p.complete(&m, VISIBILITY)
}

/// A path in parentheses, or nothing where these are the type of the field.
#[tactic(auto, using(ssr_syntax_forms::proofs::Shared::run_decide), unfolding(crate::specs::Params::field_restriction))]
fn field_restriction<R: Reader>(goals: &R, p: &mut Parser<'_>) -> Result<(), Fault>
    requires { R.can_read goals.now }
    ensures { RunsAnywhere (R.reads goals.now) form.field_restriction p.old p.new result }
{
    if p.at_four(L_PAREN, OwnWords, R_PAREN, EndsType) {
        Ok(())
    } else if at_restriction(p) {
        restriction(goals, p)
    } else {
        Ok(())
    }
}

/// VISIBILITY of a field without a name.
#[tactic(auto, unfolding(crate::specs::Params::field_visibility))]
pub(crate) fn field_visibility<R: Reader>(goals: &R, p: &mut Parser<'_>) -> Result<(), Fault>
    requires { R.can_read goals.now }
    ensures { Runs (R.reads goals.now) form.field_visibility p.old p.new result }
{
    let m = p.start();
    p.expect(PUB_KW)?;
    field_restriction(goals, p)?;
    p.complete(&m, VISIBILITY)
}
