//! The functions that read patterns.
ghost use Rattle.ssr_syntax_patterns.specs.Patterns as form;
ghost use Rattle.ssr_syntax_forms.specs.Runs.{Runs, RunsAnywhere, RunsFrom};

use ssr_syntax_forms::{Fault, Mark, Parser, TokenSet};
use ssr_syntax_kinds::SyntaxKind;
use ssr_syntax_kinds::SyntaxKind::*;
use ssr_syntax_types::goals::{Goal, PatPlace, PathPlace};
use ssr_syntax_types::literals::literal;
use ssr_syntax_types::paths::{name, name_ref, number_ref, path};
use ssr_syntax_types::pattern_sets::{BoundFirst, LiteralPatFirst, PatFirst, Ranges};
use ssr_syntax_types::reader::Reader;
use ssr_syntax_types::token_trees::some_attrs;
use ssr_syntax_types::types::Ampersands;

/// What an IDENT_PAT begins with.
#[derive(Clone, Copy)]
struct IdentPatFirst;

impl TokenSet for IdentPatFirst {
    ghost kinds = { λ _. form.ident_pat_first };

    #[inline(always)]
    fn contains(self, kind: SyntaxKind) -> bool {
        matches!(kind, IDENT | REF_KW | MUT_KW)
    }
}

/// What a field's pattern of the stated language begins with.
#[derive(Clone, Copy)]
struct StatedFieldFirst;

impl TokenSet for StatedFieldFirst {
    ghost kinds = { λ _. form.stated_field_first };

    #[inline(always)]
    #[tactic(auto, unfolding(crate::specs::Patterns::stated_field_first))]
    fn contains(self, kind: SyntaxKind) -> bool {
        matches!(kind, IDENT | INT_NUMBER | REF_KW | MUT_KW)
    }
}

/// What a field's pattern begins with; with `true`, where all of Rust is read.
#[derive(Clone, Copy)]
struct PatFieldFirst(bool);

impl TokenSet for PatFieldFirst {
    ghost kinds = { λ s. form.pat_field_first s.0 };

    #[inline(always)]
    #[tactic(auto, using(ssr_syntax_forms::proofs::Shared::mem_append, ssr_syntax_forms::proofs::Shared::mem_where_whole), unfolding(crate::specs::Patterns::pat_field_first))]
    fn contains(self, kind: SyntaxKind) -> bool {
        StatedFieldFirst.contains(kind) || self.0 && POUND.contains(kind)
    }
}

/// What a field's pattern begins with, or `..`; with `true`, where all of Rust is read.
#[derive(Clone, Copy)]
struct PatFieldOrRest(bool);

impl TokenSet for PatFieldOrRest {
    ghost kinds = { λ s. form.pat_field_or_rest s.0 };

    #[inline(always)]
    #[tactic(auto, unfolding(crate::specs::Patterns::pat_field_or_rest))]
    fn contains(self, kind: SyntaxKind) -> bool {
        matches!(kind, DOT2) || PatFieldFirst(self.0).contains(kind)
    }
}

/// Behind a name, what makes it a path.
#[derive(Clone, Copy)]
struct PathPatNext;

impl TokenSet for PathPatNext {
    ghost kinds = { λ _. form.path_pat_next };

    #[inline(always)]
    fn contains(self, kind: SyntaxKind) -> bool {
        matches!(kind, COLON2 | L_PAREN | L_CURLY | DOT2 | DOT2EQ)
    }
}

/// TUPLE_PAT of no pattern, behind `(`.
#[tactic(auto, unfolding(crate::specs::Patterns::unit_pat))]
fn unit_pat<R: Reader>(goals: &R, p: &mut Parser<'_>, m: &Mark<'_>) -> Result<(), Fault>
    requires { R.can_read goals.now }
    ensures { RunsFrom (R.reads goals.now) form.unit_pat m.now p.old p.new result }
{
    p.expect(R_PAREN)?;
    p.complete(m, TUPLE_PAT)
}

/// PAREN_PAT, behind `(` and a pattern.
#[tactic(auto, unfolding(crate::specs::Patterns::paren_pat))]
fn paren_pat<R: Reader>(goals: &R, p: &mut Parser<'_>, m: &Mark<'_>) -> Result<(), Fault>
    requires { R.can_read goals.now }
    ensures { RunsFrom (R.reads goals.now) form.paren_pat m.now p.old p.new result }
{
    p.expect(R_PAREN)?;
    p.complete(m, PAREN_PAT)
}

/// Patterns with commas between them.
#[tactic(auto, using(ssr_syntax_forms::proofs::Shared::run_comma_list), unfolding(crate::specs::Patterns::pats))]
fn pats<R: Reader>(goals: &R, p: &mut Parser<'_>) -> Result<(), Fault>
    requires { R.can_read goals.now }
    ensures { RunsAnywhere (R.reads goals.now) form.pats p.old p.new result }
{
    p.comma_list(PatFirst, |p| goals.read(p, Goal::Pat(PatPlace::TopLevel)))
}

/// TUPLE_PAT, behind `(` and the first pattern.
#[tactic(auto, unfolding(crate::specs::Patterns::tuple_pat))]
fn tuple_pat<R: Reader>(goals: &R, p: &mut Parser<'_>, m: &Mark<'_>) -> Result<(), Fault>
    requires { R.can_read goals.now }
    ensures { RunsFrom (R.reads goals.now) form.tuple_pat m.now p.old p.new result }
{
    p.expect(COMMA)?;
    pats(goals, p)?;
    p.expect(R_PAREN)?;
    p.complete(m, TUPLE_PAT)
}

/// PAREN_PAT or TUPLE_PAT, behind `(`.
#[tactic(auto, unfolding(crate::specs::Patterns::paren_or_tuple_pat))]
fn paren_or_tuple_pat<R: Reader>(goals: &R, p: &mut Parser<'_>, m: &Mark<'_>) -> Result<(), Fault>
    requires { R.can_read goals.now }
    ensures { RunsFrom (R.reads goals.now) form.paren_or_tuple_pat m.now p.old p.new result }
{
    goals.read(p, Goal::Pat(PatPlace::TopLevel))?;
    if p.at(R_PAREN) {
        paren_pat(goals, p, m)
    } else {
        tuple_pat(goals, p, m)
    }
}

/// PAREN_PAT or TUPLE_PAT.
#[tactic(auto, unfolding(crate::specs::Patterns::pat_in_parentheses))]
fn pat_in_parentheses<R: Reader>(goals: &R, p: &mut Parser<'_>, m: &Mark<'_>) -> Result<(), Fault>
    requires { R.can_read goals.now }
    ensures { RunsFrom (R.reads goals.now) form.pat_in_parentheses m.now p.old p.new result }
{
    p.expect(L_PAREN)?;
    if p.at(R_PAREN) {
        unit_pat(goals, p, m)
    } else {
        paren_or_tuple_pat(goals, p, m)
    }
}

/// WILDCARD_PAT: `_`.
#[tactic(auto, unfolding(crate::specs::Patterns::wildcard_pat))]
fn wildcard_pat<R: Reader>(goals: &R, p: &mut Parser<'_>, m: &Mark<'_>) -> Result<(), Fault>
    requires { R.can_read goals.now }
    ensures { RunsFrom (R.reads goals.now) form.wildcard_pat m.now p.old p.new result }
{
    p.expect(UNDERSCORE)?;
    p.complete(m, WILDCARD_PAT)
}

/// SLICE_PAT: patterns in square brackets, with commas between them.
#[tactic(auto, unfolding(crate::specs::Patterns::slice_pat))]
fn slice_pat<R: Reader>(goals: &R, p: &mut Parser<'_>, m: &Mark<'_>) -> Result<(), Fault>
    requires { R.can_read goals.now }
    ensures { RunsFrom (R.reads goals.now) form.slice_pat m.now p.old p.new result }
{
    p.expect(L_BRACK)?;
    pats(goals, p)?;
    p.expect(R_BRACK)?;
    p.complete(m, SLICE_PAT)
}

/// `mut`, which belongs to the reference if it stands there.
#[tactic(auto, using(ssr_syntax_forms::proofs::Shared::run_decide), unfolding(crate::specs::Patterns::ref_pat_mut))]
fn ref_pat_mut<R: Reader>(goals: &R, p: &mut Parser<'_>) -> Result<(), Fault>
    requires { R.can_read goals.now }
    ensures { RunsAnywhere (R.reads goals.now) form.ref_pat_mut p.old p.new result }
{
    if p.at(MUT_KW) {
        p.expect(MUT_KW)
    } else {
        Ok(())
    }
}

/// REF_PAT: `&`, also the first of `&&`, perhaps `mut`, and a pattern.
#[tactic(auto, unfolding(crate::specs::Patterns::ref_pat))]
fn ref_pat<R: Reader>(goals: &R, p: &mut Parser<'_>, m: &Mark<'_>) -> Result<(), Fault>
    requires { R.can_read goals.now }
    ensures { RunsFrom (R.reads goals.now) form.ref_pat m.now p.old p.new result }
{
    p.expect_part(Ampersands)?;
    ref_pat_mut(goals, p)?;
    goals.read(p, Goal::Pat(PatPlace::BehindAmp))?;
    p.complete(m, REF_PAT)
}

/// LITERAL_PAT: a LITERAL, perhaps with `-` in front.
#[tactic(auto, unfolding(crate::specs::Patterns::literal_pat))]
fn literal_pat<R: Reader>(goals: &R, p: &mut Parser<'_>) -> Result<(), Fault>
    requires { R.can_read goals.now }
    ensures { Runs (R.reads goals.now) form.literal_pat p.old p.new result }
{
    let m = p.start();
    p.eat(MINUS)?;
    literal(goals, p)?;
    p.complete(&m, LITERAL_PAT)
}

/// PATH_PAT: a PATH as a bound.
#[tactic(auto, unfolding(crate::specs::Patterns::bound_path))]
fn bound_path<R: Reader>(goals: &R, p: &mut Parser<'_>) -> Result<(), Fault>
    requires { R.can_read goals.now }
    ensures { Runs (R.reads goals.now) form.bound_path p.old p.new result }
{
    let m = p.start();
    path(goals, p, PathPlace::InExpr)?;
    p.complete(&m, PATH_PAT)
}

/// LITERAL_PAT or PATH_PAT as a bound.
#[tactic(auto, unfolding(crate::specs::Patterns::range_bound))]
fn range_bound<R: Reader>(goals: &R, p: &mut Parser<'_>) -> Result<(), Fault>
    requires { R.can_read goals.now }
    ensures { RunsAnywhere (R.reads goals.now) form.range_bound p.old p.new result }
{
    if p.at_any(LiteralPatFirst) {
        literal_pat(goals, p)
    } else {
        bound_path(goals, p)
    }
}

/// RANGE_PAT with `..`, behind its first bound, which is all since the mark, if there is one.
#[tactic(auto, unfolding(crate::specs::Patterns::range_pat_to))]
fn range_pat_to<R: Reader>(goals: &R, p: &mut Parser<'_>, m: &Mark<'_>) -> Result<(), Fault>
    requires { R.can_read goals.now }
    ensures { RunsFrom (R.reads goals.now) form.range_pat_to m.now p.old p.new result }
{
    p.expect(DOT2)?;
    if p.at_any(BoundFirst) {
        range_bound(goals, p)?;
    }
    p.complete(m, RANGE_PAT)
}

/// RANGE_PAT with `..=`, behind its first bound, which is all since the mark, if there is one.
#[tactic(auto, unfolding(crate::specs::Patterns::range_pat_to_inclusive))]
fn range_pat_to_inclusive<R: Reader>(
    goals: &R,
    p: &mut Parser<'_>,
    m: &Mark<'_>,
) -> Result<(), Fault>
    requires { R.can_read goals.now }
    ensures { RunsFrom (R.reads goals.now) form.range_pat_to_inclusive m.now p.old p.new result }
{
    p.expect(DOT2EQ)?;
    range_bound(goals, p)?;
    p.complete(m, RANGE_PAT)
}

/// RANGE_PAT behind its first bound, or nothing.
#[tactic(auto, unfolding(crate::specs::Patterns::range_pat_behind_bound))]
fn range_pat_behind_bound<R: Reader>(
    goals: &R,
    p: &mut Parser<'_>,
    m: &Mark<'_>,
) -> Result<(), Fault>
    requires { R.can_read goals.now }
    ensures { RunsFrom (R.reads goals.now) form.range_pat_behind_bound m.now p.old p.new result }
{
    if p.at(DOT2) {
        range_pat_to(goals, p, m)
    } else if p.at(DOT2EQ) {
        range_pat_to_inclusive(goals, p, m)
    } else {
        Ok(())
    }
}

/// RANGE_PAT behind its first bound, where ranges stand.
#[tactic(auto, unfolding(crate::specs::Patterns::range_pat_end))]
fn range_pat_end<R: Reader>(
    goals: &R,
    p: &mut Parser<'_>,
    m: &Mark<'_>,
    place: PatPlace,
) -> Result<(), Fault>
    requires { R.can_read goals.now }
    ensures { RunsFrom (R.reads goals.now) (form.range_pat_end place) m.now p.old p.new result }
{
    match place {
        PatPlace::BehindAmp => Ok(()),
        PatPlace::TopLevel => range_pat_behind_bound(goals, p, m),
        PatPlace::NoBar => range_pat_behind_bound(goals, p, m),
    }
}

/// RANGE_PAT: a bound behind `..`.
#[tactic(auto, unfolding(crate::specs::Patterns::range_pat_to_bound))]
fn range_pat_to_bound<R: Reader>(goals: &R, p: &mut Parser<'_>, m: &Mark<'_>) -> Result<(), Fault>
    requires { R.can_read goals.now }
    ensures { RunsFrom (R.reads goals.now) form.range_pat_to_bound m.now p.old p.new result }
{
    range_bound(goals, p)?;
    p.complete(m, RANGE_PAT)
}

/// REST_PAT, or RANGE_PAT without a first bound.
#[tactic(auto, unfolding(crate::specs::Patterns::rest_or_range_pat_to))]
fn rest_or_range_pat_to<R: Reader>(goals: &R, p: &mut Parser<'_>, m: &Mark<'_>) -> Result<(), Fault>
    requires { R.can_read goals.now }
    ensures { RunsFrom (R.reads goals.now) form.rest_or_range_pat_to m.now p.old p.new result }
{
    p.expect(DOT2)?;
    if p.at_any(BoundFirst) {
        range_pat_to_bound(goals, p, m)
    } else {
        p.complete(m, REST_PAT)
    }
}

/// REST_PAT, or RANGE_PAT without a first bound.
#[tactic(auto, unfolding(crate::specs::Patterns::range_pat_without_start))]
fn range_pat_without_start<R: Reader>(
    goals: &R,
    p: &mut Parser<'_>,
    m: &Mark<'_>,
) -> Result<(), Fault>
    requires { R.can_read goals.now }
    ensures { RunsFrom (R.reads goals.now) form.range_pat_without_start m.now p.old p.new result }
{
    if p.at(DOT2) {
        rest_or_range_pat_to(goals, p, m)
    } else {
        range_pat_to_inclusive(goals, p, m)
    }
}

/// REST_PAT: `..`.
#[tactic(auto, unfolding(crate::specs::Patterns::rest_pat))]
fn rest_pat<R: Reader>(goals: &R, p: &mut Parser<'_>, m: &Mark<'_>) -> Result<(), Fault>
    requires { R.can_read goals.now }
    ensures { RunsFrom (R.reads goals.now) form.rest_pat m.now p.old p.new result }
{
    p.expect(DOT2)?;
    p.complete(m, REST_PAT)
}

/// REST_PAT, or where ranges stand RANGE_PAT without a first bound.
#[tactic(auto, unfolding(crate::specs::Patterns::rest_or_range_pat))]
fn rest_or_range_pat<R: Reader>(
    goals: &R,
    p: &mut Parser<'_>,
    m: &Mark<'_>,
    place: PatPlace,
) -> Result<(), Fault>
    requires { R.can_read goals.now }
    ensures { RunsFrom (R.reads goals.now) (form.rest_or_range_pat place) m.now p.old p.new result }
{
    match place {
        PatPlace::BehindAmp => rest_pat(goals, p, m),
        PatPlace::TopLevel => range_pat_without_start(goals, p, m),
        PatPlace::NoBar => range_pat_without_start(goals, p, m),
    }
}

/// LITERAL_PAT, or RANGE_PAT that begins with one.
#[tactic(auto, unfolding(crate::specs::Patterns::literal_or_range_pat))]
fn literal_or_range_pat<R: Reader>(
    goals: &R,
    p: &mut Parser<'_>,
    m: &Mark<'_>,
    place: PatPlace,
) -> Result<(), Fault>
    requires { R.can_read goals.now }
    ensures { RunsFrom (R.reads goals.now) (form.literal_or_range_pat place) m.now p.old p.new result }
{
    literal_pat(goals, p)?;
    range_pat_end(goals, p, m, place)
}

/// IDENT_PAT: perhaps `ref` and `mut`, a NAME, and perhaps `@` and a pattern.
#[tactic(auto, unfolding(crate::specs::Patterns::ident_pat))]
fn ident_pat<R: Reader>(goals: &R, p: &mut Parser<'_>) -> Result<(), Fault>
    requires { R.can_read goals.now }
    ensures { Runs (R.reads goals.now) form.ident_pat p.old p.new result }
{
    let m = p.start();
    p.eat(REF_KW)?;
    p.eat(MUT_KW)?;
    name(goals, p)?;
    if p.at(AT) {
        p.expect(AT)?;
        goals.read(p, Goal::Pat(PatPlace::NoBar))?;
    }
    p.complete(&m, IDENT_PAT)
}

/// TUPLE_STRUCT_PAT: patterns in parentheses behind a PATH.
#[tactic(auto, unfolding(crate::specs::Patterns::tuple_struct_pat))]
fn tuple_struct_pat<R: Reader>(goals: &R, p: &mut Parser<'_>, m: &Mark<'_>) -> Result<(), Fault>
    requires { R.can_read goals.now }
    ensures { RunsFrom (R.reads goals.now) form.tuple_struct_pat m.now p.old p.new result }
{
    p.expect(L_PAREN)?;
    pats(goals, p)?;
    p.expect(R_PAREN)?;
    p.complete(m, TUPLE_STRUCT_PAT)
}

/// RECORD_PAT_FIELD: a name, `:` and a pattern.
#[tactic(auto, unfolding(crate::specs::Patterns::named_pat_field))]
fn named_pat_field<R: Reader>(goals: &R, p: &mut Parser<'_>, m: &Mark<'_>) -> Result<(), Fault>
    requires { R.can_read goals.now }
    ensures { RunsFrom (R.reads goals.now) form.named_pat_field m.now p.old p.new result }
{
    name_ref(goals, p)?;
    p.expect(COLON)?;
    goals.read(p, Goal::Pat(PatPlace::TopLevel))?;
    p.complete(m, RECORD_PAT_FIELD)
}

/// RECORD_PAT_FIELD: a number, `:` and a pattern.
#[tactic(auto, unfolding(crate::specs::Patterns::numbered_pat_field))]
fn numbered_pat_field<R: Reader>(goals: &R, p: &mut Parser<'_>, m: &Mark<'_>) -> Result<(), Fault>
    requires { R.can_read goals.now }
    ensures { RunsFrom (R.reads goals.now) form.numbered_pat_field m.now p.old p.new result }
{
    number_ref(goals, p)?;
    p.expect(COLON)?;
    goals.read(p, Goal::Pat(PatPlace::TopLevel))?;
    p.complete(m, RECORD_PAT_FIELD)
}

/// RECORD_PAT_FIELD: an IDENT_PAT.
#[tactic(auto, unfolding(crate::specs::Patterns::shorthand_pat_field))]
fn shorthand_pat_field<R: Reader>(goals: &R, p: &mut Parser<'_>, m: &Mark<'_>) -> Result<(), Fault>
    requires { R.can_read goals.now }
    ensures { RunsFrom (R.reads goals.now) form.shorthand_pat_field m.now p.old p.new result }
{
    ident_pat(goals, p)?;
    p.complete(m, RECORD_PAT_FIELD)
}

/// RECORD_PAT_FIELD by a number, or an IDENT_PAT.
#[tactic(auto, unfolding(crate::specs::Patterns::numbered_or_shorthand))]
fn numbered_or_shorthand<R: Reader>(
    goals: &R,
    p: &mut Parser<'_>,
    m: &Mark<'_>,
) -> Result<(), Fault>
    requires { R.can_read goals.now }
    ensures { RunsFrom (R.reads goals.now) form.numbered_or_shorthand m.now p.old p.new result }
{
    if p.at(INT_NUMBER) {
        numbered_pat_field(goals, p, m)
    } else {
        shorthand_pat_field(goals, p, m)
    }
}

/// RECORD_PAT_FIELD of any form.
#[tactic(auto, using(ssr_syntax_forms::proofs::Shared::run_decide), unfolding(crate::specs::Patterns::bare_pat_field))]
fn bare_pat_field<R: Reader>(goals: &R, p: &mut Parser<'_>, m: &Mark<'_>) -> Result<(), Fault>
    requires { R.can_read goals.now }
    ensures { RunsFrom (R.reads goals.now) form.bare_pat_field m.now p.old p.new result }
{
    if p.at_two(IDENT, COLON) {
        named_pat_field(goals, p, m)
    } else {
        numbered_or_shorthand(goals, p, m)
    }
}

/// RECORD_PAT_FIELD with ATTRs.
#[tactic(auto, unfolding(crate::specs::Patterns::attributed_pat_field))]
fn attributed_pat_field<R: Reader>(goals: &R, p: &mut Parser<'_>) -> Result<(), Fault>
    requires { R.can_read goals.now }
    ensures { Runs (R.reads goals.now) form.attributed_pat_field p.old p.new result }
{
    let m = p.start();
    some_attrs(goals, p)?;
    bare_pat_field(goals, p, &m)
}

/// RECORD_PAT_FIELD, in all of Rust perhaps with ATTRs.
#[tactic(auto, using(ssr_syntax_forms::proofs::Shared::run_also), unfolding(crate::specs::Patterns::record_pat_field))]
fn record_pat_field<R: Reader>(goals: &R, p: &mut Parser<'_>) -> Result<(), Fault>
    requires { R.can_read goals.now }
    ensures { RunsAnywhere (R.reads goals.now) form.record_pat_field p.old p.new result }
{
    if p.at(POUND) && goals.is_whole() {
        attributed_pat_field(goals, p)
    } else {
        stated_pat_field(goals, p)
    }
}

/// RECORD_PAT_FIELD of the stated language.
#[tactic(auto, using(ssr_syntax_forms::proofs::Shared::run_decide), unfolding(crate::specs::Patterns::stated_pat_field))]
fn stated_pat_field<R: Reader>(goals: &R, p: &mut Parser<'_>) -> Result<(), Fault>
    requires { R.can_read goals.now }
    ensures { RunsAnywhere (R.reads goals.now) form.stated_pat_field p.old p.new result }
{
    let n = p.start();
    bare_pat_field(goals, p, &n)
}

/// RECORD_PAT_FIELD and its comma.
#[tactic(auto, using(ssr_syntax_forms::proofs::Shared::run_comma_by), unfolding(crate::specs::Patterns::record_pat_item))]
fn record_pat_item<R: Reader>(goals: &R, p: &mut Parser<'_>, m: &Mark<'_>) -> Result<(), Fault>
    requires { R.can_read goals.now }
    ensures { RunsFrom (R.reads goals.now) form.record_pat_item m.now p.old p.new result }
{
    record_pat_field(goals, p)?;
    p.comma(PatFieldOrRest(goals.is_whole()))
}

/// The end of a RECORD_PAT_FIELD_LIST: perhaps `..`, and `}`.
#[tactic(auto, unfolding(crate::specs::Patterns::record_pat_rest))]
fn record_pat_rest<R: Reader>(goals: &R, p: &mut Parser<'_>, m: &Mark<'_>) -> Result<(), Fault>
    requires { R.can_read goals.now }
    ensures { RunsFrom (R.reads goals.now) form.record_pat_rest m.now p.old p.new result }
{
    if p.at(DOT2) {
        let n = p.start();
        rest_pat(goals, p, &n)?;
    }
    p.expect(R_CURLY)?;
    p.complete(m, RECORD_PAT_FIELD_LIST)
}

/// RECORD_PAT_FIELD_LIST: fields in braces, with commas between them, and perhaps `..` at the end.
#[tactic(auto, using(ssr_syntax_forms::proofs::Shared::run_repeated_by), unfolding(crate::specs::Patterns::record_pat_field_list))]
fn record_pat_field_list<R: Reader>(
    goals: &R,
    p: &mut Parser<'_>,
    m: &Mark<'_>,
) -> Result<(), Fault>
    requires { R.can_read goals.now }
    ensures { RunsFrom (R.reads goals.now) form.record_pat_field_list m.now p.old p.new result }
{
    p.expect(L_CURLY)?;
    p.repeated(
        PatFieldFirst(goals.is_whole()),
        |p| record_pat_item(goals, p, m),
    )?;
    record_pat_rest(goals, p, m)
}

/// RECORD_PAT: fields behind a PATH.
#[tactic(auto, unfolding(crate::specs::Patterns::record_pat))]
fn record_pat<R: Reader>(goals: &R, p: &mut Parser<'_>, m: &Mark<'_>) -> Result<(), Fault>
    requires { R.can_read goals.now }
    ensures { RunsFrom (R.reads goals.now) form.record_pat m.now p.old p.new result }
{
    let n = p.start();
    record_pat_field_list(goals, p, &n)?;
    p.complete(m, RECORD_PAT)
}

/// PATH_PAT, or RANGE_PAT that begins with one.
#[tactic(auto, unfolding(crate::specs::Patterns::bare_path_pat))]
fn bare_path_pat<R: Reader>(
    goals: &R,
    p: &mut Parser<'_>,
    m: &Mark<'_>,
    place: PatPlace,
) -> Result<(), Fault>
    requires { R.can_read goals.now }
    ensures { RunsFrom (R.reads goals.now) (form.bare_path_pat place) m.now p.old p.new result }
{
    p.complete(m, PATH_PAT)?;
    range_pat_end(goals, p, m, place)
}

/// What a pattern is that begins with a PATH, by what follows that.
#[tactic(auto, using(ssr_syntax_forms::proofs::Shared::run_also), unfolding(crate::specs::Patterns::path_pat_end))]
fn path_pat_end<R: Reader>(
    goals: &R,
    p: &mut Parser<'_>,
    m: &Mark<'_>,
    place: PatPlace,
) -> Result<(), Fault>
    requires { R.can_read goals.now }
    ensures { RunsFrom (R.reads goals.now) (form.path_pat_end place) m.now p.old p.new result }
{
    if p.at(BANG) && goals.is_whole() {
        macro_pat(goals, p, m)
    } else {
        stated_pat_end(goals, p, m, place)
    }
}

/// MACRO_PAT: a MACRO_CALL, behind its PATH.
#[tactic(auto, unfolding(crate::specs::Patterns::macro_pat))]
fn macro_pat<R: Reader>(goals: &R, p: &mut Parser<'_>, m: &Mark<'_>) -> Result<(), Fault>
    requires { R.can_read goals.now }
    ensures { RunsFrom (R.reads goals.now) form.macro_pat m.now p.old p.new result }
{
    p.refuse_since(m, L_ANGLE)?;
    p.expect(BANG)?;
    goals.read(p, Goal::TokenTree)?;
    p.complete(m, MACRO_CALL)?;
    p.complete(m, MACRO_PAT)
}

/// What follows the PATH of a pattern of the stated language.
#[tactic(auto, unfolding(crate::specs::Patterns::stated_pat_end))]
fn stated_pat_end<R: Reader>(
    goals: &R,
    p: &mut Parser<'_>,
    m: &Mark<'_>,
    place: PatPlace,
) -> Result<(), Fault>
    requires { R.can_read goals.now }
    ensures { RunsFrom (R.reads goals.now) (form.stated_pat_end place) m.now p.old p.new result }
{
    if p.at(L_PAREN) {
        tuple_struct_pat(goals, p, m)
    } else if p.at(L_CURLY) {
        record_pat(goals, p, m)
    } else {
        bare_path_pat(goals, p, m, place)
    }
}

/// A pattern that begins with a PATH.
#[tactic(auto, unfolding(crate::specs::Patterns::path_pat))]
fn path_pat<R: Reader>(
    goals: &R,
    p: &mut Parser<'_>,
    m: &Mark<'_>,
    place: PatPlace,
) -> Result<(), Fault>
    requires { R.can_read goals.now }
    ensures { RunsFrom (R.reads goals.now) (form.path_pat place) m.now p.old p.new result }
{
    path(goals, p, PathPlace::InExpr)?;
    path_pat_end(goals, p, m, place)
}

/// A pattern that begins with a PATH, which is no plain name.
#[tactic(auto, unfolding(crate::specs::Patterns::path_but_no_name))]
fn path_but_no_name<R: Reader>(
    goals: &R,
    p: &mut Parser<'_>,
    m: &Mark<'_>,
    place: PatPlace,
) -> Result<(), Fault>
    requires { R.can_read goals.now }
    ensures { RunsFrom (R.reads goals.now) (form.path_but_no_name place) m.now p.old p.new result }
{
    p.refuse_at(IDENT)?;
    path_pat(goals, p, m, place)
}

/// IDENT_PAT, or what begins with a PATH that is no plain name.
#[tactic(auto, unfolding(crate::specs::Patterns::name_or_path_pat))]
fn name_or_path_pat<R: Reader>(
    goals: &R,
    p: &mut Parser<'_>,
    m: &Mark<'_>,
    place: PatPlace,
) -> Result<(), Fault>
    requires { R.can_read goals.now }
    ensures { RunsFrom (R.reads goals.now) (form.name_or_path_pat place) m.now p.old p.new result }
{
    if p.at_any(IdentPatFirst) {
        ident_pat(goals, p)
    } else {
        path_but_no_name(goals, p, m, place)
    }
}

/// A pattern that begins with a name or a PATH.
#[tactic(auto, using(ssr_syntax_forms::proofs::Shared::run_also_decide), unfolding(crate::specs::Patterns::named_pat))]
fn named_pat<R: Reader>(
    goals: &R,
    p: &mut Parser<'_>,
    m: &Mark<'_>,
    place: PatPlace,
) -> Result<(), Fault>
    requires { R.can_read goals.now }
    ensures { RunsFrom (R.reads goals.now) (form.named_pat place) m.now p.old p.new result }
{
    if goals.is_whole() && p.at_two(IDENT, BANG) {
        path_pat(goals, p, m, place)
    } else {
        stated_named_pat(goals, p, m, place)
    }
}

/// The same in the stated language.
#[tactic(auto, using(ssr_syntax_forms::proofs::Shared::run_decide), unfolding(crate::specs::Patterns::stated_named_pat))]
fn stated_named_pat<R: Reader>(
    goals: &R,
    p: &mut Parser<'_>,
    m: &Mark<'_>,
    place: PatPlace,
) -> Result<(), Fault>
    requires { R.can_read goals.now }
    ensures { RunsFrom (R.reads goals.now) (form.stated_named_pat place) m.now p.old p.new result }
{
    if p.at_two(IDENT, PathPatNext) {
        path_pat(goals, p, m, place)
    } else {
        name_or_path_pat(goals, p, m, place)
    }
}

/// A pattern without bars outside brackets.
#[tactic(auto, unfolding(crate::specs::Patterns::single_pat))]
fn single_pat<R: Reader>(
    goals: &R,
    p: &mut Parser<'_>,
    m: &Mark<'_>,
    place: PatPlace,
) -> Result<(), Fault>
    requires { R.can_read goals.now }
    ensures { RunsFrom (R.reads goals.now) (form.single_pat place) m.now p.old p.new result }
{
    if p.at(UNDERSCORE) {
        wildcard_pat(goals, p, m)
    } else if p.at_any(Ampersands) {
        ref_pat(goals, p, m)
    } else if p.at(L_PAREN) {
        pat_in_parentheses(goals, p, m)
    } else if p.at(L_BRACK) {
        slice_pat(goals, p, m)
    } else if p.at_any(Ranges) {
        rest_or_range_pat(goals, p, m, place)
    } else if p.at_any(LiteralPatFirst) {
        literal_or_range_pat(goals, p, m, place)
    } else {
        named_pat(goals, p, m, place)
    }
}

/// `|` and the pattern behind it.
#[tactic(auto, unfolding(crate::specs::Patterns::next_pat))]
fn next_pat<R: Reader>(goals: &R, p: &mut Parser<'_>) -> Result<(), Fault>
    requires { R.can_read goals.now }
    ensures { RunsAnywhere (R.reads goals.now) form.next_pat p.old p.new result }
{
    p.expect(PIPE)?;
    goals.read(p, Goal::Pat(PatPlace::NoBar))
}

/// OR_PAT: further patterns, each with `|` in front. All since the mark is the first, if there is one.
#[tactic(auto, unfolding(crate::specs::Patterns::or_pat))]
fn or_pat<R: Reader>(goals: &R, p: &mut Parser<'_>, m: &Mark<'_>) -> Result<(), Fault>
    requires { R.can_read goals.now }
    ensures { RunsFrom (R.reads goals.now) form.or_pat m.now p.old p.new result }
{
    next_pat(goals, p)?;
    p.repeated(PIPE, |p| next_pat(goals, p))?;
    p.complete(m, OR_PAT)
}

/// A pattern, or OR_PAT that begins with one.
#[tactic(auto, unfolding(crate::specs::Patterns::single_or_pats))]
fn single_or_pats<R: Reader>(goals: &R, p: &mut Parser<'_>, m: &Mark<'_>) -> Result<(), Fault>
    requires { R.can_read goals.now }
    ensures { RunsFrom (R.reads goals.now) form.single_or_pats m.now p.old p.new result }
{
    single_pat(goals, p, m, PatPlace::TopLevel)?;
    if p.at(PIPE) {
        or_pat(goals, p, m)
    } else {
        Ok(())
    }
}

/// Any pattern.
#[tactic(auto, unfolding(crate::specs::Patterns::any_pat))]
fn any_pat<R: Reader>(goals: &R, p: &mut Parser<'_>, m: &Mark<'_>) -> Result<(), Fault>
    requires { R.can_read goals.now }
    ensures { RunsFrom (R.reads goals.now) form.any_pat m.now p.old p.new result }
{
    if p.at(PIPE) {
        or_pat(goals, p, m)
    } else {
        single_or_pats(goals, p, m)
    }
}

/// A pattern as it stands there.
#[tactic(auto, unfolding(crate::specs::Patterns::pat))]
pub fn pat<R: Reader>(goals: &R, p: &mut Parser<'_>, place: PatPlace) -> Result<(), Fault>
    requires { R.can_read goals.now }
    ensures { Runs (R.reads goals.now) (form.pat place) p.old p.new result }
{
    let m = p.start();
    match place {
        PatPlace::TopLevel => any_pat(goals, p, &m),
        PatPlace::NoBar => single_pat(goals, p, &m, PatPlace::NoBar),
        PatPlace::BehindAmp => single_pat(goals, p, &m, PatPlace::BehindAmp),
    }
}
