//! The functions that read structures and enumerations.
ghost use Rattle.ssr_syntax_item_parts.specs.Adts as form;
ghost use Rattle.ssr_syntax_forms.specs.Runs.{Runs, RunsAnywhere, RunsFrom};

use crate::params::{field_visibility, generic_params, visibility, wheres};
use ssr_syntax_forms::{Fault, Mark, Parser, TokenSet};
use ssr_syntax_kinds::SyntaxKind;
use ssr_syntax_kinds::SyntaxKind::*;
use ssr_syntax_types::goals::{ExprPlace, Goal};
use ssr_syntax_types::paths::{TypeFirst, name};
use ssr_syntax_types::reader::Reader;
use ssr_syntax_types::token_trees::attrs;

/// What a field with a name begins with.
#[derive(Clone, Copy)]
struct RecordFieldFirst;

impl TokenSet for RecordFieldFirst {
    ghost kinds = { λ _. form.record_field_first };

    #[inline(always)]
    fn contains(self, kind: SyntaxKind) -> bool {
        matches!(kind, IDENT | POUND | PUB_KW)
    }
}

/// What a field without a name begins with; with `true`, where all of Rust is read.
#[derive(Clone, Copy)]
struct TupleFieldFirst(bool);

impl TokenSet for TupleFieldFirst {
    ghost kinds = { λ s. form.tuple_field_first s.0 };

    #[inline(always)]
    #[tactic(auto, unfolding(crate::specs::Adts::tuple_field_first))]
    fn contains(self, kind: SyntaxKind) -> bool {
        matches!(kind, POUND | PUB_KW) || TypeFirst(self.0).contains(kind)
    }
}

/// What a variant begins with.
#[derive(Clone, Copy)]
struct VariantFirst;

impl TokenSet for VariantFirst {
    ghost kinds = { λ _. form.variant_first };

    #[inline(always)]
    fn contains(self, kind: SyntaxKind) -> bool {
        matches!(kind, IDENT | POUND)
    }
}

/// RECORD_FIELD: ATTRs, perhaps VISIBILITY, a NAME, `:` and a type.
#[tactic(auto, unfolding(crate::specs::Adts::record_field))]
fn record_field<R: Reader>(goals: &R, p: &mut Parser<'_>) -> Result<(), Fault>
    requires { R.can_read goals.now }
    ensures { Runs (R.reads goals.now) form.record_field p.old p.new result }
{
    let m = p.start();
    attrs(goals, p)?;
    if p.at(PUB_KW) {
        visibility(goals, p)?;
    }
    name(goals, p)?;
    p.expect(COLON)?;
    goals.read(p, Goal::Ty)?;
    p.complete(&m, RECORD_FIELD)
}

/// RECORD_FIELD_LIST: fields in braces, with commas between them.
#[tactic(auto, using(ssr_syntax_forms::proofs::Shared::run_comma_list), unfolding(crate::specs::Adts::record_field_list))]
pub fn record_field_list<R: Reader>(goals: &R, p: &mut Parser<'_>) -> Result<(), Fault>
    requires { R.can_read goals.now }
    ensures { Runs (R.reads goals.now) form.record_field_list p.old p.new result }
{
    let m = p.start();
    p.expect(L_CURLY)?;
    p.comma_list(RecordFieldFirst, |p| record_field(goals, p))?;
    p.expect(R_CURLY)?;
    p.complete(&m, RECORD_FIELD_LIST)
}

/// TUPLE_FIELD: ATTRs, perhaps VISIBILITY, and a type.
#[tactic(auto, unfolding(crate::specs::Adts::tuple_field))]
fn tuple_field<R: Reader>(goals: &R, p: &mut Parser<'_>) -> Result<(), Fault>
    requires { R.can_read goals.now }
    ensures { Runs (R.reads goals.now) form.tuple_field p.old p.new result }
{
    let m = p.start();
    attrs(goals, p)?;
    if p.at(PUB_KW) {
        field_visibility(goals, p)?;
    }
    goals.read(p, Goal::Ty)?;
    p.complete(&m, TUPLE_FIELD)
}

/// TUPLE_FIELD_LIST: fields in parentheses, with commas between them.
#[tactic(auto, using(ssr_syntax_forms::proofs::Shared::run_comma_list_by), unfolding(crate::specs::Adts::tuple_field_list))]
fn tuple_field_list<R: Reader>(goals: &R, p: &mut Parser<'_>) -> Result<(), Fault>
    requires { R.can_read goals.now }
    ensures { Runs (R.reads goals.now) form.tuple_field_list p.old p.new result }
{
    let m = p.start();
    p.expect(L_PAREN)?;
    p.comma_list(TupleFieldFirst(goals.is_whole()), |p| tuple_field(goals, p))?;
    p.expect(R_PAREN)?;
    p.complete(&m, TUPLE_FIELD_LIST)
}

/// What follows the name of a STRUCT with fields in parentheses.
#[tactic(auto, unfolding(crate::specs::Adts::tuple_struct))]
fn tuple_struct<R: Reader>(goals: &R, p: &mut Parser<'_>, m: &Mark<'_>) -> Result<(), Fault>
    requires { R.can_read goals.now }
    ensures { RunsFrom (R.reads goals.now) form.tuple_struct m.now p.old p.new result }
{
    tuple_field_list(goals, p)?;
    wheres(goals, p, m)?;
    p.expect(SEMICOLON)
}

/// RECORD_FIELD_LIST or `;`.
#[tactic(auto, unfolding(crate::specs::Adts::fields_or_none))]
fn fields_or_none<R: Reader>(goals: &R, p: &mut Parser<'_>) -> Result<(), Fault>
    requires { R.can_read goals.now }
    ensures { RunsAnywhere (R.reads goals.now) form.fields_or_none p.old p.new result }
{
    if p.at(SEMICOLON) {
        p.expect(SEMICOLON)
    } else {
        record_field_list(goals, p)
    }
}

/// What follows the name of another STRUCT.
#[tactic(auto, unfolding(crate::specs::Adts::record_struct))]
fn record_struct<R: Reader>(goals: &R, p: &mut Parser<'_>, m: &Mark<'_>) -> Result<(), Fault>
    requires { R.can_read goals.now }
    ensures { RunsFrom (R.reads goals.now) form.record_struct m.now p.old p.new result }
{
    wheres(goals, p, m)?;
    fields_or_none(goals, p)
}

/// What follows the name of a STRUCT.
#[tactic(auto, unfolding(crate::specs::Adts::struct_rest))]
fn struct_rest<R: Reader>(goals: &R, p: &mut Parser<'_>, m: &Mark<'_>) -> Result<(), Fault>
    requires { R.can_read goals.now }
    ensures { RunsFrom (R.reads goals.now) form.struct_rest m.now p.old p.new result }
{
    if p.at(L_PAREN) {
        tuple_struct(goals, p, m)
    } else {
        record_struct(goals, p, m)
    }
}

/// STRUCT: `struct`, a NAME, parameters, and fields or none.
#[tactic(auto, unfolding(crate::specs::Adts::struct_item))]
pub fn struct_item<R: Reader>(goals: &R, p: &mut Parser<'_>, m: &Mark<'_>) -> Result<(), Fault>
    requires { R.can_read goals.now }
    ensures { RunsFrom (R.reads goals.now) form.struct_item m.now p.old p.new result }
{
    p.expect(STRUCT_KW)?;
    name(goals, p)?;
    generic_params(goals, p, m)?;
    struct_rest(goals, p, m)?;
    p.complete(m, STRUCT)
}

/// The fields of a VARIANT, if it has any.
#[tactic(auto, unfolding(crate::specs::Adts::variant_fields))]
fn variant_fields<R: Reader>(goals: &R, p: &mut Parser<'_>, m: &Mark<'_>) -> Result<(), Fault>
    requires { R.can_read goals.now }
    ensures { RunsFrom (R.reads goals.now) form.variant_fields m.now p.old p.new result }
{
    if p.at(L_CURLY) {
        record_field_list(goals, p)
    } else if p.at(L_PAREN) {
        tuple_field_list(goals, p)
    } else {
        Ok(())
    }
}

/// VARIANT: ATTRs, a NAME, perhaps fields, and perhaps `=` and an expression.
#[tactic(auto, unfolding(crate::specs::Adts::variant))]
fn variant<R: Reader>(goals: &R, p: &mut Parser<'_>) -> Result<(), Fault>
    requires { R.can_read goals.now }
    ensures { Runs (R.reads goals.now) form.variant p.old p.new result }
{
    let m = p.start();
    attrs(goals, p)?;
    name(goals, p)?;
    variant_fields(goals, p, &m)?;
    if p.at(EQ) {
        p.expect(EQ)?;
        goals.read(p, Goal::Expr(ExprPlace::Anywhere))?;
    }
    p.complete(&m, VARIANT)
}

/// VARIANT_LIST: VARIANTs in braces, with commas between them.
#[tactic(auto, using(ssr_syntax_forms::proofs::Shared::run_comma_list), unfolding(crate::specs::Adts::variant_list))]
fn variant_list<R: Reader>(goals: &R, p: &mut Parser<'_>) -> Result<(), Fault>
    requires { R.can_read goals.now }
    ensures { Runs (R.reads goals.now) form.variant_list p.old p.new result }
{
    let m = p.start();
    p.expect(L_CURLY)?;
    p.comma_list(VariantFirst, |p| variant(goals, p))?;
    p.expect(R_CURLY)?;
    p.complete(&m, VARIANT_LIST)
}

/// ENUM: `enum`, a NAME, parameters, perhaps a WHERE_CLAUSE, and a VARIANT_LIST.
#[tactic(auto, unfolding(crate::specs::Adts::enum_item))]
pub fn enum_item<R: Reader>(goals: &R, p: &mut Parser<'_>, m: &Mark<'_>) -> Result<(), Fault>
    requires { R.can_read goals.now }
    ensures { RunsFrom (R.reads goals.now) form.enum_item m.now p.old p.new result }
{
    p.expect(ENUM_KW)?;
    name(goals, p)?;
    generic_params(goals, p, m)?;
    wheres(goals, p, m)?;
    variant_list(goals, p)?;
    p.complete(m, ENUM)
}
