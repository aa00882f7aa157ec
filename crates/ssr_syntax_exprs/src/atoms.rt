//! The functions that read expressions that stand for themselves, and those that leave.
ghost use Rattle.std.specs.Prelude.{◌≡◌};
ghost use Rattle.ssr_syntax_exprs.specs.Atoms as form;
ghost use Rattle.ssr_syntax_forms.specs.Forms.{passes};
ghost use Rattle.ssr_syntax_forms.specs.Runs.{Runs, RunsAnywhere, RunsFrom};

use crate::blocks::{BlockWords, block_expr};
use ssr_syntax_forms::{Fault, Mark, Parser, TokenSet};
use ssr_syntax_kinds::SyntaxKind;
use ssr_syntax_kinds::SyntaxKind::*;
use ssr_syntax_types::goals::{ExprPlace, Goal, PatPlace, PathPlace};
use ssr_syntax_types::literals::Literals;
use ssr_syntax_types::paths::{PathFirst, lifetime, name_ref, number_ref, path, ret_type};
use ssr_syntax_types::pattern_sets::{ParamFirst, Ranges};
use ssr_syntax_types::reader::Reader;
use ssr_syntax_types::token_trees::{attrs, some_attrs};

/// What `return`, `break` and closures begin with.
#[derive(Clone, Copy)]
pub(crate) struct LeavingFirst;

impl TokenSet for LeavingFirst {
    ghost kinds = { λ _. form.leaving_first };

    #[inline(always)]
    #[tactic(auto, unfolding(crate::specs::Atoms::leaving_first))]
    fn contains(self, kind: SyntaxKind) -> bool {
        matches!(kind, RETURN_KW | BREAK_KW | PIPE | PIPE2 | MOVE_KW)
    }
}

/// What the parameters of a closure begin with.
#[derive(Clone, Copy)]
struct Bars;

impl TokenSet for Bars {
    ghost kinds = { λ _. form.bars };

    #[inline(always)]
    fn contains(self, kind: SyntaxKind) -> bool {
        matches!(kind, PIPE | PIPE2)
    }
}

/// What other operands of the stated language begin with.
#[derive(Clone, Copy)]
struct StatedMarks;

impl TokenSet for StatedMarks {
    ghost kinds = { λ _. form.stated_marks };

    #[inline(always)]
    #[tactic(auto, unfolding(crate::specs::Atoms::stated_marks))]
    fn contains(self, kind: SyntaxKind) -> bool {
        matches!(
            kind,
            AMP | AMP2 | L_PAREN | L_BRACK | CONTINUE_KW | MINUS | BANG | STAR
        )
    }
}

/// What else operands of all of Rust begin with.
#[derive(Clone, Copy)]
struct WholeMarks;

impl TokenSet for WholeMarks {
    ghost kinds = { λ _. form.whole_marks };

    #[inline(always)]
    fn contains(self, kind: SyntaxKind) -> bool {
        matches!(kind, ASYNC_KW | UNDERSCORE | POUND)
    }
}

/// What other operands begin with; with `true`, where all of Rust is read.
#[derive(Clone, Copy)]
struct OperandMarks(bool);

impl TokenSet for OperandMarks {
    ghost kinds = { λ s. form.operand_marks s.0 };

    #[inline(always)]
    #[tactic(auto, using(ssr_syntax_forms::proofs::Shared::mem_append, ssr_syntax_forms::proofs::Shared::mem_where_whole), unfolding(crate::specs::Atoms::operand_marks))]
    fn contains(self, kind: SyntaxKind) -> bool {
        StatedMarks.contains(kind) || self.0 && WholeMarks.contains(kind)
    }
}

/// What an operand begins with, but for `{`; with `true`, where all of Rust is read.
#[derive(Clone, Copy)]
pub(crate) struct BracelessFirst(pub(crate) bool);

impl TokenSet for BracelessFirst {
    ghost kinds = { λ s. form.braceless_first s.0 };

    #[inline(always)]
    #[tactic(auto, using(ssr_syntax_forms::proofs::Shared::mem_append), unfolding(crate::specs::Atoms::braceless_first))]
    fn contains(self, kind: SyntaxKind) -> bool {
        Literals.contains(kind)
            || PathFirst.contains(kind)
            || BlockWords(self.0).contains(kind)
            || OperandMarks(self.0).contains(kind)
    }
}

/// What an operand begins with; with `true`, where all of Rust is read.
#[derive(Clone, Copy)]
pub(crate) struct OperandFirst(pub(crate) bool);

impl TokenSet for OperandFirst {
    ghost kinds = { λ s. form.operand_first s.0 };

    #[inline(always)]
    #[tactic(auto, using(ssr_syntax_forms::proofs::Shared::mem_append, ssr_syntax_forms::proofs::Shared::mem_where_whole), unfolding(crate::specs::Atoms::operand_first))]
    fn contains(self, kind: SyntaxKind) -> bool {
        matches!(kind, L_CURLY)
            || BracelessFirst(self.0).contains(kind)
            || self.0 && LeavingFirst.contains(kind)
    }
}

/// What an expression begins with; with `true`, where all of Rust is read.
#[derive(Clone, Copy)]
pub struct ExprFirst(pub bool);

impl TokenSet for ExprFirst {
    ghost kinds = { λ s. form.expr_first s.0 };

    #[inline(always)]
    #[tactic(auto, using(ssr_syntax_forms::proofs::Shared::mem_append), unfolding(crate::specs::Atoms::expr_first))]
    fn contains(self, kind: SyntaxKind) -> bool {
        OperandFirst(self.0).contains(kind) || Ranges.contains(kind) || LeavingFirst.contains(kind)
    }
}

/// What a field's value or its name begins with; with `true`, where all of Rust is read.
#[derive(Clone, Copy)]
struct FieldValueFirst(bool);

impl TokenSet for FieldValueFirst {
    ghost kinds = { λ s. form.field_value_first s.0 };

    #[inline(always)]
    #[tactic(auto, using(ssr_syntax_forms::proofs::Shared::mem_append), unfolding(crate::specs::Atoms::field_value_first))]
    fn contains(self, kind: SyntaxKind) -> bool {
        matches!(kind, DOT2EQ) || OperandFirst(self.0).contains(kind) || LeavingFirst.contains(kind)
    }
}

/// TUPLE_EXPR of no expression, behind `(`.
#[tactic(auto, unfolding(crate::specs::Atoms::unit_expr))]
fn unit_expr<R: Reader>(goals: &R, p: &mut Parser<'_>, m: &Mark<'_>) -> Result<(), Fault>
    requires { R.can_read goals.now }
    ensures { RunsFrom (R.reads goals.now) form.unit_expr m.now p.old p.new result }
{
    p.expect(R_PAREN)?;
    p.complete(m, TUPLE_EXPR)
}

/// PAREN_EXPR, behind `(` and an expression.
#[tactic(auto, unfolding(crate::specs::Atoms::paren_expr))]
fn paren_expr<R: Reader>(goals: &R, p: &mut Parser<'_>, m: &Mark<'_>) -> Result<(), Fault>
    requires { R.can_read goals.now }
    ensures { RunsFrom (R.reads goals.now) form.paren_expr m.now p.old p.new result }
{
    p.expect(R_PAREN)?;
    p.complete(m, PAREN_EXPR)
}

/// TUPLE_EXPR, behind `(` and the first expression.
#[tactic(auto, using(ssr_syntax_forms::proofs::Shared::run_comma_list_by), unfolding(crate::specs::Atoms::tuple_expr))]
fn tuple_expr<R: Reader>(goals: &R, p: &mut Parser<'_>, m: &Mark<'_>) -> Result<(), Fault>
    requires { R.can_read goals.now }
    ensures { RunsFrom (R.reads goals.now) form.tuple_expr m.now p.old p.new result }
{
    p.expect(COMMA)?;
    p.comma_list(
        ExprFirst(goals.is_whole()),
        |p| goals.read(p, Goal::Expr(ExprPlace::Anywhere)),
    )?;
    p.expect(R_PAREN)?;
    p.complete(m, TUPLE_EXPR)
}

/// PAREN_EXPR or TUPLE_EXPR, behind `(`.
#[tactic(auto, unfolding(crate::specs::Atoms::paren_or_tuple_expr))]
fn paren_or_tuple_expr<R: Reader>(goals: &R, p: &mut Parser<'_>, m: &Mark<'_>) -> Result<(), Fault>
    requires { R.can_read goals.now }
    ensures { RunsFrom (R.reads goals.now) form.paren_or_tuple_expr m.now p.old p.new result }
{
    goals.read(p, Goal::Expr(ExprPlace::Anywhere))?;
    if p.at(R_PAREN) {
        paren_expr(goals, p, m)
    } else {
        tuple_expr(goals, p, m)
    }
}

/// PAREN_EXPR or TUPLE_EXPR.
#[tactic(auto, unfolding(crate::specs::Atoms::expr_in_parentheses))]
pub(crate) fn expr_in_parentheses<R: Reader>(goals: &R, p: &mut Parser<'_>) -> Result<(), Fault>
    requires { R.can_read goals.now }
    ensures { Runs (R.reads goals.now) form.expr_in_parentheses p.old p.new result }
{
    let m = p.start();
    p.expect(L_PAREN)?;
    if p.at(R_PAREN) {
        unit_expr(goals, p, &m)
    } else {
        paren_or_tuple_expr(goals, p, &m)
    }
}

/// ARRAY_EXPR without items, behind `[`.
#[tactic(auto, unfolding(crate::specs::Atoms::empty_array))]
fn empty_array<R: Reader>(goals: &R, p: &mut Parser<'_>, m: &Mark<'_>) -> Result<(), Fault>
    requires { R.can_read goals.now }
    ensures { RunsFrom (R.reads goals.now) form.empty_array m.now p.old p.new result }
{
    p.expect(R_BRACK)?;
    p.complete(m, ARRAY_EXPR)
}

/// ARRAY_EXPR of one item and its count, behind the item.
#[tactic(auto, unfolding(crate::specs::Atoms::repeated_item))]
fn repeated_item<R: Reader>(goals: &R, p: &mut Parser<'_>, m: &Mark<'_>) -> Result<(), Fault>
    requires { R.can_read goals.now }
    ensures { RunsFrom (R.reads goals.now) form.repeated_item m.now p.old p.new result }
{
    p.expect(SEMICOLON)?;
    goals.read(p, Goal::Expr(ExprPlace::Anywhere))?;
    p.expect(R_BRACK)?;
    p.complete(m, ARRAY_EXPR)
}

/// ARRAY_EXPR of items with commas between them, behind the first.
#[tactic(auto, using(ssr_syntax_forms::proofs::Shared::run_comma_by, ssr_syntax_forms::proofs::Shared::run_comma_list_by), unfolding(crate::specs::Atoms::array_items))]
fn array_items<R: Reader>(goals: &R, p: &mut Parser<'_>, m: &Mark<'_>) -> Result<(), Fault>
    requires { R.can_read goals.now }
    ensures { RunsFrom (R.reads goals.now) form.array_items m.now p.old p.new result }
{
    p.comma(ExprFirst(goals.is_whole()))?;
    p.comma_list(
        ExprFirst(goals.is_whole()),
        |p| goals.read(p, Goal::Expr(ExprPlace::Anywhere)),
    )?;
    p.expect(R_BRACK)?;
    p.complete(m, ARRAY_EXPR)
}

/// ARRAY_EXPR with an item, behind `[`.
#[tactic(auto, unfolding(crate::specs::Atoms::array_of_items))]
fn array_of_items<R: Reader>(goals: &R, p: &mut Parser<'_>, m: &Mark<'_>) -> Result<(), Fault>
    requires { R.can_read goals.now }
    ensures { RunsFrom (R.reads goals.now) form.array_of_items m.now p.old p.new result }
{
    goals.read(p, Goal::Expr(ExprPlace::Anywhere))?;
    if p.at(SEMICOLON) {
        repeated_item(goals, p, m)
    } else {
        array_items(goals, p, m)
    }
}

/// ARRAY_EXPR: items in square brackets.
#[tactic(auto, unfolding(crate::specs::Atoms::array_expr))]
pub(crate) fn array_expr<R: Reader>(goals: &R, p: &mut Parser<'_>) -> Result<(), Fault>
    requires { R.can_read goals.now }
    ensures { Runs (R.reads goals.now) form.array_expr p.old p.new result }
{
    let m = p.start();
    p.expect(L_BRACK)?;
    if p.at(R_BRACK) {
        empty_array(goals, p, &m)
    } else {
        array_of_items(goals, p, &m)
    }
}

/// RECORD_EXPR_FIELD: a name, `:` and an expression.
#[tactic(auto, unfolding(crate::specs::Atoms::named_field))]
fn named_field<R: Reader>(goals: &R, p: &mut Parser<'_>, m: &Mark<'_>) -> Result<(), Fault>
    requires { R.can_read goals.now }
    ensures { RunsFrom (R.reads goals.now) form.named_field m.now p.old p.new result }
{
    name_ref(goals, p)?;
    p.expect(COLON)?;
    goals.read(p, Goal::Expr(ExprPlace::Anywhere))?;
    p.complete(m, RECORD_EXPR_FIELD)
}

/// RECORD_EXPR_FIELD: a number, `:` and an expression.
#[tactic(auto, unfolding(crate::specs::Atoms::numbered_field))]
fn numbered_field<R: Reader>(goals: &R, p: &mut Parser<'_>, m: &Mark<'_>) -> Result<(), Fault>
    requires { R.can_read goals.now }
    ensures { RunsFrom (R.reads goals.now) form.numbered_field m.now p.old p.new result }
{
    number_ref(goals, p)?;
    p.expect(COLON)?;
    goals.read(p, Goal::Expr(ExprPlace::Anywhere))?;
    p.complete(m, RECORD_EXPR_FIELD)
}

/// RECORD_EXPR_FIELD: an expression alone.
#[tactic(auto, unfolding(crate::specs::Atoms::shorthand_field))]
fn shorthand_field<R: Reader>(goals: &R, p: &mut Parser<'_>) -> Result<(), Fault>
    requires { R.can_read goals.now }
    ensures { Runs (R.reads goals.now) form.shorthand_field p.old p.new result }
{
    let m = p.start();
    p.refuse_at(DOT2)?;
    goals.read(p, Goal::Expr(ExprPlace::Anywhere))?;
    p.complete(&m, RECORD_EXPR_FIELD)
}

/// What an expression that is a field behind ATTRs doesn't begin with.
#[derive(Clone, Copy)]
struct NoBareField;

impl TokenSet for NoBareField {
    ghost kinds = { λ _. form.no_bare_field };

    #[inline(always)]
    fn contains(self, kind: SyntaxKind) -> bool {
        matches!(kind, POUND | DOT2)
    }
}

/// RECORD_EXPR_FIELD: an expression behind ATTRs.
#[tactic(auto, unfolding(crate::specs::Atoms::bare_field))]
fn bare_field<R: Reader>(goals: &R, p: &mut Parser<'_>, m: &Mark<'_>) -> Result<(), Fault>
    requires { R.can_read goals.now }
    ensures { RunsFrom (R.reads goals.now) form.bare_field m.now p.old p.new result }
{
    p.refuse_at(NoBareField)?;
    goals.read(p, Goal::Expr(ExprPlace::Anywhere))?;
    p.complete(m, RECORD_EXPR_FIELD)
}

/// RECORD_EXPR_FIELD by a number, or an expression, behind ATTRs.
#[tactic(auto, using(ssr_syntax_forms::proofs::Shared::run_decide), unfolding(crate::specs::Atoms::numbered_or_bare))]
fn numbered_or_bare<R: Reader>(goals: &R, p: &mut Parser<'_>, m: &Mark<'_>) -> Result<(), Fault>
    requires { R.can_read goals.now }
    ensures { RunsFrom (R.reads goals.now) form.numbered_or_bare m.now p.old p.new result }
{
    if p.at_two(INT_NUMBER, COLON) {
        numbered_field(goals, p, m)
    } else {
        bare_field(goals, p, m)
    }
}

/// RECORD_EXPR_FIELD of any form, behind ATTRs.
#[tactic(auto, using(ssr_syntax_forms::proofs::Shared::run_decide), unfolding(crate::specs::Atoms::field_behind_attrs))]
fn field_behind_attrs<R: Reader>(goals: &R, p: &mut Parser<'_>, m: &Mark<'_>) -> Result<(), Fault>
    requires { R.can_read goals.now }
    ensures { RunsFrom (R.reads goals.now) form.field_behind_attrs m.now p.old p.new result }
{
    if p.at_two(IDENT, COLON) {
        named_field(goals, p, m)
    } else {
        numbered_or_bare(goals, p, m)
    }
}

/// RECORD_EXPR_FIELD with ATTRs.
#[tactic(auto, unfolding(crate::specs::Atoms::attributed_field))]
fn attributed_field<R: Reader>(goals: &R, p: &mut Parser<'_>) -> Result<(), Fault>
    requires { R.can_read goals.now }
    ensures { Runs (R.reads goals.now) form.attributed_field p.old p.new result }
{
    let m = p.start();
    some_attrs(goals, p)?;
    field_behind_attrs(goals, p, &m)
}

/// RECORD_EXPR_FIELD of any form.
#[tactic(auto, using(ssr_syntax_forms::proofs::Shared::run_also_decide), unfolding(crate::specs::Atoms::record_expr_field))]
fn record_expr_field<R: Reader>(goals: &R, p: &mut Parser<'_>) -> Result<(), Fault>
    requires { R.can_read goals.now }
    ensures { RunsAnywhere (R.reads goals.now) form.record_expr_field p.old p.new result }
{
    if goals.is_whole() && p.at(POUND) {
        attributed_field(goals, p)
    } else {
        stated_record_field(goals, p)
    }
}

/// RECORD_EXPR_FIELD of any form of the stated language.
#[tactic(auto, using(ssr_syntax_forms::proofs::Shared::run_decide), unfolding(crate::specs::Atoms::stated_record_field))]
fn stated_record_field<R: Reader>(goals: &R, p: &mut Parser<'_>) -> Result<(), Fault>
    requires { R.can_read goals.now }
    ensures { RunsAnywhere (R.reads goals.now) form.stated_record_field p.old p.new result }
{
    if p.at_two(IDENT, COLON) {
        let n = p.start();
        named_field(goals, p, &n)
    } else if p.at_two(INT_NUMBER, COLON) {
        let n = p.start();
        numbered_field(goals, p, &n)
    } else {
        shorthand_field(goals, p)
    }
}

/// RECORD_EXPR_FIELD and its comma.
#[tactic(auto, using(ssr_syntax_forms::proofs::Shared::run_comma_by), unfolding(crate::specs::Atoms::record_item))]
fn record_item<R: Reader>(goals: &R, p: &mut Parser<'_>, m: &Mark<'_>) -> Result<(), Fault>
    requires { R.can_read goals.now }
    ensures { RunsFrom (R.reads goals.now) form.record_item m.now p.old p.new result }
{
    record_expr_field(goals, p)?;
    p.comma(ExprFirst(goals.is_whole()))
}

/// The expression behind the `..` of a record, which may lack where all of Rust is read.
#[tactic(auto, unfolding(crate::specs::Atoms::base_value))]
fn base_value<R: Reader>(goals: &R, p: &mut Parser<'_>) -> Result<(), Fault>
    requires { R.can_read goals.now }
    ensures { RunsAnywhere (R.reads goals.now) form.base_value p.old p.new result }
{
    if goals.is_whole() && !p.at_any(ExprFirst(true)) {
        Ok(())
    } else {
        goals.read(p, Goal::Expr(ExprPlace::Anywhere))
    }
}

/// The end of a RECORD_EXPR_FIELD_LIST: perhaps `..` and an expression, and `}`.
#[tactic(auto, unfolding(crate::specs::Atoms::record_base))]
fn record_base<R: Reader>(goals: &R, p: &mut Parser<'_>, m: &Mark<'_>) -> Result<(), Fault>
    requires { R.can_read goals.now }
    ensures { RunsFrom (R.reads goals.now) form.record_base m.now p.old p.new result }
{
    if p.at(DOT2) {
        p.expect(DOT2)?;
        base_value(goals, p)?;
    }
    p.expect(R_CURLY)?;
    p.complete(m, RECORD_EXPR_FIELD_LIST)
}

/// RECORD_EXPR_FIELD_LIST: fields in braces, with commas between them, and perhaps `..` and an expression at the end.
#[tactic(auto, using(ssr_syntax_forms::proofs::Shared::run_repeated_by), unfolding(crate::specs::Atoms::record_expr_field_list))]
fn record_expr_field_list<R: Reader>(
    goals: &R,
    p: &mut Parser<'_>,
    m: &Mark<'_>,
) -> Result<(), Fault>
    requires { R.can_read goals.now }
    ensures { RunsFrom (R.reads goals.now) form.record_expr_field_list m.now p.old p.new result }
{
    p.expect(L_CURLY)?;
    p.repeated(
        FieldValueFirst(goals.is_whole()),
        |p| record_item(goals, p, m),
    )?;
    record_base(goals, p, m)
}

/// RECORD_EXPR: fields behind a PATH.
#[tactic(auto, unfolding(crate::specs::Atoms::record_expr))]
fn record_expr<R: Reader>(goals: &R, p: &mut Parser<'_>, m: &Mark<'_>) -> Result<(), Fault>
    requires { R.can_read goals.now }
    ensures { RunsFrom (R.reads goals.now) form.record_expr m.now p.old p.new result }
{
    let n = p.start();
    record_expr_field_list(goals, p, &n)?;
    p.complete(m, RECORD_EXPR)
}

/// PATH_EXPR or RECORD_EXPR, behind a PATH.
#[tactic(auto, unfolding(crate::specs::Atoms::path_or_record))]
pub fn path_or_record<R: Reader>(
    goals: &R,
    p: &mut Parser<'_>,
    m: &Mark<'_>,
    place: ExprPlace,
) -> Result<(), Fault>
    requires { R.can_read goals.now }
    ensures { RunsFrom (R.reads goals.now) (form.path_or_record place) m.now p.old p.new result }
{
    match place {
        ExprPlace::Anywhere => {
            if p.at(L_CURLY) {
                record_expr(goals, p, m)
            } else {
                p.complete(m, PATH_EXPR)
            }
        }
        ExprPlace::BeforeBlock => p.complete(m, PATH_EXPR),
    }
}

/// MACRO_EXPR: a MACRO_CALL, behind its PATH.
#[tactic(auto, unfolding(crate::specs::Atoms::macro_expr))]
fn macro_expr<R: Reader>(goals: &R, p: &mut Parser<'_>, m: &Mark<'_>) -> Result<(), Fault>
    requires { R.can_read goals.now }
    ensures { RunsFrom (R.reads goals.now) form.macro_expr m.now p.old p.new result }
{
    p.refuse_since(m, L_ANGLE)?;
    p.expect(BANG)?;
    goals.read(p, Goal::TokenTree)?;
    p.complete(m, MACRO_CALL)?;
    p.complete(m, MACRO_EXPR)
}

/// What begins with a PATH: PATH_EXPR, RECORD_EXPR or MACRO_EXPR.
#[tactic(auto, unfolding(crate::specs::Atoms::path_expr))]
pub(crate) fn path_expr<R: Reader>(
    goals: &R,
    p: &mut Parser<'_>,
    place: ExprPlace,
) -> Result<(), Fault>
    requires { R.can_read goals.now }
    ensures { Runs (R.reads goals.now) (form.path_expr place) p.old p.new result }
{
    let m = p.start();
    path(goals, p, PathPlace::InExpr)?;
    if p.at(BANG) {
        macro_expr(goals, p, &m)
    } else {
        path_or_record(goals, p, &m, place)
    }
}

/// CONTINUE_EXPR: `continue` and perhaps a LIFETIME.
#[tactic(auto, unfolding(crate::specs::Atoms::continue_expr))]
pub(crate) fn continue_expr<R: Reader>(goals: &R, p: &mut Parser<'_>) -> Result<(), Fault>
    requires { R.can_read goals.now }
    ensures { Runs (R.reads goals.now) form.continue_expr p.old p.new result }
{
    let m = p.start();
    p.expect(CONTINUE_KW)?;
    if p.at(LIFETIME_IDENT) {
        lifetime(goals, p)?;
    }
    p.complete(&m, CONTINUE_EXPR)
}

/// RETURN_EXPR: `return` and perhaps an expression.
#[tactic(auto, using(ssr_syntax_forms::proofs::Shared::run_choose_by), unfolding(crate::specs::Atoms::return_expr))]
fn return_expr<R: Reader>(goals: &R, p: &mut Parser<'_>) -> Result<(), Fault>
    requires { R.can_read goals.now }
    ensures { Runs (R.reads goals.now) form.return_expr p.old p.new result }
{
    let m = p.start();
    p.expect(RETURN_KW)?;
    if p.at_any(ExprFirst(goals.is_whole())) {
        goals.read(p, Goal::Expr(ExprPlace::Anywhere))?;
    }
    p.complete(&m, RETURN_EXPR)
}

/// A LIFETIME that is no LABEL of what follows, or nothing.
#[tactic(auto, using(ssr_syntax_forms::proofs::Shared::run_decide), unfolding(crate::specs::Atoms::break_target))]
fn break_target<R: Reader>(goals: &R, p: &mut Parser<'_>, m: &Mark<'_>) -> Result<(), Fault>
    requires { R.can_read goals.now }
    ensures { RunsFrom (R.reads goals.now) form.break_target m.now p.old p.new result }
{
    if p.at_two(LIFETIME_IDENT, COLON) {
        Ok(())
    } else if p.at(LIFETIME_IDENT) {
        lifetime(goals, p)
    } else {
        Ok(())
    }
}

/// BREAK_EXPR: `break`, perhaps a LIFETIME, and perhaps an expression.
#[tactic(auto, using(ssr_syntax_forms::proofs::Shared::run_choose_by), unfolding(crate::specs::Atoms::break_expr))]
fn break_expr<R: Reader>(goals: &R, p: &mut Parser<'_>, m: &Mark<'_>) -> Result<(), Fault>
    requires { R.can_read goals.now }
    ensures { RunsFrom (R.reads goals.now) form.break_expr m.now p.old p.new result }
{
    p.expect(BREAK_KW)?;
    break_target(goals, p, m)?;
    if p.at_any(ExprFirst(goals.is_whole())) {
        goals.read(p, Goal::Expr(ExprPlace::Anywhere))?;
    }
    p.complete(m, BREAK_EXPR)
}

/// PARAM: a pattern, and perhaps `:` and a type.
#[tactic(auto, unfolding(crate::specs::Atoms::closure_param))]
fn closure_param<R: Reader>(goals: &R, p: &mut Parser<'_>) -> Result<(), Fault>
    requires { R.can_read goals.now }
    ensures { Runs (R.reads goals.now) form.closure_param p.old p.new result }
{
    let m = p.start();
    if goals.is_whole() {
        attrs(goals, p)?;
    }
    goals.read(p, Goal::Pat(PatPlace::NoBar))?;
    if p.at(COLON) {
        p.expect(COLON)?;
        goals.read(p, Goal::Ty)?;
    }
    p.complete(&m, PARAM)
}

/// PARAM_LIST: parameters between bars, also those of `||`.
#[tactic(auto, using(ssr_syntax_forms::proofs::Shared::run_comma_list_by), unfolding(crate::specs::Atoms::closure_param_list))]
fn closure_param_list<R: Reader>(goals: &R, p: &mut Parser<'_>) -> Result<(), Fault>
    requires { R.can_read goals.now }
    ensures { Runs (R.reads goals.now) form.closure_param_list p.old p.new result }
{
    let m = p.start();
    p.expect_part(Bars)?;
    p.comma_list(ParamFirst(goals.is_whole()), |p| closure_param(goals, p))?;
    p.expect_part(Bars)?;
    p.complete(&m, PARAM_LIST)
}

/// CLOSURE_EXPR with a RET_TYPE: a BLOCK_EXPR follows it.
#[tactic(auto, unfolding(crate::specs::Atoms::typed_closure))]
fn typed_closure<R: Reader>(goals: &R, p: &mut Parser<'_>, m: &Mark<'_>) -> Result<(), Fault>
    requires { R.can_read goals.now }
    ensures { RunsFrom (R.reads goals.now) form.typed_closure m.now p.old p.new result }
{
    ret_type(goals, p)?;
    block_expr(goals, p)?;
    p.complete(m, CLOSURE_EXPR)
}

/// CLOSURE_EXPR without a RET_TYPE: any expression.
#[tactic(auto, unfolding(crate::specs::Atoms::plain_closure))]
fn plain_closure<R: Reader>(goals: &R, p: &mut Parser<'_>, m: &Mark<'_>) -> Result<(), Fault>
    requires { R.can_read goals.now }
    ensures { RunsFrom (R.reads goals.now) form.plain_closure m.now p.old p.new result }
{
    goals.read(p, Goal::Expr(ExprPlace::Anywhere))?;
    p.complete(m, CLOSURE_EXPR)
}

/// What follows the parameters of a closure.
#[tactic(auto, unfolding(crate::specs::Atoms::closure_body))]
fn closure_body<R: Reader>(goals: &R, p: &mut Parser<'_>, m: &Mark<'_>) -> Result<(), Fault>
    requires { R.can_read goals.now }
    ensures { RunsFrom (R.reads goals.now) form.closure_body m.now p.old p.new result }
{
    if p.at(THIN_ARROW) {
        typed_closure(goals, p, m)
    } else {
        plain_closure(goals, p, m)
    }
}

/// CLOSURE_EXPR: perhaps `move`, a PARAM_LIST, and a body.
#[tactic(auto, unfolding(crate::specs::Atoms::closure_expr))]
fn closure_expr<R: Reader>(goals: &R, p: &mut Parser<'_>) -> Result<(), Fault>
    requires { R.can_read goals.now }
    ensures { Runs (R.reads goals.now) form.closure_expr p.old p.new result }
{
    let m = p.start();
    p.eat(MOVE_KW)?;
    closure_param_list(goals, p)?;
    closure_body(goals, p, &m)
}

/// Whether a closure is next that is `async`.
#[tactic(auto, using(ssr_syntax_forms::proofs::Shared::first_passes, ssr_syntax_forms::proofs::Shared::others_pass))]
pub(crate) fn at_async_closure(p: &Parser<'_>) -> bool
    ensures { result ≡ passes form.async_closure_ahead p.now.rest }
{
    p.at_two(ASYNC_KW, Bars) || p.at_three(ASYNC_KW, MOVE_KW, Bars)
}

/// CLOSURE_EXPR: `async`, perhaps `move`, a PARAM_LIST, and a body.
#[tactic(auto, unfolding(crate::specs::Atoms::async_closure))]
pub(crate) fn async_closure<R: Reader>(goals: &R, p: &mut Parser<'_>) -> Result<(), Fault>
    requires { R.can_read goals.now }
    ensures { Runs (R.reads goals.now) form.async_closure p.old p.new result }
{
    let m = p.start();
    p.expect(ASYNC_KW)?;
    p.eat(MOVE_KW)?;
    closure_param_list(goals, p)?;
    closure_body(goals, p, &m)
}

/// BLOCK_EXPR: `async`, perhaps `move`, and a STMT_LIST.
#[tactic(auto, unfolding(crate::specs::Atoms::async_block))]
pub(crate) fn async_block<R: Reader>(goals: &R, p: &mut Parser<'_>) -> Result<(), Fault>
    requires { R.can_read goals.now }
    ensures { Runs (R.reads goals.now) form.async_block p.old p.new result }
{
    let m = p.start();
    p.expect(ASYNC_KW)?;
    p.eat(MOVE_KW)?;
    goals.read(p, Goal::StmtList)?;
    p.complete(&m, BLOCK_EXPR)
}

/// UNDERSCORE_EXPR: `_`, to which is assigned.
#[tactic(auto, unfolding(crate::specs::Atoms::underscore_expr))]
pub(crate) fn underscore_expr<R: Reader>(goals: &R, p: &mut Parser<'_>) -> Result<(), Fault>
    requires { R.can_read goals.now }
    ensures { Runs (R.reads goals.now) form.underscore_expr p.old p.new result }
{
    let m = p.start();
    p.expect(UNDERSCORE)?;
    p.complete(&m, UNDERSCORE_EXPR)
}

/// RETURN_EXPR, BREAK_EXPR or CLOSURE_EXPR.
#[tactic(auto, unfolding(crate::specs::Atoms::leaving_expr))]
pub(crate) fn leaving_expr<R: Reader>(goals: &R, p: &mut Parser<'_>) -> Result<(), Fault>
    requires { R.can_read goals.now }
    ensures { RunsAnywhere (R.reads goals.now) form.leaving_expr p.old p.new result }
{
    if p.at(RETURN_KW) {
        return_expr(goals, p)
    } else if p.at(BREAK_KW) {
        let n = p.start();
        break_expr(goals, p, &n)
    } else {
        closure_expr(goals, p)
    }
}
