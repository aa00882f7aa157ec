//! The functions that read expressions by how tightly they bind.
ghost use Rattle.std.specs.Prelude.{◌≡◌};
ghost use Rattle.ssr_syntax_exprs.specs.Expressions as form;
ghost use Rattle.ssr_syntax_exprs.specs.Private.Ranks.{next_rank, rank_of};
ghost use Rattle.ssr_syntax_forms.specs.Runs.{Runs, RunsAnywhere, RunsFrom};

use crate::atoms::{
    BracelessFirst, ExprFirst, LeavingFirst, OperandFirst, array_expr, async_block, async_closure,
    at_async_closure, continue_expr, expr_in_parentheses, leaving_expr, path_expr, underscore_expr,
};
use crate::blocks::block_like;
use ssr_syntax_forms::{Fault, Mark, Parser, TokenSet};
use ssr_syntax_kinds::SyntaxKind;
use ssr_syntax_kinds::SyntaxKind::*;
use ssr_syntax_types::goals::{ExprPlace, Goal, Rank};
use ssr_syntax_types::literals::{Literals, literal};
use ssr_syntax_types::paths::{OpenAngle, PathFirst, name_ref, number_ref};
use ssr_syntax_types::pattern_sets::Ranges;
use ssr_syntax_types::reader::Reader;
use ssr_syntax_types::token_trees::some_attrs;
use ssr_syntax_types::types::{Ampersands, PointerWords};

/// The operators in front of an operand.
#[derive(Clone, Copy)]
struct PrefixOperators;

impl TokenSet for PrefixOperators {
    ghost kinds = { λ _. form.prefix_operators };

    #[inline(always)]
    fn contains(self, kind: SyntaxKind) -> bool {
        matches!(kind, MINUS | BANG | STAR)
    }
}

/// What goes on with the expression in front of it begins with one of these.
#[derive(Clone, Copy)]
struct PostfixFirst;

impl TokenSet for PostfixFirst {
    ghost kinds = { λ _. form.postfix_first };

    #[inline(always)]
    fn contains(self, kind: SyntaxKind) -> bool {
        matches!(kind, L_PAREN | L_BRACK | QUESTION | DOT)
    }
}

/// The operators of assignments.
#[derive(Clone, Copy)]
struct Assignments;

impl TokenSet for Assignments {
    ghost kinds = { λ _. form.assignments };

    #[inline(always)]
    #[tactic(auto, unfolding(crate::specs::Expressions::assignments))]
    fn contains(self, kind: SyntaxKind) -> bool {
        matches!(
            kind,
            EQ | PLUSEQ
                | MINUSEQ
                | STAREQ
                | SLASHEQ
                | PERCENTEQ
                | CARETEQ
                | AMPEQ
                | PIPEEQ
                | SHLEQ
                | SHREQ
        )
    }
}

/// What goes on with any expression: an operator, an assignment, a range or a cast.
#[derive(Clone, Copy)]
struct OperatorFirst;

impl TokenSet for OperatorFirst {
    ghost kinds = { λ _. form.operator_first };

    #[inline(always)]
    #[tactic(auto, unfolding(crate::specs::Expressions::operator_first))]
    fn contains(self, kind: SyntaxKind) -> bool {
        match kind {
            STAR | SLASH | PERCENT | PLUS | MINUS | SHL | SHR | AMP | CARET | PIPE => true,
            EQ2 | NEQ | L_ANGLE | R_ANGLE | LTEQ | GTEQ | AMP2 | PIPE2 => true,
            DOT2 | DOT2EQ | AS_KW => true,
            _ => Assignments.contains(kind),
        }
    }
}

/// How many ranks of operators between two operands there are.
pub const RANKS: Rank = 9;

/// How many of them bind tighter than `&&`.
pub(crate) const AND_RANK: Rank = 7;

/// How many of them bind tighter than `||`.
pub(crate) const OR_RANK: Rank = 8;

/// The operators of a rank.
#[derive(Clone, Copy)]
struct Operators(Rank);

impl TokenSet for Operators {
    ghost kinds = { λ o. form.operators o.0 };

    #[inline(always)]
    #[tactic(auto, using(crate::proofs::Ranks::no_operators), unfolding(crate::specs::Expressions::operators))]
    fn contains(self, kind: SyntaxKind) -> bool {
        match self.0 {
            0 => matches!(kind, STAR | SLASH | PERCENT),
            1 => matches!(kind, PLUS | MINUS),
            2 => matches!(kind, SHL | SHR),
            3 => matches!(kind, AMP),
            4 => matches!(kind, CARET),
            5 => matches!(kind, PIPE),
            6 => matches!(kind, EQ2 | NEQ | L_ANGLE | R_ANGLE | LTEQ | GTEQ),
            7 => matches!(kind, AMP2),
            8 => matches!(kind, PIPE2),
            _ => false,
        }
    }
}

/// What the right operand of a range begins with; with `true`, where all of Rust is read.
#[derive(Clone, Copy)]
struct EndsFirst(ExprPlace, bool);

impl TokenSet for EndsFirst {
    ghost kinds = { λ e. form.ends_first e.0 e.1 };

    #[inline(always)]
    #[tactic(auto, unfolding(crate::specs::Expressions::ends_first))]
    fn contains(self, kind: SyntaxKind) -> bool {
        match self.0 {
            ExprPlace::Anywhere => OperandFirst(self.1).contains(kind),
            ExprPlace::BeforeBlock => BracelessFirst(self.1).contains(kind),
        }
    }
}

/// The rank of an operator; behind all ranks what is none.
fn rank_of(kind: SyntaxKind) -> Rank
    ensures { result ≡ rank_of kind }
{
    match kind {
        STAR | SLASH | PERCENT => 0,
        PLUS | MINUS => 1,
        SHL | SHR => 2,
        AMP => 3,
        CARET => 4,
        PIPE => 5,
        EQ2 | NEQ | L_ANGLE | R_ANGLE | LTEQ | GTEQ => 6,
        AMP2 => 7,
        PIPE2 => 8,
        _ => RANKS,
    }
}

/// The rank of the next token.
fn next_rank(p: &Parser<'_>) -> Rank
    ensures { result ≡ next_rank p.now.rest }
{
    rank_of(p.current())
}

/// No more ranks than there are.
#[tactic(auto, using(crate::proofs::Ranks::few_ranks, crate::proofs::Ranks::all_ranks))]
pub fn at_most_all(rank: Rank) -> Rank
    ensures { result ≡ form.at_most rank form.ranks }
{
    if rank < RANKS { rank } else { RANKS }
}

/// A block-like expression, or one of all of Rust that its first word tells.
#[tactic(auto, using(ssr_syntax_forms::proofs::Shared::run_also), unfolding(crate::specs::Expressions::block_or_mark))]
fn block_or_mark<R: Reader>(goals: &R, p: &mut Parser<'_>) -> Result<(), Fault>
    requires { R.can_read goals.now }
    ensures { RunsAnywhere (R.reads goals.now) form.block_or_mark p.old p.new result }
{
    if p.at(ASYNC_KW) && goals.is_whole() {
        async_block(goals, p)
    } else if p.at(UNDERSCORE) && goals.is_whole() {
        underscore_expr(goals, p)
    } else {
        block_like(goals, p)
    }
}

/// An expression without an operator outside brackets.
#[tactic(auto, unfolding(crate::specs::Expressions::atom))]
fn atom<R: Reader>(goals: &R, p: &mut Parser<'_>, place: ExprPlace) -> Result<(), Fault>
    requires { R.can_read goals.now }
    ensures { RunsAnywhere (R.reads goals.now) (form.atom place) p.old p.new result }
{
    if p.at_any(PathFirst) {
        path_expr(goals, p, place)
    } else if p.at_any(Literals) {
        literal(goals, p)
    } else if p.at(L_PAREN) {
        expr_in_parentheses(goals, p)
    } else if p.at(L_BRACK) {
        array_expr(goals, p)
    } else if p.at(CONTINUE_KW) {
        continue_expr(goals, p)
    } else {
        block_or_mark(goals, p)
    }
}

/// ARG_LIST: expressions in parentheses, with commas between them.
#[tactic(auto, using(ssr_syntax_forms::proofs::Shared::run_comma_list_by), unfolding(crate::specs::Expressions::arg_list))]
fn arg_list<R: Reader>(goals: &R, p: &mut Parser<'_>) -> Result<(), Fault>
    requires { R.can_read goals.now }
    ensures { Runs (R.reads goals.now) form.arg_list p.old p.new result }
{
    let m = p.start();
    p.expect(L_PAREN)?;
    p.comma_list(
        ExprFirst(goals.is_whole()),
        |p| goals.read(p, Goal::Expr(ExprPlace::Anywhere)),
    )?;
    p.expect(R_PAREN)?;
    p.complete(&m, ARG_LIST)
}

/// CALL_EXPR: an ARG_LIST behind what is called, which is all since the mark.
#[tactic(auto, unfolding(crate::specs::Expressions::call_expr))]
fn call_expr<R: Reader>(goals: &R, p: &mut Parser<'_>, m: &Mark<'_>) -> Result<(), Fault>
    requires { R.can_read goals.now }
    ensures { RunsFrom (R.reads goals.now) form.call_expr m.now p.old p.new result }
{
    arg_list(goals, p)?;
    p.complete(m, CALL_EXPR)
}

/// INDEX_EXPR: an expression in brackets behind another.
#[tactic(auto, unfolding(crate::specs::Expressions::index_expr))]
fn index_expr<R: Reader>(goals: &R, p: &mut Parser<'_>, m: &Mark<'_>) -> Result<(), Fault>
    requires { R.can_read goals.now }
    ensures { RunsFrom (R.reads goals.now) form.index_expr m.now p.old p.new result }
{
    p.expect(L_BRACK)?;
    goals.read(p, Goal::Expr(ExprPlace::Anywhere))?;
    p.expect(R_BRACK)?;
    p.complete(m, INDEX_EXPR)
}

/// TRY_EXPR: `?` behind an expression.
#[tactic(auto, unfolding(crate::specs::Expressions::try_expr))]
fn try_expr<R: Reader>(goals: &R, p: &mut Parser<'_>, m: &Mark<'_>) -> Result<(), Fault>
    requires { R.can_read goals.now }
    ensures { RunsFrom (R.reads goals.now) form.try_expr m.now p.old p.new result }
{
    p.expect(QUESTION)?;
    p.complete(m, TRY_EXPR)
}

/// FIELD_EXPR: no ARG_LIST behind a field's name.
#[tactic(auto, unfolding(crate::specs::Expressions::field_expr))]
fn field_expr<R: Reader>(goals: &R, p: &mut Parser<'_>, m: &Mark<'_>) -> Result<(), Fault>
    requires { R.can_read goals.now }
    ensures { RunsFrom (R.reads goals.now) form.field_expr m.now p.old p.new result }
{
    p.refuse_at(L_PAREN)?;
    p.complete(m, FIELD_EXPR)
}

/// METHOD_CALL_EXPR: an ARG_LIST behind a method's name.
#[tactic(auto, unfolding(crate::specs::Expressions::method_call_expr))]
fn method_call_expr<R: Reader>(goals: &R, p: &mut Parser<'_>, m: &Mark<'_>) -> Result<(), Fault>
    requires { R.can_read goals.now }
    ensures { RunsFrom (R.reads goals.now) form.method_call_expr m.now p.old p.new result }
{
    arg_list(goals, p)?;
    p.complete(m, METHOD_CALL_EXPR)
}

/// METHOD_CALL_EXPR: a GENERIC_ARG_LIST and an ARG_LIST behind a method's name.
#[tactic(auto, unfolding(crate::specs::Expressions::generic_method_call_expr))]
fn generic_method_call_expr<R: Reader>(
    goals: &R,
    p: &mut Parser<'_>,
    m: &Mark<'_>,
) -> Result<(), Fault>
    requires { R.can_read goals.now }
    ensures { RunsFrom (R.reads goals.now) form.generic_method_call_expr m.now p.old p.new result }
{
    goals.read(p, Goal::GenericArgs)?;
    method_call_expr(goals, p, m)
}

/// METHOD_CALL_EXPR with a GENERIC_ARG_LIST, which begins with `::`, or FIELD_EXPR.
#[tactic(auto, using(ssr_syntax_forms::proofs::Shared::run_decide), unfolding(crate::specs::Expressions::generic_method_call_or_field))]
fn generic_method_call_or_field<R: Reader>(
    goals: &R,
    p: &mut Parser<'_>,
    m: &Mark<'_>,
) -> Result<(), Fault>
    requires { R.can_read goals.now }
    ensures { RunsFrom (R.reads goals.now) form.generic_method_call_or_field m.now p.old p.new result }
{
    if p.at_two(COLON2, OpenAngle) {
        generic_method_call_expr(goals, p, m)
    } else {
        field_expr(goals, p, m)
    }
}

/// FIELD_EXPR or METHOD_CALL_EXPR by a name, behind `.`.
#[tactic(auto, unfolding(crate::specs::Expressions::named_member))]
fn named_member<R: Reader>(goals: &R, p: &mut Parser<'_>, m: &Mark<'_>) -> Result<(), Fault>
    requires { R.can_read goals.now }
    ensures { RunsFrom (R.reads goals.now) form.named_member m.now p.old p.new result }
{
    name_ref(goals, p)?;
    if p.at(L_PAREN) {
        method_call_expr(goals, p, m)
    } else {
        generic_method_call_or_field(goals, p, m)
    }
}

/// FIELD_EXPR by a number, behind `.`.
#[tactic(auto, unfolding(crate::specs::Expressions::numbered_member))]
fn numbered_member<R: Reader>(goals: &R, p: &mut Parser<'_>, m: &Mark<'_>) -> Result<(), Fault>
    requires { R.can_read goals.now }
    ensures { RunsFrom (R.reads goals.now) form.numbered_member m.now p.old p.new result }
{
    number_ref(goals, p)?;
    p.complete(m, FIELD_EXPR)
}

/// FIELD_EXPR or METHOD_CALL_EXPR, behind `.`: a NAME_REF, and of a method its ARG_LIST.
#[tactic(auto, unfolding(crate::specs::Expressions::field_or_method))]
fn field_or_method<R: Reader>(goals: &R, p: &mut Parser<'_>, m: &Mark<'_>) -> Result<(), Fault>
    requires { R.can_read goals.now }
    ensures { RunsFrom (R.reads goals.now) form.field_or_method m.now p.old p.new result }
{
    if p.at(INT_NUMBER) {
        numbered_member(goals, p, m)
    } else {
        named_member(goals, p, m)
    }
}

/// AWAIT_EXPR: `await`, behind `.`.
#[tactic(auto, unfolding(crate::specs::Expressions::await_expr))]
fn await_expr<R: Reader>(goals: &R, p: &mut Parser<'_>, m: &Mark<'_>) -> Result<(), Fault>
    requires { R.can_read goals.now }
    ensures { RunsFrom (R.reads goals.now) form.await_expr m.now p.old p.new result }
{
    p.expect(AWAIT_KW)?;
    p.complete(m, AWAIT_EXPR)
}

/// FIELD_EXPR, METHOD_CALL_EXPR or AWAIT_EXPR: `.` and what follows it.
#[tactic(auto, using(ssr_syntax_forms::proofs::Shared::run_also), unfolding(crate::specs::Expressions::member))]
fn member<R: Reader>(goals: &R, p: &mut Parser<'_>, m: &Mark<'_>) -> Result<(), Fault>
    requires { R.can_read goals.now }
    ensures { RunsFrom (R.reads goals.now) form.member m.now p.old p.new result }
{
    p.expect(DOT)?;
    if p.at(AWAIT_KW) && goals.is_whole() {
        await_expr(goals, p, m)
    } else {
        field_or_method(goals, p, m)
    }
}

/// What goes on with the expression that is all since the mark.
#[tactic(auto, unfolding(crate::specs::Expressions::postfix))]
fn postfix<R: Reader>(goals: &R, p: &mut Parser<'_>, m: &Mark<'_>) -> Result<(), Fault>
    requires { R.can_read goals.now }
    ensures { RunsFrom (R.reads goals.now) form.postfix m.now p.old p.new result }
{
    if p.at(L_PAREN) {
        call_expr(goals, p, m)
    } else if p.at(L_BRACK) {
        index_expr(goals, p, m)
    } else if p.at(QUESTION) {
        try_expr(goals, p, m)
    } else {
        member(goals, p, m)
    }
}

/// Any number of them.
#[tactic(auto, unfolding(crate::specs::Expressions::postfixes))]
pub fn postfixes<R: Reader>(goals: &R, p: &mut Parser<'_>, m: &Mark<'_>) -> Result<(), Fault>
    requires { R.can_read goals.now }
    ensures { RunsFrom (R.reads goals.now) form.postfixes m.now p.old p.new result }
{
    p.repeated(PostfixFirst, |p| postfix(goals, p, m))
}

/// What stands for itself, and all that goes on with it.
#[tactic(auto, unfolding(crate::specs::Expressions::postfix_expr))]
fn postfix_expr<R: Reader>(
    goals: &R,
    p: &mut Parser<'_>,
    m: &Mark<'_>,
    place: ExprPlace,
) -> Result<(), Fault>
    requires { R.can_read goals.now }
    ensures { RunsFrom (R.reads goals.now) (form.postfix_expr place) m.now p.old p.new result }
{
    atom(goals, p, place)?;
    postfixes(goals, p, m)
}

/// RAW_KW: the identifier `raw`.
#[tactic(auto, unfolding(crate::specs::Expressions::raw_word))]
fn raw_word<R: Reader>(goals: &R, p: &mut Parser<'_>) -> Result<(), Fault>
    requires { R.can_read goals.now }
    ensures { Runs (R.reads goals.now) form.raw_word p.old p.new result }
{
    let m = p.start();
    p.expect(IDENT)?;
    p.complete(&m, RAW_KW)
}

/// RAW_KW, and `const` or `mut`.
#[tactic(auto, unfolding(crate::specs::Expressions::raw_words))]
fn raw_words<R: Reader>(goals: &R, p: &mut Parser<'_>, m: &Mark<'_>) -> Result<(), Fault>
    requires { R.can_read goals.now }
    ensures { RunsFrom (R.reads goals.now) form.raw_words m.now p.old p.new result }
{
    raw_word(goals, p)?;
    p.expect_any(PointerWords)
}

/// The words behind the `&` of REF_EXPR: perhaps `mut`, or, in all of Rust, those of a raw reference.
#[tactic(auto, using(ssr_syntax_forms::proofs::Shared::run_also_decide), unfolding(crate::specs::Expressions::ref_words))]
fn ref_words<R: Reader>(goals: &R, p: &mut Parser<'_>, m: &Mark<'_>) -> Result<(), Fault>
    requires { R.can_read goals.now }
    ensures { RunsFrom (R.reads goals.now) form.ref_words m.now p.old p.new result }
{
    if goals.is_whole() && p.at_two(IDENT, PointerWords) {
        raw_words(goals, p, m)
    } else {
        p.eat(MUT_KW)
    }
}

/// REF_EXPR: `&`, also the first of `&&`, perhaps `mut`, and an operand.
#[tactic(auto, unfolding(crate::specs::Expressions::ref_expr))]
fn ref_expr<R: Reader>(goals: &R, p: &mut Parser<'_>, place: ExprPlace) -> Result<(), Fault>
    requires { R.can_read goals.now }
    ensures { Runs (R.reads goals.now) (form.ref_expr place) p.old p.new result }
{
    let m = p.start();
    p.expect_part(Ampersands)?;
    ref_words(goals, p, &m)?;
    goals.read(p, Goal::Unary(place))?;
    p.complete(&m, REF_EXPR)
}

/// PREFIX_EXPR: an operator and its operand.
#[tactic(auto, unfolding(crate::specs::Expressions::prefix_expr))]
fn prefix_expr<R: Reader>(goals: &R, p: &mut Parser<'_>, place: ExprPlace) -> Result<(), Fault>
    requires { R.can_read goals.now }
    ensures { Runs (R.reads goals.now) (form.prefix_expr place) p.old p.new result }
{
    let m = p.start();
    p.expect_any(PrefixOperators)?;
    goals.read(p, Goal::Unary(place))?;
    p.complete(&m, PREFIX_EXPR)
}

/// ATTR_EXPR: ATTRs and an operand.
#[tactic(auto, unfolding(crate::specs::Expressions::attr_expr))]
fn attr_expr<R: Reader>(goals: &R, p: &mut Parser<'_>, place: ExprPlace) -> Result<(), Fault>
    requires { R.can_read goals.now }
    ensures { Runs (R.reads goals.now) (form.attr_expr place) p.old p.new result }
{
    let m = p.start();
    some_attrs(goals, p)?;
    p.refuse_at(POUND)?;
    goals.read(p, Goal::Unary(place))?;
    p.complete(&m, ATTR_EXPR)
}

/// RETURN_EXPR, BREAK_EXPR or CLOSURE_EXPR as an operand.
#[tactic(auto, unfolding(crate::specs::Expressions::leaving_operand))]
fn leaving_operand<R: Reader>(goals: &R, p: &mut Parser<'_>) -> Result<(), Fault>
    requires { R.can_read goals.now }
    ensures { RunsAnywhere (R.reads goals.now) form.leaving_operand p.old p.new result }
{
    leaving_expr(goals, p)?;
    p.refuse_at(OperatorFirst)
}

/// CLOSURE_EXPR with `async` as an operand.
#[tactic(auto, unfolding(crate::specs::Expressions::async_operand))]
fn async_operand<R: Reader>(goals: &R, p: &mut Parser<'_>) -> Result<(), Fault>
    requires { R.can_read goals.now }
    ensures { RunsAnywhere (R.reads goals.now) form.async_operand p.old p.new result }
{
    async_closure(goals, p)?;
    p.refuse_at(OperatorFirst)
}

/// An operand that leaves, or what stands for itself, and all that goes on with it.
#[tactic(auto, using(ssr_syntax_forms::proofs::Shared::run_also, ssr_syntax_forms::proofs::Shared::run_also_decide), unfolding(crate::specs::Expressions::leaving_or_postfix))]
fn leaving_or_postfix<R: Reader>(
    goals: &R,
    p: &mut Parser<'_>,
    m: &Mark<'_>,
    place: ExprPlace,
) -> Result<(), Fault>
    requires { R.can_read goals.now }
    ensures { RunsFrom (R.reads goals.now) (form.leaving_or_postfix place) m.now p.old p.new result }
{
    match place {
        ExprPlace::Anywhere => {
            if p.at_any(LeavingFirst) && goals.is_whole() {
                leaving_operand(goals, p)
            } else if goals.is_whole() && at_async_closure(p) {
                async_operand(goals, p)
            } else {
                postfix_expr(goals, p, m, ExprPlace::Anywhere)
            }
        }
        ExprPlace::BeforeBlock => postfix_expr(goals, p, m, ExprPlace::BeforeBlock),
    }
}

/// ATTR_EXPR, or what stands for itself, and all that goes on with it.
#[tactic(auto, using(ssr_syntax_forms::proofs::Shared::run_also), unfolding(crate::specs::Expressions::attributed_or_postfix))]
fn attributed_or_postfix<R: Reader>(
    goals: &R,
    p: &mut Parser<'_>,
    m: &Mark<'_>,
    place: ExprPlace,
) -> Result<(), Fault>
    requires { R.can_read goals.now }
    ensures { RunsFrom (R.reads goals.now) (form.attributed_or_postfix place) m.now p.old p.new result }
{
    if p.at(POUND) && goals.is_whole() {
        attr_expr(goals, p, place)
    } else {
        leaving_or_postfix(goals, p, m, place)
    }
}

/// An expression without a cast or an operator between operands, outside brackets.
#[tactic(auto, unfolding(crate::specs::Expressions::unary))]
pub fn unary<R: Reader>(
    goals: &R,
    p: &mut Parser<'_>,
    m: &Mark<'_>,
    place: ExprPlace,
) -> Result<(), Fault>
    requires { R.can_read goals.now }
    ensures { RunsFrom (R.reads goals.now) (form.unary place) m.now p.old p.new result }
{
    if p.at_any(Ampersands) {
        ref_expr(goals, p, place)
    } else if p.at_any(PrefixOperators) {
        prefix_expr(goals, p, place)
    } else {
        attributed_or_postfix(goals, p, m, place)
    }
}

/// CAST_EXPR: `as` and a type behind what is cast, which is all since the mark.
#[tactic(auto, unfolding(crate::specs::Expressions::cast_expr))]
fn cast_expr<R: Reader>(goals: &R, p: &mut Parser<'_>, m: &Mark<'_>) -> Result<(), Fault>
    requires { R.can_read goals.now }
    ensures { RunsFrom (R.reads goals.now) form.cast_expr m.now p.old p.new result }
{
    p.expect(AS_KW)?;
    goals.read(p, Goal::Ty)?;
    p.complete(m, CAST_EXPR)
}

/// Any number of casts.
#[tactic(auto, unfolding(crate::specs::Expressions::casts))]
fn casts<R: Reader>(goals: &R, p: &mut Parser<'_>, m: &Mark<'_>) -> Result<(), Fault>
    requires { R.can_read goals.now }
    ensures { RunsFrom (R.reads goals.now) form.casts m.now p.old p.new result }
{
    p.repeated(AS_KW, |p| cast_expr(goals, p, m))
}

/// BIN_EXPR: an operator of this rank and its right operand. All since the mark is the left operand.
#[tactic(auto, unfolding(crate::specs::Expressions::operation))]
pub(crate) fn operation<R: Reader>(
    goals: &R,
    p: &mut Parser<'_>,
    m: &Mark<'_>,
    place: ExprPlace,
    rank: Rank,
) -> Result<(), Fault>
    requires { R.can_read goals.now }
    ensures { RunsFrom (R.reads goals.now) (form.operation place rank) m.now p.old p.new result }
{
    p.expect_any(Operators(rank))?;
    goals.read(p, Goal::Operand(place, rank))?;
    p.complete(m, BIN_EXPR)
}

/// Any number of operators of this rank, each with its right operand.
#[tactic(auto, unfolding(crate::specs::Expressions::operations))]
pub(crate) fn operations<R: Reader>(
    goals: &R,
    p: &mut Parser<'_>,
    m: &Mark<'_>,
    place: ExprPlace,
    rank: Rank,
) -> Result<(), Fault>
    requires { R.can_read goals.now }
    ensures { RunsFrom (R.reads goals.now) (form.operations place rank) m.now p.old p.new result }
{
    p.repeated(Operators(rank), |p| operation(goals, p, m, place, rank))
}

/// An expression whose operators between operands, outside brackets, are of so many ranks, the tightest.
#[tactic(auto, unfolding(crate::specs::Expressions::operand))]
pub fn operand<R: Reader>(
    goals: &R,
    p: &mut Parser<'_>,
    m: &Mark<'_>,
    place: ExprPlace,
    rank: Rank,
) -> Result<(), Fault>
    requires { R.can_read goals.now }
    ensures { RunsFrom (R.reads goals.now) (form.operand place rank) m.now p.old p.new result }
{
    unary(goals, p, m, place)?;
    climb(goals, p, m, place, rank)
}

/// The right operand of a range.
#[tactic(auto, using(ssr_syntax_forms::proofs::Shared::run_look_by), unfolding(crate::specs::Expressions::range_end))]
fn range_end<R: Reader>(goals: &R, p: &mut Parser<'_>, place: ExprPlace) -> Result<(), Fault>
    requires { R.can_read goals.now }
    ensures { RunsAnywhere (R.reads goals.now) (form.range_end place) p.old p.new result }
{
    p.expect_at(EndsFirst(place, goals.is_whole()))?;
    goals.read(p, Goal::Operand(place, RANKS))
}

/// RANGE_EXPR with `..`, behind its left operand, which is all since the mark, if there is one.
#[tactic(auto, using(ssr_syntax_forms::proofs::Shared::run_choose_by), unfolding(crate::specs::Expressions::to_range))]
fn to_range<R: Reader>(
    goals: &R,
    p: &mut Parser<'_>,
    m: &Mark<'_>,
    place: ExprPlace,
) -> Result<(), Fault>
    requires { R.can_read goals.now }
    ensures { RunsFrom (R.reads goals.now) (form.to_range place) m.now p.old p.new result }
{
    p.expect(DOT2)?;
    if p.at_any(EndsFirst(place, goals.is_whole())) {
        range_end(goals, p, place)?;
    }
    p.complete(m, RANGE_EXPR)
}

/// RANGE_EXPR with `..=`, behind its left operand, which is all since the mark, if there is one.
#[tactic(auto, unfolding(crate::specs::Expressions::to_inclusive_range))]
fn to_inclusive_range<R: Reader>(
    goals: &R,
    p: &mut Parser<'_>,
    m: &Mark<'_>,
    place: ExprPlace,
) -> Result<(), Fault>
    requires { R.can_read goals.now }
    ensures { RunsFrom (R.reads goals.now) (form.to_inclusive_range place) m.now p.old p.new result }
{
    p.expect(DOT2EQ)?;
    range_end(goals, p, place)?;
    p.complete(m, RANGE_EXPR)
}

/// RANGE_EXPR behind its left operand, if there is one.
#[tactic(auto, unfolding(crate::specs::Expressions::range))]
fn range<R: Reader>(
    goals: &R,
    p: &mut Parser<'_>,
    m: &Mark<'_>,
    place: ExprPlace,
) -> Result<(), Fault>
    requires { R.can_read goals.now }
    ensures { RunsFrom (R.reads goals.now) (form.range place) m.now p.old p.new result }
{
    if p.at(DOT2) {
        to_range(goals, p, m, place)
    } else {
        to_inclusive_range(goals, p, m, place)
    }
}

/// BIN_EXPR: the operator of an assignment and its right operand. All since the mark is the left operand.
#[tactic(auto, unfolding(crate::specs::Expressions::assignment))]
fn assignment<R: Reader>(
    goals: &R,
    p: &mut Parser<'_>,
    m: &Mark<'_>,
    place: ExprPlace,
) -> Result<(), Fault>
    requires { R.can_read goals.now }
    ensures { RunsFrom (R.reads goals.now) (form.assignment place) m.now p.old p.new result }
{
    p.expect_any(Assignments)?;
    goals.read(p, Goal::Expr(place))?;
    p.complete(m, BIN_EXPR)
}

/// What goes on behind the operand in front, which is all since the mark: a range, and an assignment.
#[tactic(auto, unfolding(crate::specs::Expressions::range_or_assignment))]
pub fn range_or_assignment<R: Reader>(
    goals: &R,
    p: &mut Parser<'_>,
    m: &Mark<'_>,
    place: ExprPlace,
) -> Result<(), Fault>
    requires { R.can_read goals.now }
    ensures { RunsFrom (R.reads goals.now) (form.range_or_assignment place) m.now p.old p.new result }
{
    if p.at_any(Ranges) {
        range(goals, p, m, place)?;
    }
    if p.at_any(Assignments) {
        assignment(goals, p, m, place)
    } else {
        Ok(())
    }
}

/// RANGE_EXPR without a left operand, and what is assigned to it.
#[tactic(auto, unfolding(crate::specs::Expressions::leading_range))]
pub(crate) fn leading_range<R: Reader>(
    goals: &R,
    p: &mut Parser<'_>,
    m: &Mark<'_>,
    place: ExprPlace,
) -> Result<(), Fault>
    requires { R.can_read goals.now }
    ensures { RunsFrom (R.reads goals.now) (form.leading_range place) m.now p.old p.new result }
{
    range(goals, p, m, place)?;
    if p.at_any(Assignments) {
        assignment(goals, p, m, place)
    } else {
        Ok(())
    }
}

/// An expression that is no `return`, `break` or closure.
#[tactic(auto, unfolding(crate::specs::Expressions::ranked))]
fn ranked<R: Reader>(
    goals: &R,
    p: &mut Parser<'_>,
    m: &Mark<'_>,
    place: ExprPlace,
) -> Result<(), Fault>
    requires { R.can_read goals.now }
    ensures { RunsFrom (R.reads goals.now) (form.ranked place) m.now p.old p.new result }
{
    if p.at_any(Ranges) {
        leading_range(goals, p, m, place)
    } else {
        operand(goals, p, m, place, RANKS)?;
        range_or_assignment(goals, p, m, place)
    }
}

/// RETURN_EXPR, BREAK_EXPR or CLOSURE_EXPR, or an expression that is none of them.
#[tactic(auto, unfolding(crate::specs::Expressions::leaving_or_ranked))]
fn leaving_or_ranked<R: Reader>(goals: &R, p: &mut Parser<'_>, m: &Mark<'_>) -> Result<(), Fault>
    requires { R.can_read goals.now }
    ensures { RunsFrom (R.reads goals.now) form.leaving_or_ranked m.now p.old p.new result }
{
    if p.at_any(LeavingFirst) {
        leaving_expr(goals, p)
    } else {
        ranked(goals, p, m, ExprPlace::Anywhere)
    }
}

/// Any expression as it stands there.
#[tactic(auto, unfolding(crate::specs::Expressions::expr))]
pub fn expr<R: Reader>(goals: &R, p: &mut Parser<'_>, place: ExprPlace) -> Result<(), Fault>
    requires { R.can_read goals.now }
    ensures { Runs (R.reads goals.now) (form.expr place) p.old p.new result }
{
    let m = p.start();
    match place {
        ExprPlace::Anywhere => {
            if goals.is_whole() {
                ranked(goals, p, &m, ExprPlace::Anywhere)
            } else {
                leaving_or_ranked(goals, p, &m)
            }
        }
        ExprPlace::BeforeBlock => ranked(goals, p, &m, ExprPlace::BeforeBlock),
    }
}

/// What goes on behind an operand without casts and operators: casts, and operators of so many ranks, the tightest.
#[tactic(auto, using(crate::proofs::Ranks::turn, crate::proofs::Ranks::stop_low, crate::proofs::Ranks::stop_high, crate::proofs::Ranks::stop_end, crate::proofs::Ranks::form_climbs))]
pub fn climb<R: Reader>(
    goals: &R,
    p: &mut Parser<'_>,
    m: &Mark<'_>,
    place: ExprPlace,
    limit: Rank,
) -> Result<(), Fault>
    requires { R.can_read goals.now }
    ensures { RunsFrom (R.reads goals.now) (form.climb place limit) m.now p.old p.new result }
{
    casts(goals, p, m)?;
    let mut rank = 0;
    'ranks: while rank < limit {
        let next = next_rank(p);
        if next < rank || limit <= next {
            return Ok(());
        }
        operations(goals, p, m, place, next)?;
        rank = next + 1;
    }
    Ok(())
}
