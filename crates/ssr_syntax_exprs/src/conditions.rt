//! The functions that read conditions.
ghost use Rattle.ssr_syntax_exprs.specs.Conditions as form;
ghost use Rattle.ssr_syntax_forms.specs.Runs.{Runs, RunsFrom};

use crate::atoms::{LeavingFirst, OperandFirst, leaving_expr};
use crate::expressions::{
    AND_RANK, OR_RANK, leading_range, operand, operation, operations, range_or_assignment,
};
use ssr_syntax_forms::{Fault, Mark, Parser};
use ssr_syntax_kinds::SyntaxKind::*;
use ssr_syntax_types::goals::{ExprPlace, Goal, PatPlace};
use ssr_syntax_types::pattern_sets::Ranges;
use ssr_syntax_types::reader::Reader;

/// LET_EXPR: `let`, a pattern, `=` and an operand that binds tighter than `&&`.
#[tactic(auto, unfolding(crate::specs::Conditions::let_expr))]
fn let_expr<R: Reader>(goals: &R, p: &mut Parser<'_>, place: ExprPlace) -> Result<(), Fault>
    requires { R.can_read goals.now }
    ensures { Runs (R.reads goals.now) (form.let_expr place) p.old p.new result }
{
    let m = p.start();
    p.expect(LET_KW)?;
    goals.read(p, Goal::Pat(PatPlace::TopLevel))?;
    p.expect(EQ)?;
    goals.read(p, Goal::Operand(place, AND_RANK))?;
    p.complete(&m, LET_EXPR)
}

/// BIN_EXPR: LET_EXPR behind `&&`.
#[tactic(auto, unfolding(crate::specs::Conditions::let_operand))]
fn let_operand<R: Reader>(
    goals: &R,
    p: &mut Parser<'_>,
    m: &Mark<'_>,
    place: ExprPlace,
) -> Result<(), Fault>
    requires { R.can_read goals.now }
    ensures { RunsFrom (R.reads goals.now) (form.let_operand place) m.now p.old p.new result }
{
    let_expr(goals, p, place)?;
    p.complete(m, BIN_EXPR)
}

/// BIN_EXPR: an operand that binds tighter than `&&`, behind that.
#[tactic(auto, unfolding(crate::specs::Conditions::tighter_operand))]
fn tighter_operand<R: Reader>(
    goals: &R,
    p: &mut Parser<'_>,
    m: &Mark<'_>,
    place: ExprPlace,
) -> Result<(), Fault>
    requires { R.can_read goals.now }
    ensures { RunsFrom (R.reads goals.now) (form.tighter_operand place) m.now p.old p.new result }
{
    goals.read(p, Goal::Operand(place, AND_RANK))?;
    p.complete(m, BIN_EXPR)
}

/// BIN_EXPR: either of them.
#[tactic(auto, unfolding(crate::specs::Conditions::let_or_operand))]
fn let_or_operand<R: Reader>(
    goals: &R,
    p: &mut Parser<'_>,
    m: &Mark<'_>,
    place: ExprPlace,
) -> Result<(), Fault>
    requires { R.can_read goals.now }
    ensures { RunsFrom (R.reads goals.now) (form.let_or_operand place) m.now p.old p.new result }
{
    if p.at(LET_KW) {
        let_operand(goals, p, m, place)
    } else {
        tighter_operand(goals, p, m, place)
    }
}

/// BIN_EXPR: `&&` and LET_EXPR or an operand. All since the mark is the left operand.
#[tactic(auto, unfolding(crate::specs::Conditions::and_let))]
fn and_let<R: Reader>(
    goals: &R,
    p: &mut Parser<'_>,
    m: &Mark<'_>,
    place: ExprPlace,
) -> Result<(), Fault>
    requires { R.can_read goals.now }
    ensures { RunsFrom (R.reads goals.now) (form.and_let place) m.now p.old p.new result }
{
    p.expect(AMP2)?;
    let_or_operand(goals, p, m, place)
}

/// Any number of them.
#[tactic(auto, unfolding(crate::specs::Conditions::lets))]
fn lets<R: Reader>(
    goals: &R,
    p: &mut Parser<'_>,
    m: &Mark<'_>,
    place: ExprPlace,
) -> Result<(), Fault>
    requires { R.can_read goals.now }
    ensures { RunsFrom (R.reads goals.now) (form.lets place) m.now p.old p.new result }
{
    p.repeated(AMP2, |p| and_let(goals, p, m, place))
}

/// LET_EXPR, and what `&&` joins to it.
#[tactic(auto, unfolding(crate::specs::Conditions::let_chain))]
fn let_chain<R: Reader>(
    goals: &R,
    p: &mut Parser<'_>,
    m: &Mark<'_>,
    place: ExprPlace,
) -> Result<(), Fault>
    requires { R.can_read goals.now }
    ensures { RunsFrom (R.reads goals.now) (form.let_chain place) m.now p.old p.new result }
{
    let_expr(goals, p, place)?;
    lets(goals, p, m, place)
}

/// What goes on behind operands of `&&`, where there is no LET_EXPR.
#[tactic(auto, unfolding(crate::specs::Conditions::looser))]
fn looser<R: Reader>(
    goals: &R,
    p: &mut Parser<'_>,
    m: &Mark<'_>,
    place: ExprPlace,
) -> Result<(), Fault>
    requires { R.can_read goals.now }
    ensures { RunsFrom (R.reads goals.now) (form.looser place) m.now p.old p.new result }
{
    operations(goals, p, m, place, OR_RANK)?;
    range_or_assignment(goals, p, m, place)
}

/// BIN_EXPR: `&&` and LET_EXPR. All since the mark is the left operand.
#[tactic(auto, unfolding(crate::specs::Conditions::first_let))]
fn first_let<R: Reader>(
    goals: &R,
    p: &mut Parser<'_>,
    m: &Mark<'_>,
    place: ExprPlace,
) -> Result<(), Fault>
    requires { R.can_read goals.now }
    ensures { RunsFrom (R.reads goals.now) (form.first_let place) m.now p.old p.new result }
{
    p.expect(AMP2)?;
    let_operand(goals, p, m, place)
}

/// LET_EXPR behind operands of `&&`, and what `&&` joins to it.
#[tactic(auto, unfolding(crate::specs::Conditions::lets_behind))]
fn lets_behind<R: Reader>(
    goals: &R,
    p: &mut Parser<'_>,
    m: &Mark<'_>,
    place: ExprPlace,
) -> Result<(), Fault>
    requires { R.can_read goals.now }
    ensures { RunsFrom (R.reads goals.now) (form.lets_behind place) m.now p.old p.new result }
{
    first_let(goals, p, m, place)?;
    lets(goals, p, m, place)
}

/// LET_EXPR behind operands of `&&`, or what binds less tightly.
#[tactic(auto, using(ssr_syntax_forms::proofs::Shared::run_decide), unfolding(crate::specs::Conditions::conjunction_end))]
fn conjunction_end<R: Reader>(
    goals: &R,
    p: &mut Parser<'_>,
    m: &Mark<'_>,
    place: ExprPlace,
) -> Result<(), Fault>
    requires { R.can_read goals.now }
    ensures { RunsFrom (R.reads goals.now) (form.conjunction_end place) m.now p.old p.new result }
{
    if p.at_two(AMP2, LET_KW) {
        lets_behind(goals, p, m, place)
    } else {
        looser(goals, p, m, place)
    }
}

/// A condition that begins with an operand.
#[tactic(auto, using(ssr_syntax_forms::proofs::Shared::run_as_long_as_by), unfolding(crate::specs::Conditions::conjunction))]
fn conjunction<R: Reader>(
    goals: &R,
    p: &mut Parser<'_>,
    m: &Mark<'_>,
    place: ExprPlace,
) -> Result<(), Fault>
    requires { R.can_read goals.now }
    ensures { RunsFrom (R.reads goals.now) (form.conjunction place) m.now p.old p.new result }
{
    operand(goals, p, m, place, AND_RANK)?;
    p.repeated_two(
        AMP2,
        OperandFirst(goals.is_whole()),
        |p| operation(goals, p, m, place, AND_RANK),
    )?;
    conjunction_end(goals, p, m, place)
}

/// A condition that is no `return`, `break` or closure.
#[tactic(auto, unfolding(crate::specs::Conditions::condition_of))]
fn condition_of<R: Reader>(
    goals: &R,
    p: &mut Parser<'_>,
    m: &Mark<'_>,
    place: ExprPlace,
) -> Result<(), Fault>
    requires { R.can_read goals.now }
    ensures { RunsFrom (R.reads goals.now) (form.condition_of place) m.now p.old p.new result }
{
    if p.at(LET_KW) {
        let_chain(goals, p, m, place)
    } else if p.at_any(Ranges) {
        leading_range(goals, p, m, place)
    } else {
        conjunction(goals, p, m, place)
    }
}

/// RETURN_EXPR, BREAK_EXPR or CLOSURE_EXPR, or a condition that is none of them.
#[tactic(auto, unfolding(crate::specs::Conditions::leaving_or_condition))]
fn leaving_or_condition<R: Reader>(goals: &R, p: &mut Parser<'_>, m: &Mark<'_>) -> Result<(), Fault>
    requires { R.can_read goals.now }
    ensures { RunsFrom (R.reads goals.now) form.leaving_or_condition m.now p.old p.new result }
{
    if p.at_any(LeavingFirst) {
        leaving_expr(goals, p)
    } else {
        condition_of(goals, p, m, ExprPlace::Anywhere)
    }
}

/// The condition of `if` and `while`, which stands before a block, or that of an arm.
#[tactic(auto, unfolding(crate::specs::Conditions::condition))]
pub fn condition<R: Reader>(goals: &R, p: &mut Parser<'_>, place: ExprPlace) -> Result<(), Fault>
    requires { R.can_read goals.now }
    ensures { Runs (R.reads goals.now) (form.condition place) p.old p.new result }
{
    let m = p.start();
    match place {
        ExprPlace::Anywhere => {
            if goals.is_whole() {
                condition_of(goals, p, &m, ExprPlace::Anywhere)
            } else {
                leaving_or_condition(goals, p, &m)
            }
        }
        ExprPlace::BeforeBlock => condition_of(goals, p, &m, ExprPlace::BeforeBlock),
    }
}
