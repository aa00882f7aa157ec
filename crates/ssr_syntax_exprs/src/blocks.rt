//! The functions that read blocks, loops and choices.
ghost use Rattle.ssr_syntax_exprs.specs.Blocks as form;
ghost use Rattle.ssr_syntax_forms.specs.Runs.{Runs, RunsAnywhere, RunsFrom};

use ssr_syntax_forms::{Fault, Mark, Parser, TokenSet};
use ssr_syntax_kinds::SyntaxKind;
use ssr_syntax_kinds::SyntaxKind::*;
use ssr_syntax_types::goals::{ExprPlace, Goal, PatPlace};
use ssr_syntax_types::paths::lifetime;
use ssr_syntax_types::pattern_sets::PatFirst;
use ssr_syntax_types::reader::Reader;
use ssr_syntax_types::token_trees::inner_attrs;

/// What a block-like expression of the stated language begins with, but for `{`.
#[derive(Clone, Copy)]
struct StatedBlockWords;

impl TokenSet for StatedBlockWords {
    ghost kinds = { λ _. form.stated_block_words };

    #[inline(always)]
    #[tactic(auto, unfolding(crate::specs::Blocks::stated_block_words))]
    fn contains(self, kind: SyntaxKind) -> bool {
        matches!(
            kind,
            UNSAFE_KW | LIFETIME_IDENT | IF_KW | MATCH_KW | LOOP_KW | WHILE_KW | FOR_KW
        )
    }
}

/// What else a block-like expression of all of Rust begins with.
#[derive(Clone, Copy)]
struct WholeBlockWords;

impl TokenSet for WholeBlockWords {
    ghost kinds = { λ _. form.whole_block_words };

    #[inline(always)]
    fn contains(self, kind: SyntaxKind) -> bool {
        matches!(kind, CONST_KW)
    }
}

/// What a block-like expression begins with, but for `{`; with `true`, where all of Rust is read.
#[derive(Clone, Copy)]
pub(crate) struct BlockWords(pub(crate) bool);

impl TokenSet for BlockWords {
    ghost kinds = { λ s. form.block_words s.0 };

    #[inline(always)]
    #[tactic(auto, using(ssr_syntax_forms::proofs::Shared::mem_append, ssr_syntax_forms::proofs::Shared::mem_where_whole), unfolding(crate::specs::Blocks::block_words))]
    fn contains(self, kind: SyntaxKind) -> bool {
        StatedBlockWords.contains(kind) || self.0 && WholeBlockWords.contains(kind)
    }
}

/// What a block-like expression begins with; with `true`, where all of Rust is read.
#[derive(Clone, Copy)]
pub struct BlockFirst(pub bool);

impl TokenSet for BlockFirst {
    ghost kinds = { λ s. form.block_first s.0 };

    #[inline(always)]
    #[tactic(auto, unfolding(crate::specs::Blocks::block_first))]
    fn contains(self, kind: SyntaxKind) -> bool {
        matches!(kind, L_CURLY) || BlockWords(self.0).contains(kind)
    }
}

/// What an arm of `match` begins with.
#[derive(Clone, Copy)]
struct ArmFirst;

impl TokenSet for ArmFirst {
    ghost kinds = { λ _. form.arm_first };

    #[inline(always)]
    #[tactic(auto, unfolding(crate::specs::Blocks::arm_first))]
    fn contains(self, kind: SyntaxKind) -> bool {
        matches!(kind, POUND) || PatFirst.contains(kind)
    }
}

/// BLOCK_EXPR: a STMT_LIST.
#[tactic(auto, unfolding(crate::specs::Blocks::block_expr))]
pub fn block_expr<R: Reader>(goals: &R, p: &mut Parser<'_>) -> Result<(), Fault>
    requires { R.can_read goals.now }
    ensures { Runs (R.reads goals.now) form.block_expr p.old p.new result }
{
    let m = p.start();
    goals.read(p, Goal::StmtList)?;
    p.complete(&m, BLOCK_EXPR)
}

/// LABEL: a LIFETIME and `:`.
#[tactic(auto, unfolding(crate::specs::Blocks::label))]
fn label<R: Reader>(goals: &R, p: &mut Parser<'_>) -> Result<(), Fault>
    requires { R.can_read goals.now }
    ensures { Runs (R.reads goals.now) form.label p.old p.new result }
{
    let m = p.start();
    lifetime(goals, p)?;
    p.expect(COLON)?;
    p.complete(&m, LABEL)
}

/// BLOCK_EXPR: perhaps `unsafe`, and a STMT_LIST.
#[tactic(auto, unfolding(crate::specs::Blocks::unsafe_or_plain_block))]
fn unsafe_or_plain_block<R: Reader>(
    goals: &R,
    p: &mut Parser<'_>,
    m: &Mark<'_>,
) -> Result<(), Fault>
    requires { R.can_read goals.now }
    ensures { RunsFrom (R.reads goals.now) form.unsafe_or_plain_block m.now p.old p.new result }
{
    p.eat(UNSAFE_KW)?;
    goals.read(p, Goal::StmtList)?;
    p.complete(m, BLOCK_EXPR)
}

/// LOOP_EXPR: `loop` and a BLOCK_EXPR.
#[tactic(auto, unfolding(crate::specs::Blocks::loop_expr))]
fn loop_expr<R: Reader>(goals: &R, p: &mut Parser<'_>, m: &Mark<'_>) -> Result<(), Fault>
    requires { R.can_read goals.now }
    ensures { RunsFrom (R.reads goals.now) form.loop_expr m.now p.old p.new result }
{
    p.expect(LOOP_KW)?;
    block_expr(goals, p)?;
    p.complete(m, LOOP_EXPR)
}

/// WHILE_EXPR: `while`, a condition and a BLOCK_EXPR.
#[tactic(auto, unfolding(crate::specs::Blocks::while_expr))]
fn while_expr<R: Reader>(goals: &R, p: &mut Parser<'_>, m: &Mark<'_>) -> Result<(), Fault>
    requires { R.can_read goals.now }
    ensures { RunsFrom (R.reads goals.now) form.while_expr m.now p.old p.new result }
{
    p.expect(WHILE_KW)?;
    goals.read(p, Goal::Condition(ExprPlace::BeforeBlock))?;
    block_expr(goals, p)?;
    p.complete(m, WHILE_EXPR)
}

/// FOR_EXPR: `for`, a pattern, `in`, an expression and a BLOCK_EXPR.
#[tactic(auto, unfolding(crate::specs::Blocks::for_expr))]
fn for_expr<R: Reader>(goals: &R, p: &mut Parser<'_>, m: &Mark<'_>) -> Result<(), Fault>
    requires { R.can_read goals.now }
    ensures { RunsFrom (R.reads goals.now) form.for_expr m.now p.old p.new result }
{
    p.expect(FOR_KW)?;
    goals.read(p, Goal::Pat(PatPlace::TopLevel))?;
    p.expect(IN_KW)?;
    goals.read(p, Goal::Expr(ExprPlace::BeforeBlock))?;
    block_expr(goals, p)?;
    p.complete(m, FOR_EXPR)
}

/// A block or a loop behind its label.
#[tactic(auto, unfolding(crate::specs::Blocks::block_or_loop))]
fn block_or_loop<R: Reader>(goals: &R, p: &mut Parser<'_>, m: &Mark<'_>) -> Result<(), Fault>
    requires { R.can_read goals.now }
    ensures { RunsFrom (R.reads goals.now) form.block_or_loop m.now p.old p.new result }
{
    if p.at(LOOP_KW) {
        loop_expr(goals, p, m)
    } else if p.at(WHILE_KW) {
        while_expr(goals, p, m)
    } else if p.at(FOR_KW) {
        for_expr(goals, p, m)
    } else {
        unsafe_or_plain_block(goals, p, m)
    }
}

/// A block or a loop, perhaps with a LABEL in front.
#[tactic(auto, unfolding(crate::specs::Blocks::labelled))]
fn labelled<R: Reader>(goals: &R, p: &mut Parser<'_>) -> Result<(), Fault>
    requires { R.can_read goals.now }
    ensures { Runs (R.reads goals.now) form.labelled p.old p.new result }
{
    let m = p.start();
    if p.at(LIFETIME_IDENT) {
        label(goals, p)?;
    }
    block_or_loop(goals, p, &m)
}

/// What stands behind `else`.
#[tactic(auto, unfolding(crate::specs::Blocks::if_or_block))]
fn if_or_block<R: Reader>(goals: &R, p: &mut Parser<'_>) -> Result<(), Fault>
    requires { R.can_read goals.now }
    ensures { RunsAnywhere (R.reads goals.now) form.if_or_block p.old p.new result }
{
    if p.at(IF_KW) {
        goals.read(p, Goal::If)
    } else {
        block_expr(goals, p)
    }
}

/// `else` and an IF_EXPR or a BLOCK_EXPR.
#[tactic(auto, unfolding(crate::specs::Blocks::else_branch))]
fn else_branch<R: Reader>(goals: &R, p: &mut Parser<'_>, m: &Mark<'_>) -> Result<(), Fault>
    requires { R.can_read goals.now }
    ensures { RunsFrom (R.reads goals.now) form.else_branch m.now p.old p.new result }
{
    p.expect(ELSE_KW)?;
    if_or_block(goals, p)
}

/// IF_EXPR: `if`, a condition, a BLOCK_EXPR, and perhaps `else` and an IF_EXPR or a BLOCK_EXPR.
#[tactic(auto, using(ssr_syntax_forms::proofs::Shared::run_decide), unfolding(crate::specs::Blocks::if_expr))]
pub fn if_expr<R: Reader>(goals: &R, p: &mut Parser<'_>, m: &Mark<'_>) -> Result<(), Fault>
    requires { R.can_read goals.now }
    ensures { RunsFrom (R.reads goals.now) form.if_expr m.now p.old p.new result }
{
    p.expect(IF_KW)?;
    goals.read(p, Goal::Condition(ExprPlace::BeforeBlock))?;
    block_expr(goals, p)?;
    if p.at(ELSE_KW) {
        else_branch(goals, p, m)?;
    }
    p.complete(m, IF_EXPR)
}

/// MATCH_ARM_LIST: MATCH_ARMs in braces.
#[tactic(auto, unfolding(crate::specs::Blocks::match_arm_list))]
fn match_arm_list<R: Reader>(goals: &R, p: &mut Parser<'_>) -> Result<(), Fault>
    requires { R.can_read goals.now }
    ensures { Runs (R.reads goals.now) form.match_arm_list p.old p.new result }
{
    let m = p.start();
    p.expect(L_CURLY)?;
    inner_attrs(goals, p)?;
    p.repeated(ArmFirst, |p| goals.read(p, Goal::Arm))?;
    p.expect(R_CURLY)?;
    p.complete(&m, MATCH_ARM_LIST)
}

/// MATCH_EXPR: `match`, an expression and a MATCH_ARM_LIST.
#[tactic(auto, unfolding(crate::specs::Blocks::match_expr))]
fn match_expr<R: Reader>(goals: &R, p: &mut Parser<'_>) -> Result<(), Fault>
    requires { R.can_read goals.now }
    ensures { Runs (R.reads goals.now) form.match_expr p.old p.new result }
{
    let m = p.start();
    p.expect(MATCH_KW)?;
    goals.read(p, Goal::Expr(ExprPlace::BeforeBlock))?;
    match_arm_list(goals, p)?;
    p.complete(&m, MATCH_EXPR)
}

/// BLOCK_EXPR: `const` and a STMT_LIST.
#[tactic(auto, unfolding(crate::specs::Blocks::const_block))]
fn const_block<R: Reader>(goals: &R, p: &mut Parser<'_>) -> Result<(), Fault>
    requires { R.can_read goals.now }
    ensures { Runs (R.reads goals.now) form.const_block p.old p.new result }
{
    let m = p.start();
    p.expect(CONST_KW)?;
    goals.read(p, Goal::StmtList)?;
    p.complete(&m, BLOCK_EXPR)
}

/// An expression that ends with a block and needs no `;` as a statement.
#[tactic(auto, using(ssr_syntax_forms::proofs::Shared::run_also), unfolding(crate::specs::Blocks::block_like))]
pub fn block_like<R: Reader>(goals: &R, p: &mut Parser<'_>) -> Result<(), Fault>
    requires { R.can_read goals.now }
    ensures { RunsAnywhere (R.reads goals.now) form.block_like p.old p.new result }
{
    if p.at(CONST_KW) && goals.is_whole() {
        const_block(goals, p)
    } else {
        stated_block_like(goals, p)
    }
}

/// The same, as the stated language has it.
#[tactic(auto, unfolding(crate::specs::Blocks::stated_block_like))]
fn stated_block_like<R: Reader>(goals: &R, p: &mut Parser<'_>) -> Result<(), Fault>
    requires { R.can_read goals.now }
    ensures { RunsAnywhere (R.reads goals.now) form.stated_block_like p.old p.new result }
{
    if p.at(IF_KW) {
        let n = p.start();
        if_expr(goals, p, &n)
    } else if p.at(MATCH_KW) {
        match_expr(goals, p)
    } else {
        labelled(goals, p)
    }
}
