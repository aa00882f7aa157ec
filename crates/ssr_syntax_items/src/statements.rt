//! The functions that read statements and the arms of `match`.
ghost use Rattle.std.specs.Prelude.{◌≡◌};
ghost use Rattle.ssr_syntax_items.specs.Statements as form;
ghost use Rattle.ssr_syntax_forms.specs.Forms.{passes};
ghost use Rattle.ssr_syntax_forms.specs.Runs.{Runs, RunsAnywhere, RunsFrom};

use crate::items::{
    StmtItemFirst, at_attributed_item, at_stmt_item, at_whole_item, item, item_as_stmt,
};
use ssr_syntax_exprs::atoms::{ExprFirst, path_or_record};
use ssr_syntax_exprs::blocks::{BlockFirst, block_expr, block_like};
use ssr_syntax_exprs::expressions::{RANKS, climb, postfixes, range_or_assignment};
use ssr_syntax_forms::{END, Fault, Mark, Parser, TokenSet};
use ssr_syntax_kinds::SyntaxKind;
use ssr_syntax_kinds::SyntaxKind::*;
use ssr_syntax_types::goals::{ExprPlace, Goal, ItemPlace, PatPlace, PathPlace, StmtPlace};
use ssr_syntax_types::paths::{PathFirst, path, simple_path};
use ssr_syntax_types::reader::Reader;
use ssr_syntax_types::token_trees::{
    attrs, curly_tree, inner_attrs, paren_or_bracket_tree, some_attrs,
};

/// What a block-like expression or a path begins with; with `true`, where all of Rust is read.
#[derive(Clone, Copy)]
struct LeadingFirst(bool);

impl TokenSet for LeadingFirst {
    ghost kinds = { λ s. form.leading_first s.0 };

    #[inline(always)]
    #[tactic(auto, using(ssr_syntax_forms::proofs::Shared::mem_append), unfolding(crate::specs::Statements::leading_first))]
    fn contains(self, kind: SyntaxKind) -> bool {
        BlockFirst(self.0).contains(kind) || PathFirst.contains(kind)
    }
}

/// What goes on with a block-like expression begins with one of these.
#[derive(Clone, Copy)]
struct BlockGoesOn;

impl TokenSet for BlockGoesOn {
    ghost kinds = { λ _. form.block_goes_on };

    #[inline(always)]
    fn contains(self, kind: SyntaxKind) -> bool {
        matches!(kind, DOT | QUESTION)
    }
}

/// What stands behind an arm's body that is not block-like.
#[derive(Clone, Copy)]
struct ArmEnds;

impl TokenSet for ArmEnds {
    ghost kinds = { λ _. form.arm_ends };

    #[inline(always)]
    fn contains(self, kind: SyntaxKind) -> bool {
        matches!(kind, COMMA | R_CURLY)
    }
}

/// `#`, and what a block-like expression of all of Rust begins with.
#[derive(Clone, Copy)]
struct PoundOrBlock;

impl TokenSet for PoundOrBlock {
    ghost kinds = { λ _. form.pound_or_block };

    #[inline(always)]
    fn contains(self, kind: SyntaxKind) -> bool {
        matches!(kind, POUND) || BlockFirst(true).contains(kind)
    }
}

/// What else a statement of all of Rust begins with.
#[derive(Clone, Copy)]
struct WholeStmtWords;

impl TokenSet for WholeStmtWords {
    ghost kinds = { λ _. form.whole_stmt_words };

    #[inline(always)]
    fn contains(self, kind: SyntaxKind) -> bool {
        matches!(kind, SEMICOLON | EXTERN_KW)
    }
}

/// What an item among statements begins with, and what else a statement of all of Rust does.
#[derive(Clone, Copy)]
struct ItemStmtFirst(bool);

impl TokenSet for ItemStmtFirst {
    ghost kinds = { λ s. form.item_stmt_first s.0 };

    #[inline(always)]
    #[tactic(auto, using(ssr_syntax_forms::proofs::Shared::mem_append, ssr_syntax_forms::proofs::Shared::mem_where_whole), unfolding(crate::specs::Statements::item_stmt_first))]
    fn contains(self, kind: SyntaxKind) -> bool {
        StmtItemFirst.contains(kind) || self.0 && WholeStmtWords.contains(kind)
    }
}

/// What a statement begins with; with `true`, where all of Rust is read.
#[derive(Clone, Copy)]
struct StmtFirst(bool);

impl TokenSet for StmtFirst {
    ghost kinds = { λ s. form.stmt_first s.0 };

    #[inline(always)]
    #[tactic(auto, using(ssr_syntax_forms::proofs::Shared::mem_append), unfolding(crate::specs::Statements::stmt_first))]
    fn contains(self, kind: SyntaxKind) -> bool {
        matches!(kind, LET_KW)
            || ExprFirst(self.0).contains(kind)
            || ItemStmtFirst(self.0).contains(kind)
    }
}

/// EXPR_STMT: an expression and `;`.
#[tactic(auto, unfolding(crate::specs::Statements::expr_stmt))]
fn expr_stmt<R: Reader>(goals: &R, p: &mut Parser<'_>, m: &Mark<'_>) -> Result<(), Fault>
    requires { R.can_read goals.now }
    ensures { RunsFrom (R.reads goals.now) form.expr_stmt m.now p.old p.new result }
{
    p.expect(SEMICOLON)?;
    p.complete(m, EXPR_STMT)
}

/// EXPR_STMT: an expression, and perhaps `;`.
#[tactic(auto, unfolding(crate::specs::Statements::lone_expr_stmt))]
fn lone_expr_stmt<R: Reader>(goals: &R, p: &mut Parser<'_>, m: &Mark<'_>) -> Result<(), Fault>
    requires { R.can_read goals.now }
    ensures { RunsFrom (R.reads goals.now) form.lone_expr_stmt m.now p.old p.new result }
{
    p.eat(SEMICOLON)?;
    p.complete(m, EXPR_STMT)
}

/// What closes the list of statements.
fn list_end(place: StmtPlace) -> SyntaxKind
    ensures { result ≡ form.list_end place }
{
    match place {
        StmtPlace::MacroStmt => END,
        _ => R_CURLY,
    }
}

/// EXPR_STMT, or the last expression of its list.
#[tactic(auto, unfolding(crate::specs::Statements::stmt_or_tail))]
fn stmt_or_tail<R: Reader>(
    goals: &R,
    p: &mut Parser<'_>,
    m: &Mark<'_>,
    place: StmtPlace,
) -> Result<(), Fault>
    requires { R.can_read goals.now }
    ensures { RunsFrom (R.reads goals.now) (form.stmt_or_tail place) m.now p.old p.new result }
{
    if p.at(SEMICOLON) {
        expr_stmt(goals, p, m)
    } else {
        p.expect_at(list_end(place))
    }
}

/// The end of an expression that is not block-like.
#[tactic(auto, unfolding(crate::specs::Statements::ending))]
fn ending<R: Reader>(
    goals: &R,
    p: &mut Parser<'_>,
    m: &Mark<'_>,
    place: StmtPlace,
) -> Result<(), Fault>
    requires { R.can_read goals.now }
    ensures { RunsFrom (R.reads goals.now) (form.ending place) m.now p.old p.new result }
{
    match place {
        StmtPlace::BlockStmt => stmt_or_tail(goals, p, m, place),
        StmtPlace::LoneStmt => lone_expr_stmt(goals, p, m),
        StmtPlace::ArmBody => p.expect_at(ArmEnds),
        StmtPlace::MacroStmt => stmt_or_tail(goals, p, m, place),
    }
}

/// EXPR_STMT without `;`, or the last expression of its list.
#[tactic(auto, using(ssr_syntax_forms::proofs::Shared::run_decide), unfolding(crate::specs::Statements::bare_stmt_or_tail))]
fn bare_stmt_or_tail<R: Reader>(
    goals: &R,
    p: &mut Parser<'_>,
    m: &Mark<'_>,
    place: StmtPlace,
) -> Result<(), Fault>
    requires { R.can_read goals.now }
    ensures { RunsFrom (R.reads goals.now) (form.bare_stmt_or_tail place) m.now p.old p.new result }
{
    if p.at(list_end(place)) {
        Ok(())
    } else {
        p.complete(m, EXPR_STMT)
    }
}

/// EXPR_STMT, or the last expression of its list.
#[tactic(auto, using(ssr_syntax_forms::proofs::Shared::run_settle), unfolding(crate::specs::Statements::block_stmt_or_tail))]
fn block_stmt_or_tail<R: Reader>(
    goals: &R,
    p: &mut Parser<'_>,
    m: &Mark<'_>,
    place: StmtPlace,
) -> Result<(), Fault>
    requires { R.can_read goals.now }
    ensures { RunsFrom (R.reads goals.now) (form.block_stmt_or_tail place) m.now p.old p.new result }
{
    if p.at(SEMICOLON) {
        expr_stmt(goals, p, m)
    } else {
        bare_stmt_or_tail(goals, p, m, place)
    }
}

/// The end of a block-like expression.
#[tactic(auto, unfolding(crate::specs::Statements::block_end))]
fn block_end<R: Reader>(
    goals: &R,
    p: &mut Parser<'_>,
    m: &Mark<'_>,
    place: StmtPlace,
) -> Result<(), Fault>
    requires { R.can_read goals.now }
    ensures { RunsFrom (R.reads goals.now) (form.block_end place) m.now p.old p.new result }
{
    match place {
        StmtPlace::BlockStmt => block_stmt_or_tail(goals, p, m, place),
        StmtPlace::LoneStmt => lone_expr_stmt(goals, p, m),
        StmtPlace::ArmBody => Ok(()),
        StmtPlace::MacroStmt => block_stmt_or_tail(goals, p, m, place),
    }
}

/// What goes on with all since the mark as with any expression.
#[tactic(auto, unfolding(crate::specs::Statements::going_on))]
fn going_on<R: Reader>(goals: &R, p: &mut Parser<'_>, m: &Mark<'_>) -> Result<(), Fault>
    requires { R.can_read goals.now }
    ensures { RunsFrom (R.reads goals.now) form.going_on m.now p.old p.new result }
{
    postfixes(goals, p, m)?;
    climb(goals, p, m, ExprPlace::Anywhere, RANKS)?;
    range_or_assignment(goals, p, m, ExprPlace::Anywhere)
}

/// What goes on with all since the mark as with any expression, and its end.
#[tactic(auto, unfolding(crate::specs::Statements::continued))]
fn continued<R: Reader>(
    goals: &R,
    p: &mut Parser<'_>,
    m: &Mark<'_>,
    place: StmtPlace,
) -> Result<(), Fault>
    requires { R.can_read goals.now }
    ensures { RunsFrom (R.reads goals.now) (form.continued place) m.now p.old p.new result }
{
    going_on(goals, p, m)?;
    ending(goals, p, m, place)
}

/// What follows a block-like expression.
#[tactic(auto, using(ssr_syntax_forms::proofs::Shared::run_decide), unfolding(crate::specs::Statements::behind_block))]
fn behind_block<R: Reader>(
    goals: &R,
    p: &mut Parser<'_>,
    m: &Mark<'_>,
    place: StmtPlace,
) -> Result<(), Fault>
    requires { R.can_read goals.now }
    ensures { RunsFrom (R.reads goals.now) (form.behind_block place) m.now p.old p.new result }
{
    if p.at_any(BlockGoesOn) {
        continued(goals, p, m, place)
    } else {
        block_end(goals, p, m, place)
    }
}

/// A statement or a body that begins with a block-like expression.
#[tactic(auto, unfolding(crate::specs::Statements::block_leading))]
fn block_leading<R: Reader>(
    goals: &R,
    p: &mut Parser<'_>,
    m: &Mark<'_>,
    place: StmtPlace,
) -> Result<(), Fault>
    requires { R.can_read goals.now }
    ensures { RunsFrom (R.reads goals.now) (form.block_leading place) m.now p.old p.new result }
{
    block_like(goals, p)?;
    behind_block(goals, p, m, place)
}

/// MACRO_EXPR with braces, behind its PATH.
#[tactic(auto, unfolding(crate::specs::Statements::curly_macro_expr))]
fn curly_macro_expr<R: Reader>(goals: &R, p: &mut Parser<'_>, m: &Mark<'_>) -> Result<(), Fault>
    requires { R.can_read goals.now }
    ensures { RunsFrom (R.reads goals.now) form.curly_macro_expr m.now p.old p.new result }
{
    p.refuse_since(m, L_ANGLE)?;
    p.expect(BANG)?;
    curly_tree(goals, p)?;
    p.complete(m, MACRO_CALL)?;
    p.complete(m, MACRO_EXPR)
}

/// MACRO_EXPR with other brackets, behind its PATH.
#[tactic(auto, unfolding(crate::specs::Statements::other_macro_expr))]
fn other_macro_expr<R: Reader>(goals: &R, p: &mut Parser<'_>, m: &Mark<'_>) -> Result<(), Fault>
    requires { R.can_read goals.now }
    ensures { RunsFrom (R.reads goals.now) form.other_macro_expr m.now p.old p.new result }
{
    p.refuse_since(m, L_ANGLE)?;
    p.expect(BANG)?;
    paren_or_bracket_tree(goals, p)?;
    p.complete(m, MACRO_CALL)?;
    p.complete(m, MACRO_EXPR)
}

/// What begins with a macro call with braces, which is block-like.
#[tactic(auto, unfolding(crate::specs::Statements::curly_macro))]
fn curly_macro<R: Reader>(
    goals: &R,
    p: &mut Parser<'_>,
    m: &Mark<'_>,
    place: StmtPlace,
) -> Result<(), Fault>
    requires { R.can_read goals.now }
    ensures { RunsFrom (R.reads goals.now) (form.curly_macro place) m.now p.old p.new result }
{
    curly_macro_expr(goals, p, m)?;
    behind_block(goals, p, m, place)
}

/// What begins with another macro call.
#[tactic(auto, unfolding(crate::specs::Statements::other_macro))]
fn other_macro<R: Reader>(
    goals: &R,
    p: &mut Parser<'_>,
    m: &Mark<'_>,
    place: StmtPlace,
) -> Result<(), Fault>
    requires { R.can_read goals.now }
    ensures { RunsFrom (R.reads goals.now) (form.other_macro place) m.now p.old p.new result }
{
    other_macro_expr(goals, p, m)?;
    continued(goals, p, m, place)
}

/// An expression that begins with a PATH, behind that.
#[tactic(auto, unfolding(crate::specs::Statements::leading_path))]
fn leading_path<R: Reader>(
    goals: &R,
    p: &mut Parser<'_>,
    m: &Mark<'_>,
    place: StmtPlace,
) -> Result<(), Fault>
    requires { R.can_read goals.now }
    ensures { RunsFrom (R.reads goals.now) (form.leading_path place) m.now p.old p.new result }
{
    path_or_record(goals, p, m, ExprPlace::Anywhere)?;
    continued(goals, p, m, place)
}

/// A statement or a body that begins with a PATH.
#[tactic(auto, using(ssr_syntax_forms::proofs::Shared::run_decide), unfolding(crate::specs::Statements::path_leading))]
fn path_leading<R: Reader>(
    goals: &R,
    p: &mut Parser<'_>,
    m: &Mark<'_>,
    place: StmtPlace,
) -> Result<(), Fault>
    requires { R.can_read goals.now }
    ensures { RunsFrom (R.reads goals.now) (form.path_leading place) m.now p.old p.new result }
{
    path(goals, p, PathPlace::InExpr)?;
    if p.at_two(BANG, L_CURLY) {
        curly_macro(goals, p, m, place)
    } else if p.at(BANG) {
        other_macro(goals, p, m, place)
    } else {
        leading_path(goals, p, m, place)
    }
}

/// A statement or a body that begins with neither.
#[tactic(auto, using(ssr_syntax_forms::proofs::Shared::run_look_by), unfolding(crate::specs::Statements::other_leading))]
fn other_leading<R: Reader>(
    goals: &R,
    p: &mut Parser<'_>,
    m: &Mark<'_>,
    place: StmtPlace,
) -> Result<(), Fault>
    requires { R.can_read goals.now }
    ensures { RunsFrom (R.reads goals.now) (form.other_leading place) m.now p.old p.new result }
{
    p.refuse_at(LeadingFirst(goals.is_whole()))?;
    goals.read(p, Goal::Expr(ExprPlace::Anywhere))?;
    ending(goals, p, m, place)
}

/// The expression of a statement or the body of an arm, where that is not block-like.
#[tactic(auto, unfolding(crate::specs::Statements::blockless_leading))]
fn blockless_leading<R: Reader>(
    goals: &R,
    p: &mut Parser<'_>,
    m: &Mark<'_>,
    place: StmtPlace,
) -> Result<(), Fault>
    requires { R.can_read goals.now }
    ensures { RunsFrom (R.reads goals.now) (form.blockless_leading place) m.now p.old p.new result }
{
    if p.at_any(PathFirst) {
        path_leading(goals, p, m, place)
    } else {
        other_leading(goals, p, m, place)
    }
}

/// The expression of a statement or the body of an arm, with what ends a statement.
#[tactic(auto, using(ssr_syntax_forms::proofs::Shared::run_choose_by), unfolding(crate::specs::Statements::leading))]
fn leading<R: Reader>(
    goals: &R,
    p: &mut Parser<'_>,
    m: &Mark<'_>,
    place: StmtPlace,
) -> Result<(), Fault>
    requires { R.can_read goals.now }
    ensures { RunsFrom (R.reads goals.now) (form.leading place) m.now p.old p.new result }
{
    if p.at_any(BlockFirst(goals.is_whole())) {
        block_leading(goals, p, m, place)
    } else {
        blockless_leading(goals, p, m, place)
    }
}

/// MATCH_GUARD: `if` and a condition.
#[tactic(auto, unfolding(crate::specs::Statements::match_guard))]
fn match_guard<R: Reader>(goals: &R, p: &mut Parser<'_>) -> Result<(), Fault>
    requires { R.can_read goals.now }
    ensures { Runs (R.reads goals.now) form.match_guard p.old p.new result }
{
    let m = p.start();
    p.expect(IF_KW)?;
    goals.read(p, Goal::Condition(ExprPlace::Anywhere))?;
    p.complete(&m, MATCH_GUARD)
}

/// MATCH_ARM: ATTRs, a pattern, perhaps a MATCH_GUARD, `=>`, a body and its comma.
#[tactic(auto, unfolding(crate::specs::Statements::match_arm))]
pub fn match_arm<R: Reader>(goals: &R, p: &mut Parser<'_>) -> Result<(), Fault>
    requires { R.can_read goals.now }
    ensures { Runs (R.reads goals.now) form.match_arm p.old p.new result }
{
    let m = p.start();
    attrs(goals, p)?;
    goals.read(p, Goal::Pat(PatPlace::TopLevel))?;
    if p.at(IF_KW) {
        match_guard(goals, p)?;
    }
    p.expect(FAT_ARROW)?;
    let n = p.start();
    leading(goals, p, &n, StmtPlace::ArmBody)?;
    p.eat(COMMA)?;
    p.complete(&m, MATCH_ARM)
}

/// LET_ELSE: `else` and a BLOCK_EXPR.
#[tactic(auto, unfolding(crate::specs::Statements::let_else_block))]
fn let_else_block<R: Reader>(goals: &R, p: &mut Parser<'_>) -> Result<(), Fault>
    requires { R.can_read goals.now }
    ensures { Runs (R.reads goals.now) form.let_else_block p.old p.new result }
{
    let m = p.start();
    p.expect(ELSE_KW)?;
    block_expr(goals, p)?;
    p.complete(&m, LET_ELSE)
}

/// LET_ELSE, where the expression in front of it does not end with `}`.
#[tactic(auto, unfolding(crate::specs::Statements::let_else))]
fn let_else<R: Reader>(goals: &R, p: &mut Parser<'_>, m: &Mark<'_>) -> Result<(), Fault>
    requires { R.can_read goals.now }
    ensures { RunsFrom (R.reads goals.now) form.let_else m.now p.old p.new result }
{
    p.refuse_last(m, R_CURLY)?;
    let_else_block(goals, p)
}

/// `=`, an expression, and perhaps LET_ELSE.
#[tactic(auto, unfolding(crate::specs::Statements::initializer))]
fn initializer<R: Reader>(goals: &R, p: &mut Parser<'_>, m: &Mark<'_>) -> Result<(), Fault>
    requires { R.can_read goals.now }
    ensures { RunsFrom (R.reads goals.now) form.initializer m.now p.old p.new result }
{
    p.expect(EQ)?;
    goals.read(p, Goal::Expr(ExprPlace::Anywhere))?;
    if p.at(ELSE_KW) {
        let_else(goals, p, m)
    } else {
        Ok(())
    }
}

/// The `;` of a LET_STMT, which may lack alone, and at the end of what a macro call stands for.
#[tactic(auto, unfolding(crate::specs::Statements::let_end))]
fn let_end<R: Reader>(
    goals: &R,
    p: &mut Parser<'_>,
    m: &Mark<'_>,
    place: StmtPlace,
) -> Result<(), Fault>
    requires { R.can_read goals.now }
    ensures { RunsFrom (R.reads goals.now) (form.let_end place) m.now p.old p.new result }
{
    match place {
        StmtPlace::LoneStmt => p.eat(SEMICOLON),
        StmtPlace::BlockStmt => p.expect(SEMICOLON),
        StmtPlace::ArmBody => p.expect(SEMICOLON),
        StmtPlace::MacroStmt => {
            if p.at(SEMICOLON) {
                p.expect(SEMICOLON)
            } else {
                p.expect_at(END)
            }
        }
    }
}

/// What follows the pattern of a LET_STMT and its type: perhaps `=` and an expression, and `;`.
#[tactic(auto, unfolding(crate::specs::Statements::let_rest))]
fn let_rest<R: Reader>(
    goals: &R,
    p: &mut Parser<'_>,
    m: &Mark<'_>,
    place: StmtPlace,
) -> Result<(), Fault>
    requires { R.can_read goals.now }
    ensures { RunsFrom (R.reads goals.now) (form.let_rest place) m.now p.old p.new result }
{
    if p.at(EQ) {
        initializer(goals, p, m)?;
    }
    let_end(goals, p, m, place)?;
    p.complete(m, LET_STMT)
}

/// LET_STMT: `let`, a pattern, perhaps `:` and a type, perhaps `=` and an expression, and `;`.
#[tactic(auto, unfolding(crate::specs::Statements::let_stmt))]
fn let_stmt<R: Reader>(
    goals: &R,
    p: &mut Parser<'_>,
    m: &Mark<'_>,
    place: StmtPlace,
) -> Result<(), Fault>
    requires { R.can_read goals.now }
    ensures { RunsFrom (R.reads goals.now) (form.let_stmt place) m.now p.old p.new result }
{
    p.expect(LET_KW)?;
    goals.read(p, Goal::Pat(PatPlace::TopLevel))?;
    if p.at(COLON) {
        p.expect(COLON)?;
        goals.read(p, Goal::Ty)?;
    }
    let_rest(goals, p, m, place)
}

/// A statement of the stated language in its list that is no LET_STMT.
#[tactic(auto, using(ssr_syntax_forms::proofs::Shared::run_decide), unfolding(crate::specs::Statements::stated_expr_or_item))]
fn stated_expr_or_item<R: Reader>(
    goals: &R,
    p: &mut Parser<'_>,
    place: StmtPlace,
) -> Result<(), Fault>
    requires { R.can_read goals.now }
    ensures { RunsAnywhere (R.reads goals.now) (form.stated_expr_or_item place) p.old p.new result }
{
    if at_stmt_item(p) {
        goals.read(p, Goal::Item(ItemPlace::AsStmt))
    } else {
        let n = p.start();
        leading(goals, p, &n, place)
    }
}

/// Whether `const` and a brace are next.
fn at_const_block(p: &Parser<'_>) -> bool
    ensures { result ≡ passes form.const_block_ahead p.now.rest }
{
    p.at_two(CONST_KW, L_CURLY)
}

/// A statement that begins with a `const` block, or one of the stated language that is no LET_STMT.
#[tactic(auto, using(ssr_syntax_forms::proofs::Shared::run_also_decide), unfolding(crate::specs::Statements::const_block_or_stated))]
fn const_block_or_stated<R: Reader>(
    goals: &R,
    p: &mut Parser<'_>,
    place: StmtPlace,
) -> Result<(), Fault>
    requires { R.can_read goals.now }
    ensures { RunsAnywhere (R.reads goals.now) (form.const_block_or_stated place) p.old p.new result }
{
    if goals.is_whole() && at_const_block(p) {
        let n = p.start();
        leading(goals, p, &n, place)
    } else {
        stated_expr_or_item(goals, p, place)
    }
}

/// A statement in its list that is no LET_STMT.
#[tactic(auto, using(ssr_syntax_forms::proofs::Shared::run_also_decide), unfolding(crate::specs::Statements::expr_or_item_stmt))]
fn expr_or_item_stmt<R: Reader>(
    goals: &R,
    p: &mut Parser<'_>,
    place: StmtPlace,
) -> Result<(), Fault>
    requires { R.can_read goals.now }
    ensures { RunsAnywhere (R.reads goals.now) (form.expr_or_item_stmt place) p.old p.new result }
{
    if goals.is_whole() && at_whole_item(p) {
        goals.read(p, Goal::Item(ItemPlace::AsStmt))
    } else {
        const_block_or_stated(goals, p, place)
    }
}

/// Whether a macro call by a name, or by a name and a path to it, is next.
#[tactic(auto, using(ssr_syntax_forms::proofs::Shared::first_passes, ssr_syntax_forms::proofs::Shared::others_pass))]
fn at_simple_macro(p: &Parser<'_>) -> bool
    ensures { result ≡ passes form.simple_macro_ahead p.now.rest }
{
    p.at_two(IDENT, BANG) || p.at_four(IDENT, COLON2, IDENT, BANG)
}

/// The `;` of an expression behind ATTRs.
#[tactic(auto, unfolding(crate::specs::Statements::attributed_end))]
fn attributed_end<R: Reader>(
    goals: &R,
    p: &mut Parser<'_>,
    m: &Mark<'_>,
    place: StmtPlace,
) -> Result<(), Fault>
    requires { R.can_read goals.now }
    ensures { RunsFrom (R.reads goals.now) (form.attributed_end place) m.now p.old p.new result }
{
    match place {
        StmtPlace::LoneStmt => p.eat(SEMICOLON),
        StmtPlace::BlockStmt => {
            if p.at(SEMICOLON) {
                p.expect(SEMICOLON)
            } else {
                p.expect_at(R_CURLY)
            }
        }
        StmtPlace::ArmBody => p.expect(SEMICOLON),
        StmtPlace::MacroStmt => {
            if p.at(SEMICOLON) {
                p.expect(SEMICOLON)
            } else {
                p.expect_at(END)
            }
        }
    }
}

/// `;` or nothing.
#[tactic(auto, using(ssr_syntax_forms::proofs::Shared::run_decide), unfolding(crate::specs::Statements::semicolon_or_none))]
fn semicolon_or_none<R: Reader>(goals: &R, p: &mut Parser<'_>, m: &Mark<'_>) -> Result<(), Fault>
    requires { R.can_read goals.now }
    ensures { RunsFrom (R.reads goals.now) form.semicolon_or_none m.now p.old p.new result }
{
    if p.at(SEMICOLON) {
        p.expect(SEMICOLON)
    } else {
        Ok(())
    }
}

/// EXPR_STMT: a block-like expression behind ATTRs.
#[tactic(auto, unfolding(crate::specs::Statements::attributed_block))]
fn attributed_block<R: Reader>(goals: &R, p: &mut Parser<'_>, m: &Mark<'_>) -> Result<(), Fault>
    requires { R.can_read goals.now }
    ensures { RunsFrom (R.reads goals.now) form.attributed_block m.now p.old p.new result }
{
    block_like(goals, p)?;
    semicolon_or_none(goals, p, m)?;
    p.complete(m, EXPR_STMT)
}

/// EXPR_STMT: any other expression behind ATTRs.
#[tactic(auto, unfolding(crate::specs::Statements::attributed_expr))]
fn attributed_expr<R: Reader>(
    goals: &R,
    p: &mut Parser<'_>,
    m: &Mark<'_>,
    place: StmtPlace,
) -> Result<(), Fault>
    requires { R.can_read goals.now }
    ensures { RunsFrom (R.reads goals.now) (form.attributed_expr place) m.now p.old p.new result }
{
    p.refuse_at(PoundOrBlock)?;
    goals.read(p, Goal::Expr(ExprPlace::Anywhere))?;
    attributed_end(goals, p, m, place)?;
    p.complete(m, EXPR_STMT)
}

/// MACRO_CALL with braces, behind its PATH.
#[tactic(auto, unfolding(crate::specs::Statements::curly_call))]
fn curly_call<R: Reader>(goals: &R, p: &mut Parser<'_>, m: &Mark<'_>) -> Result<(), Fault>
    requires { R.can_read goals.now }
    ensures { RunsFrom (R.reads goals.now) form.curly_call m.now p.old p.new result }
{
    p.expect(BANG)?;
    curly_tree(goals, p)?;
    p.complete(m, MACRO_CALL)
}

/// MACRO_CALL with other brackets, behind its PATH.
#[tactic(auto, unfolding(crate::specs::Statements::other_call))]
fn other_call<R: Reader>(goals: &R, p: &mut Parser<'_>, m: &Mark<'_>) -> Result<(), Fault>
    requires { R.can_read goals.now }
    ensures { RunsFrom (R.reads goals.now) form.other_call m.now p.old p.new result }
{
    p.expect(BANG)?;
    paren_or_bracket_tree(goals, p)?;
    p.complete(m, MACRO_CALL)
}

/// EXPR_STMT: a MACRO_CALL with braces, behind ATTRs and its PATH.
#[tactic(auto, unfolding(crate::specs::Statements::attributed_curly_macro))]
fn attributed_curly_macro<R: Reader>(
    goals: &R,
    p: &mut Parser<'_>,
    m: &Mark<'_>,
) -> Result<(), Fault>
    requires { R.can_read goals.now }
    ensures { RunsFrom (R.reads goals.now) form.attributed_curly_macro m.now p.old p.new result }
{
    curly_call(goals, p, m)?;
    semicolon_or_none(goals, p, m)?;
    p.complete(m, EXPR_STMT)
}

/// EXPR_STMT: a MACRO_CALL with other brackets, behind ATTRs and its PATH.
#[tactic(auto, unfolding(crate::specs::Statements::attributed_other_macro))]
fn attributed_other_macro<R: Reader>(
    goals: &R,
    p: &mut Parser<'_>,
    m: &Mark<'_>,
    place: StmtPlace,
) -> Result<(), Fault>
    requires { R.can_read goals.now }
    ensures { RunsFrom (R.reads goals.now) (form.attributed_other_macro place) m.now p.old p.new result }
{
    other_call(goals, p, m)?;
    attributed_end(goals, p, m, place)?;
    p.complete(m, EXPR_STMT)
}

/// EXPR_STMT: a MACRO_CALL, behind ATTRs and its PATH.
#[tactic(auto, using(ssr_syntax_forms::proofs::Shared::run_decide), unfolding(crate::specs::Statements::attributed_macro_end))]
fn attributed_macro_end<R: Reader>(
    goals: &R,
    p: &mut Parser<'_>,
    m: &Mark<'_>,
    place: StmtPlace,
) -> Result<(), Fault>
    requires { R.can_read goals.now }
    ensures { RunsFrom (R.reads goals.now) (form.attributed_macro_end place) m.now p.old p.new result }
{
    if p.at_two(BANG, L_CURLY) {
        attributed_curly_macro(goals, p, m)
    } else {
        attributed_other_macro(goals, p, m, place)
    }
}

/// EXPR_STMT: a MACRO_CALL, behind ATTRs.
#[tactic(auto, unfolding(crate::specs::Statements::attributed_macro))]
fn attributed_macro<R: Reader>(
    goals: &R,
    p: &mut Parser<'_>,
    m: &Mark<'_>,
    place: StmtPlace,
) -> Result<(), Fault>
    requires { R.can_read goals.now }
    ensures { RunsFrom (R.reads goals.now) (form.attributed_macro place) m.now p.old p.new result }
{
    simple_path(goals, p)?;
    attributed_macro_end(goals, p, m, place)
}

/// EXPR_STMT of an expression that is not block-like, behind ATTRs.
#[tactic(auto, using(ssr_syntax_forms::proofs::Shared::run_decide), unfolding(crate::specs::Statements::attributed_expr_or_macro))]
fn attributed_expr_or_macro<R: Reader>(
    goals: &R,
    p: &mut Parser<'_>,
    m: &Mark<'_>,
    place: StmtPlace,
) -> Result<(), Fault>
    requires { R.can_read goals.now }
    ensures { RunsFrom (R.reads goals.now) (form.attributed_expr_or_macro place) m.now p.old p.new result }
{
    if at_simple_macro(p) {
        attributed_macro(goals, p, m, place)
    } else {
        attributed_expr(goals, p, m, place)
    }
}

/// EXPR_STMT, behind ATTRs.
#[tactic(auto, unfolding(crate::specs::Statements::attributed_expr_stmt))]
fn attributed_expr_stmt<R: Reader>(
    goals: &R,
    p: &mut Parser<'_>,
    m: &Mark<'_>,
    place: StmtPlace,
) -> Result<(), Fault>
    requires { R.can_read goals.now }
    ensures { RunsFrom (R.reads goals.now) (form.attributed_expr_stmt place) m.now p.old p.new result }
{
    if p.at_any(BlockFirst(true)) {
        attributed_block(goals, p, m)
    } else {
        attributed_expr_or_macro(goals, p, m, place)
    }
}

/// An item or EXPR_STMT, behind ATTRs.
#[tactic(auto, using(ssr_syntax_forms::proofs::Shared::run_decide), unfolding(crate::specs::Statements::attributed_other))]
fn attributed_other<R: Reader>(
    goals: &R,
    p: &mut Parser<'_>,
    m: &Mark<'_>,
    place: StmtPlace,
) -> Result<(), Fault>
    requires { R.can_read goals.now }
    ensures { RunsFrom (R.reads goals.now) (form.attributed_other place) m.now p.old p.new result }
{
    if at_attributed_item(p) {
        item_as_stmt(goals, p, m)
    } else {
        attributed_expr_stmt(goals, p, m, place)
    }
}

/// A statement behind ATTRs, which stand in its node.
#[tactic(auto, unfolding(crate::specs::Statements::attributed_rest))]
fn attributed_rest<R: Reader>(
    goals: &R,
    p: &mut Parser<'_>,
    m: &Mark<'_>,
    place: StmtPlace,
) -> Result<(), Fault>
    requires { R.can_read goals.now }
    ensures { RunsFrom (R.reads goals.now) (form.attributed_rest place) m.now p.old p.new result }
{
    if p.at(LET_KW) {
        let_stmt(goals, p, m, place)
    } else {
        attributed_other(goals, p, m, place)
    }
}

/// A statement with ATTRs, of all of Rust.
#[tactic(auto, unfolding(crate::specs::Statements::attributed))]
fn attributed<R: Reader>(goals: &R, p: &mut Parser<'_>, place: StmtPlace) -> Result<(), Fault>
    requires { R.can_read goals.now }
    ensures { Runs (R.reads goals.now) (form.attributed place) p.old p.new result }
{
    let m = p.start();
    some_attrs(goals, p)?;
    attributed_rest(goals, p, &m, place)
}

/// A statement in its list that is no EMPTY_STMT, or the last expression of that.
#[tactic(auto, using(ssr_syntax_forms::proofs::Shared::run_also_decide), unfolding(crate::specs::Statements::attributed_or_other))]
fn attributed_or_other<R: Reader>(
    goals: &R,
    p: &mut Parser<'_>,
    place: StmtPlace,
) -> Result<(), Fault>
    requires { R.can_read goals.now }
    ensures { RunsAnywhere (R.reads goals.now) (form.attributed_or_other place) p.old p.new result }
{
    if goals.is_whole() && p.at(POUND) {
        attributed(goals, p, place)
    } else {
        let_or_other_stmt(goals, p, place)
    }
}

/// EMPTY_STMT: `;`.
#[tactic(auto, unfolding(crate::specs::Statements::empty_stmt))]
fn empty_stmt<R: Reader>(goals: &R, p: &mut Parser<'_>) -> Result<(), Fault>
    requires { R.can_read goals.now }
    ensures { Runs (R.reads goals.now) form.empty_stmt p.old p.new result }
{
    let m = p.start();
    p.expect(SEMICOLON)?;
    p.complete(&m, EMPTY_STMT)
}

/// A statement in its list, or the last expression of that.
#[tactic(auto, using(ssr_syntax_forms::proofs::Shared::run_also), unfolding(crate::specs::Statements::stmt))]
fn stmt<R: Reader>(goals: &R, p: &mut Parser<'_>, place: StmtPlace) -> Result<(), Fault>
    requires { R.can_read goals.now }
    ensures { RunsAnywhere (R.reads goals.now) (form.stmt place) p.old p.new result }
{
    if p.at(SEMICOLON) && goals.is_whole() {
        empty_stmt(goals, p)
    } else {
        attributed_or_other(goals, p, place)
    }
}

/// The same without ATTRs, but for those of an item of the stated language.
#[tactic(auto, unfolding(crate::specs::Statements::let_or_other_stmt))]
fn let_or_other_stmt<R: Reader>(
    goals: &R,
    p: &mut Parser<'_>,
    place: StmtPlace,
) -> Result<(), Fault>
    requires { R.can_read goals.now }
    ensures { RunsAnywhere (R.reads goals.now) (form.let_or_other_stmt place) p.old p.new result }
{
    if p.at(LET_KW) {
        let n = p.start();
        let_stmt(goals, p, &n, place)
    } else {
        expr_or_item_stmt(goals, p, place)
    }
}

/// STMT_LIST: statements in braces, and perhaps an expression at the end.
#[tactic(auto, using(ssr_syntax_forms::proofs::Shared::run_repeated_by), unfolding(crate::specs::Statements::stmt_list))]
pub fn stmt_list<R: Reader>(goals: &R, p: &mut Parser<'_>) -> Result<(), Fault>
    requires { R.can_read goals.now }
    ensures { Runs (R.reads goals.now) form.stmt_list p.old p.new result }
{
    let m = p.start();
    p.expect(L_CURLY)?;
    inner_attrs(goals, p)?;
    p.repeated(
        StmtFirst(goals.is_whole()),
        |p| stmt(goals, p, StmtPlace::BlockStmt),
    )?;
    p.expect(R_CURLY)?;
    p.complete(&m, STMT_LIST)
}

/// MACRO_STMTS: the statements that a macro call stands for, and perhaps an expression at the end.
#[tactic(auto, using(ssr_syntax_forms::proofs::Shared::run_repeated_by), unfolding(crate::specs::Statements::macro_stmts))]
pub fn macro_stmts<R: Reader>(goals: &R, p: &mut Parser<'_>) -> Result<(), Fault>
    requires { R.can_read goals.now }
    ensures { Runs (R.reads goals.now) form.macro_stmts p.old p.new result }
{
    let m = p.start();
    p.repeated(
        StmtFirst(goals.is_whole()),
        |p| stmt(goals, p, StmtPlace::MacroStmt),
    )?;
    p.complete(&m, MACRO_STMTS)
}

/// A statement of the stated language alone that is no LET_STMT.
#[tactic(auto, using(ssr_syntax_forms::proofs::Shared::run_decide), unfolding(crate::specs::Statements::stated_lone))]
fn stated_lone<R: Reader>(goals: &R, p: &mut Parser<'_>, m: &Mark<'_>) -> Result<(), Fault>
    requires { R.can_read goals.now }
    ensures { RunsFrom (R.reads goals.now) form.stated_lone m.now p.old p.new result }
{
    if at_stmt_item(p) {
        item(goals, p, m, ItemPlace::AsStmt)
    } else {
        leading(goals, p, m, StmtPlace::LoneStmt)
    }
}

/// A `const` block alone, or a statement of the stated language that is no LET_STMT.
#[tactic(auto, using(ssr_syntax_forms::proofs::Shared::run_also_decide), unfolding(crate::specs::Statements::const_block_or_lone))]
fn const_block_or_lone<R: Reader>(goals: &R, p: &mut Parser<'_>, m: &Mark<'_>) -> Result<(), Fault>
    requires { R.can_read goals.now }
    ensures { RunsFrom (R.reads goals.now) form.const_block_or_lone m.now p.old p.new result }
{
    if goals.is_whole() && at_const_block(p) {
        leading(goals, p, m, StmtPlace::LoneStmt)
    } else {
        stated_lone(goals, p, m)
    }
}

/// A statement alone that is no LET_STMT.
#[tactic(auto, using(ssr_syntax_forms::proofs::Shared::run_also_decide), unfolding(crate::specs::Statements::lone_expr_or_item))]
fn lone_expr_or_item<R: Reader>(goals: &R, p: &mut Parser<'_>, m: &Mark<'_>) -> Result<(), Fault>
    requires { R.can_read goals.now }
    ensures { RunsFrom (R.reads goals.now) form.lone_expr_or_item m.now p.old p.new result }
{
    if goals.is_whole() && at_whole_item(p) {
        item(goals, p, m, ItemPlace::AsStmt)
    } else {
        const_block_or_lone(goals, p, m)
    }
}

/// A statement alone that is no EMPTY_STMT.
#[tactic(auto, using(ssr_syntax_forms::proofs::Shared::run_also_decide), unfolding(crate::specs::Statements::attributed_or_lone))]
fn attributed_or_lone<R: Reader>(goals: &R, p: &mut Parser<'_>, m: &Mark<'_>) -> Result<(), Fault>
    requires { R.can_read goals.now }
    ensures { RunsFrom (R.reads goals.now) form.attributed_or_lone m.now p.old p.new result }
{
    if goals.is_whole() && p.at(POUND) {
        attributed(goals, p, StmtPlace::LoneStmt)
    } else {
        let_or_other_lone(goals, p, m)
    }
}

/// A statement alone, whose `;` may lack.
#[tactic(auto, using(ssr_syntax_forms::proofs::Shared::run_also), unfolding(crate::specs::Statements::lone_stmt))]
pub fn lone_stmt<R: Reader>(goals: &R, p: &mut Parser<'_>) -> Result<(), Fault>
    requires { R.can_read goals.now }
    ensures { Runs (R.reads goals.now) form.lone_stmt p.old p.new result }
{
    let m = p.start();
    if p.at(SEMICOLON) && goals.is_whole() {
        empty_stmt(goals, p)
    } else {
        attributed_or_lone(goals, p, &m)
    }
}

/// The same without ATTRs, but for those of an item of the stated language.
#[tactic(auto, unfolding(crate::specs::Statements::let_or_other_lone))]
fn let_or_other_lone<R: Reader>(goals: &R, p: &mut Parser<'_>, m: &Mark<'_>) -> Result<(), Fault>
    requires { R.can_read goals.now }
    ensures { RunsFrom (R.reads goals.now) form.let_or_other_lone m.now p.old p.new result }
{
    if p.at(LET_KW) {
        let n = p.start();
        let_stmt(goals, p, &n, StmtPlace::LoneStmt)
    } else {
        lone_expr_or_item(goals, p, m)
    }
}
