//! The functions that read token trees and attributes.
ghost use Rattle.ssr_syntax_types.specs.TokenTrees as form;
ghost use Rattle.ssr_syntax_forms.specs.Runs.{Runs, RunsAnywhere};

use crate::goals::Goal;
use crate::literals::Literals;
use crate::reader::Reader;
use ssr_syntax_forms::{Fault, Parser, TokenSet};
use ssr_syntax_kinds::SyntaxKind;
use ssr_syntax_kinds::SyntaxKind::*;

/// The brackets that open.
#[derive(Clone, Copy)]
struct Opening;

impl TokenSet for Opening {
    ghost kinds = { λ _. form.opening };

    #[inline(always)]
    #[tactic(auto, unfolding(crate::specs::TokenTrees::opening))]
    fn contains(self, kind: SyntaxKind) -> bool {
        matches!(kind, L_PAREN | L_BRACK | L_CURLY)
    }
}

/// Identifiers, lifetimes, `_` and the keywords that are no literals.
#[derive(Clone, Copy)]
struct Words;

impl TokenSet for Words {
    ghost kinds = { λ _. form.words };

    #[inline(always)]
    #[tactic(auto, unfolding(crate::specs::TokenTrees::words))]
    fn contains(self, kind: SyntaxKind) -> bool {
        match kind {
            IDENT
            | LIFETIME_IDENT
            | UNDERSCORE
            | AS_KW
            | ASYNC_KW
            | AWAIT_KW
            | BREAK_KW
            | CONST_KW => true,
            CONTINUE_KW | CRATE_KW | DYN_KW | ELSE_KW | ENUM_KW | EXTERN_KW | FN_KW | FOR_KW =>
                true,
            IF_KW | IMPL_KW | IN_KW | LET_KW | LOOP_KW | MATCH_KW | MOD_KW | MOVE_KW => true,
            MUT_KW | PUB_KW | REF_KW | RETURN_KW | SELF_KW | SELF_TYPE_KW | STATIC_KW | STRUCT_KW =>
                true,
            SUPER_KW
            | TRAIT_KW
            | TYPE_KW
            | UNSAFE_KW
            | USE_KW
            | WHERE_KW
            | WHILE_KW
            | ABSTRACT_KW => true,
            BECOME_KW | BOX_KW | DO_KW | FINAL_KW | MACRO_KW | OVERRIDE_KW | PRIV_KW | TRY_KW =>
                true,
            TYPEOF_KW | UNSIZED_KW | VIRTUAL_KW | YIELD_KW => true,
            _ => false,
        }
    }
}

/// Punctuation of one character, but for brackets.
#[derive(Clone, Copy)]
struct Punctuation;

impl TokenSet for Punctuation {
    ghost kinds = { λ _. form.punctuation };

    #[inline(always)]
    #[tactic(auto, unfolding(crate::specs::TokenTrees::punctuation))]
    fn contains(self, kind: SyntaxKind) -> bool {
        match kind {
            SEMICOLON | COMMA | L_ANGLE | R_ANGLE | AT | POUND | TILDE | QUESTION => true,
            DOLLAR | AMP | PLUS | STAR | SLASH | CARET | PERCENT | DOT => true,
            COLON | EQ | BANG | MINUS | PIPE => true,
            _ => false,
        }
    }
}

/// Punctuation that outside of token trees is joined.
#[derive(Clone, Copy)]
struct JoinedPunctuation;

impl TokenSet for JoinedPunctuation {
    ghost kinds = { λ _. form.joined_punctuation };

    #[inline(always)]
    #[tactic(auto, unfolding(crate::specs::TokenTrees::joined_punctuation))]
    fn contains(self, kind: SyntaxKind) -> bool {
        match kind {
            COLON2 | THIN_ARROW | FAT_ARROW | DOT2 | DOT2EQ | EQ2 | NEQ | LTEQ => true,
            GTEQ | AMP2 | PIPE2 | SHL | SHR | PLUSEQ | MINUSEQ | STAREQ => true,
            SLASHEQ | PERCENTEQ | CARETEQ | AMPEQ | PIPEEQ | SHLEQ | SHREQ => true,
            _ => false,
        }
    }
}

/// All tokens but brackets.
#[derive(Clone, Copy)]
struct Loose;

impl TokenSet for Loose {
    ghost kinds = { λ _. form.loose };

    #[inline(always)]
    #[tactic(auto, using(ssr_syntax_forms::proofs::Shared::mem_append), unfolding(crate::specs::TokenTrees::loose))]
    fn contains(self, kind: SyntaxKind) -> bool {
        Literals.contains(kind)
            || Words.contains(kind)
            || Punctuation.contains(kind)
            || JoinedPunctuation.contains(kind)
    }
}

/// What stands in a token tree begins with one of these.
#[derive(Clone, Copy)]
struct TreeFirst;

impl TokenSet for TreeFirst {
    ghost kinds = { λ _. form.tree_first };

    #[inline(always)]
    #[tactic(auto, using(ssr_syntax_forms::proofs::Shared::mem_append), unfolding(crate::specs::TokenTrees::tree_first))]
    fn contains(self, kind: SyntaxKind) -> bool {
        Opening.contains(kind) || Loose.contains(kind)
    }
}

/// A TOKEN_TREE or a token that is no bracket.
#[tactic(auto, unfolding(crate::specs::TokenTrees::token_tree_item))]
fn token_tree_item<R: Reader>(goals: &R, p: &mut Parser<'_>) -> Result<(), Fault>
    requires { R.can_read goals.now }
    ensures { RunsAnywhere (R.reads goals.now) form.token_tree_item p.old p.new result }
{
    if p.at_any(Opening) {
        goals.read(p, Goal::TokenTree)
    } else {
        p.expect_part(Loose)
    }
}

/// TOKEN_TREE in braces.
#[tactic(auto, unfolding(crate::specs::TokenTrees::curly_tree))]
pub fn curly_tree<R: Reader>(goals: &R, p: &mut Parser<'_>) -> Result<(), Fault>
    requires { R.can_read goals.now }
    ensures { Runs (R.reads goals.now) form.curly_tree p.old p.new result }
{
    let m = p.start();
    p.expect(L_CURLY)?;
    p.repeated(TreeFirst, |p| token_tree_item(goals, p))?;
    p.expect(R_CURLY)?;
    p.complete(&m, TOKEN_TREE)
}

/// TOKEN_TREE in parentheses.
#[tactic(auto, unfolding(crate::specs::TokenTrees::paren_tree))]
fn paren_tree<R: Reader>(goals: &R, p: &mut Parser<'_>) -> Result<(), Fault>
    requires { R.can_read goals.now }
    ensures { Runs (R.reads goals.now) form.paren_tree p.old p.new result }
{
    let m = p.start();
    p.expect(L_PAREN)?;
    p.repeated(TreeFirst, |p| token_tree_item(goals, p))?;
    p.expect(R_PAREN)?;
    p.complete(&m, TOKEN_TREE)
}

/// TOKEN_TREE in square brackets.
#[tactic(auto, unfolding(crate::specs::TokenTrees::bracket_tree))]
fn bracket_tree<R: Reader>(goals: &R, p: &mut Parser<'_>) -> Result<(), Fault>
    requires { R.can_read goals.now }
    ensures { Runs (R.reads goals.now) form.bracket_tree p.old p.new result }
{
    let m = p.start();
    p.expect(L_BRACK)?;
    p.repeated(TreeFirst, |p| token_tree_item(goals, p))?;
    p.expect(R_BRACK)?;
    p.complete(&m, TOKEN_TREE)
}

/// TOKEN_TREE in parentheses or square brackets.
#[tactic(auto, unfolding(crate::specs::TokenTrees::paren_or_bracket_tree))]
pub fn paren_or_bracket_tree<R: Reader>(goals: &R, p: &mut Parser<'_>) -> Result<(), Fault>
    requires { R.can_read goals.now }
    ensures { RunsAnywhere (R.reads goals.now) form.paren_or_bracket_tree p.old p.new result }
{
    if p.at(L_PAREN) {
        paren_tree(goals, p)
    } else {
        bracket_tree(goals, p)
    }
}

/// TOKEN_TREE: tokens in brackets.
#[tactic(auto, unfolding(crate::specs::TokenTrees::token_tree))]
pub fn token_tree<R: Reader>(goals: &R, p: &mut Parser<'_>) -> Result<(), Fault>
    requires { R.can_read goals.now }
    ensures { RunsAnywhere (R.reads goals.now) form.token_tree p.old p.new result }
{
    if p.at(L_CURLY) {
        curly_tree(goals, p)
    } else {
        paren_or_bracket_tree(goals, p)
    }
}

/// ATTR: `#` and a TOKEN_TREE.
#[tactic(auto, unfolding(crate::specs::TokenTrees::attr))]
fn attr<R: Reader>(goals: &R, p: &mut Parser<'_>) -> Result<(), Fault>
    requires { R.can_read goals.now }
    ensures { Runs (R.reads goals.now) form.attr p.old p.new result }
{
    let m = p.start();
    p.expect(POUND)?;
    goals.read(p, Goal::TokenTree)?;
    p.complete(&m, ATTR)
}

/// ATTR of a whole file: `#`, `!` and a TOKEN_TREE.
#[tactic(auto, unfolding(crate::specs::TokenTrees::inner_attr))]
pub fn inner_attr<R: Reader>(goals: &R, p: &mut Parser<'_>) -> Result<(), Fault>
    requires { R.can_read goals.now }
    ensures { Runs (R.reads goals.now) form.inner_attr p.old p.new result }
{
    let m = p.start();
    p.expect(POUND)?;
    p.expect(BANG)?;
    goals.read(p, Goal::TokenTree)?;
    p.complete(&m, ATTR)
}

/// Any number of ATTRs.
#[tactic(auto, unfolding(crate::specs::TokenTrees::attrs))]
pub fn attrs<R: Reader>(goals: &R, p: &mut Parser<'_>) -> Result<(), Fault>
    requires { R.can_read goals.now }
    ensures { RunsAnywhere (R.reads goals.now) form.attrs p.old p.new result }
{
    p.repeated(POUND, |p| attr(goals, p))
}

/// One ATTR or more.
#[tactic(auto, unfolding(crate::specs::TokenTrees::some_attrs))]
pub fn some_attrs<R: Reader>(goals: &R, p: &mut Parser<'_>) -> Result<(), Fault>
    requires { R.can_read goals.now }
    ensures { RunsAnywhere (R.reads goals.now) form.some_attrs p.old p.new result }
{
    attr(goals, p)?;
    attrs(goals, p)
}

/// ATTRs of what stands in braces, of all of Rust.
#[tactic(auto, using(ssr_syntax_forms::proofs::Shared::run_as_long_as), unfolding(crate::specs::TokenTrees::inner_attrs))]
pub fn inner_attrs<R: Reader>(goals: &R, p: &mut Parser<'_>) -> Result<(), Fault>
    requires { R.can_read goals.now }
    ensures { RunsAnywhere (R.reads goals.now) form.inner_attrs p.old p.new result }
{
    if goals.is_whole() {
        p.repeated_two(POUND, BANG, |p| inner_attr(goals, p))
    } else {
        Ok(())
    }
}
