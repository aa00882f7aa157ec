//! The functions that read what is used, and by which names.
ghost use Rattle.std.specs.Prelude.{◌≡◌};
ghost use Rattle.ssr_syntax_item_parts.specs.Uses as form;
ghost use Rattle.ssr_syntax_forms.specs.Forms.{passes};
ghost use Rattle.ssr_syntax_forms.specs.Runs.{Runs, RunsAnywhere, RunsFrom};

use ssr_syntax_forms::{Fault, Mark, Parser, TokenSet};
use ssr_syntax_kinds::SyntaxKind;
use ssr_syntax_kinds::SyntaxKind::*;
use ssr_syntax_types::goals::Goal;
use ssr_syntax_types::paths::{PathNames, name, simple_path};
use ssr_syntax_types::reader::Reader;

/// What a path without an anchor begins with.
#[derive(Clone, Copy)]
pub struct MacroPathFirst;

impl TokenSet for MacroPathFirst {
    ghost kinds = { λ _. form.macro_path_first };

    #[inline(always)]
    #[tactic(auto, unfolding(crate::specs::Uses::macro_path_first))]
    fn contains(self, kind: SyntaxKind) -> bool {
        matches!(kind, COLON2) || PathNames.contains(kind)
    }
}

/// What a USE_TREE begins with.
#[derive(Clone, Copy)]
struct UseFirst;

impl TokenSet for UseFirst {
    ghost kinds = { λ _. form.use_first };

    #[inline(always)]
    #[tactic(auto, unfolding(crate::specs::Uses::use_first))]
    fn contains(self, kind: SyntaxKind) -> bool {
        matches!(kind, STAR | L_CURLY) || MacroPathFirst.contains(kind)
    }
}

/// Whether a path is next, which may have `::` in front.
#[tactic(auto, using(ssr_syntax_forms::proofs::Shared::first_passes, ssr_syntax_forms::proofs::Shared::others_pass))]
fn at_simple_path(p: &Parser<'_>) -> bool
    ensures { result ≡ passes form.path_or_colon_name p.now.rest }
{
    p.at_any(PathNames) || p.at_two(COLON2, PathNames)
}

/// A NAME or `_`.
#[tactic(auto, unfolding(crate::specs::Uses::name_or_underscore))]
pub fn name_or_underscore<R: Reader>(goals: &R, p: &mut Parser<'_>) -> Result<(), Fault>
    requires { R.can_read goals.now }
    ensures { RunsAnywhere (R.reads goals.now) form.name_or_underscore p.old p.new result }
{
    if p.at(UNDERSCORE) {
        p.expect(UNDERSCORE)
    } else {
        name(goals, p)
    }
}

/// RENAME: `as` and a NAME or `_`.
#[tactic(auto, unfolding(crate::specs::Uses::rename))]
pub fn rename<R: Reader>(goals: &R, p: &mut Parser<'_>) -> Result<(), Fault>
    requires { R.can_read goals.now }
    ensures { Runs (R.reads goals.now) form.rename p.old p.new result }
{
    let m = p.start();
    p.expect(AS_KW)?;
    name_or_underscore(goals, p)?;
    p.complete(&m, RENAME)
}

/// USE_TREE_LIST: USE_TREEs in braces, with commas between them.
#[tactic(auto, using(ssr_syntax_forms::proofs::Shared::run_comma_list), unfolding(crate::specs::Uses::use_tree_list))]
fn use_tree_list<R: Reader>(goals: &R, p: &mut Parser<'_>) -> Result<(), Fault>
    requires { R.can_read goals.now }
    ensures { Runs (R.reads goals.now) form.use_tree_list p.old p.new result }
{
    let m = p.start();
    p.expect(L_CURLY)?;
    p.comma_list(UseFirst, |p| goals.read(p, Goal::UseTree))?;
    p.expect(R_CURLY)?;
    p.complete(&m, USE_TREE_LIST)
}

/// `*` or a USE_TREE_LIST.
#[tactic(auto, unfolding(crate::specs::Uses::star_or_list))]
fn star_or_list<R: Reader>(goals: &R, p: &mut Parser<'_>) -> Result<(), Fault>
    requires { R.can_read goals.now }
    ensures { RunsAnywhere (R.reads goals.now) form.star_or_list p.old p.new result }
{
    if p.at(STAR) {
        p.expect(STAR)
    } else {
        use_tree_list(goals, p)
    }
}

/// `::` and `*` or a USE_TREE_LIST.
#[tactic(auto, unfolding(crate::specs::Uses::further_use))]
fn further_use<R: Reader>(goals: &R, p: &mut Parser<'_>) -> Result<(), Fault>
    requires { R.can_read goals.now }
    ensures { RunsAnywhere (R.reads goals.now) form.further_use p.old p.new result }
{
    p.expect(COLON2)?;
    star_or_list(goals, p)
}

/// What follows the PATH of a USE_TREE.
#[tactic(auto, unfolding(crate::specs::Uses::use_tree_end))]
fn use_tree_end<R: Reader>(goals: &R, p: &mut Parser<'_>) -> Result<(), Fault>
    requires { R.can_read goals.now }
    ensures { RunsAnywhere (R.reads goals.now) form.use_tree_end p.old p.new result }
{
    if p.at(COLON2) {
        further_use(goals, p)
    } else if p.at(AS_KW) {
        rename(goals, p)
    } else {
        Ok(())
    }
}

/// USE_TREE that begins with a PATH.
#[tactic(auto, unfolding(crate::specs::Uses::use_tree_of_path))]
fn use_tree_of_path<R: Reader>(goals: &R, p: &mut Parser<'_>) -> Result<(), Fault>
    requires { R.can_read goals.now }
    ensures { Runs (R.reads goals.now) form.use_tree_of_path p.old p.new result }
{
    let m = p.start();
    simple_path(goals, p)?;
    use_tree_end(goals, p)?;
    p.complete(&m, USE_TREE)
}

/// USE_TREE without a PATH.
#[tactic(auto, unfolding(crate::specs::Uses::use_tree_of_all))]
fn use_tree_of_all<R: Reader>(goals: &R, p: &mut Parser<'_>) -> Result<(), Fault>
    requires { R.can_read goals.now }
    ensures { Runs (R.reads goals.now) form.use_tree_of_all p.old p.new result }
{
    let m = p.start();
    p.eat(COLON2)?;
    star_or_list(goals, p)?;
    p.complete(&m, USE_TREE)
}

/// USE_TREE: a PATH, perhaps renamed, or `*` or a list, perhaps behind a PATH.
#[tactic(auto, using(ssr_syntax_forms::proofs::Shared::run_decide), unfolding(crate::specs::Uses::use_tree))]
pub fn use_tree<R: Reader>(goals: &R, p: &mut Parser<'_>) -> Result<(), Fault>
    requires { R.can_read goals.now }
    ensures { RunsAnywhere (R.reads goals.now) form.use_tree p.old p.new result }
{
    if at_simple_path(p) {
        use_tree_of_path(goals, p)
    } else {
        use_tree_of_all(goals, p)
    }
}

/// USE: `use`, a USE_TREE and `;`.
#[tactic(auto, unfolding(crate::specs::Uses::use_item))]
pub fn use_item<R: Reader>(goals: &R, p: &mut Parser<'_>, m: &Mark<'_>) -> Result<(), Fault>
    requires { R.can_read goals.now }
    ensures { RunsFrom (R.reads goals.now) form.use_item m.now p.old p.new result }
{
    p.expect(USE_KW)?;
    goals.read(p, Goal::UseTree)?;
    p.expect(SEMICOLON)?;
    p.complete(m, USE)
}
