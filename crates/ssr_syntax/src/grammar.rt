//! Each goal by the function of its form, and the reading of all tokens.
ghost use Rattle.ssr_syntax.specs.Grammar.{grammar};
ghost use Rattle.ssr_syntax.specs.Private.Reading.{IsReading};
ghost use Rattle.ssr_syntax.specs.Reading.{reading};
ghost use Rattle.ssr_syntax_forms.specs.Parser.{Steps};
ghost use Rattle.ssr_syntax_forms.specs.Runs.{Runs, run_goal, runs_below};
ghost use Rattle.ssr_syntax_kinds.specs.Reach.{is_whole};

use ssr_syntax_exprs::blocks::if_expr;
use ssr_syntax_exprs::conditions::condition;
use ssr_syntax_exprs::expressions::{at_most_all, expr, operand, unary};
use ssr_syntax_exprs::generic_args::generic_arg_list;
use ssr_syntax_forms::{Fault, Output, Parser, Token};
use ssr_syntax_item_parts::params::for_binder;
use ssr_syntax_item_parts::uses::use_tree;
use ssr_syntax_items::items::{item, macro_items, source_file};
use ssr_syntax_items::statements::{lone_stmt, macro_stmts, match_arm, stmt_list};
use ssr_syntax_kinds::{Reach, SyntaxKind};
use ssr_syntax_patterns::patterns::pat;
use ssr_syntax_types::goals::Goal;
use ssr_syntax_types::reader::Reader;
use ssr_syntax_types::token_trees::token_tree;
use ssr_syntax_types::types::{any_type, path_type};
use std::alloc::Global;

/// Reads a goal by the function of its form.
#[tactic(auto, unfolding(crate::specs::Grammar::grammar))]
fn read_form<R: Reader>(goals: &R, p: &mut Parser<'_>, goal: Goal) -> Result<(), Fault>
    requires { R.can_read goals.now }
    ensures { Runs (R.reads goals.now) (grammar goal) p.old p.new result }
{
    let m = p.start();
    match goal {
        Goal::File => source_file(goals, p),
        Goal::Expr(place) => expr(goals, p, place),
        Goal::Condition(place) => condition(goals, p, place),
        Goal::Operand(place, rank) => operand(goals, p, &m, place, at_most_all(rank)),
        Goal::Unary(place) => unary(goals, p, &m, place),
        Goal::Ty => any_type(goals, p),
        Goal::PathType => path_type(goals, p),
        Goal::GenericArgs => generic_arg_list(goals, p),
        Goal::ForBinder => for_binder(goals, p),
        Goal::TokenTree => token_tree(goals, p),
        Goal::Pat(place) => pat(goals, p, place),
        Goal::StmtList => stmt_list(goals, p),
        Goal::Stmt => lone_stmt(goals, p),
        Goal::Arm => match_arm(goals, p),
        Goal::If => if_expr(goals, p, &m),
        Goal::Item(place) => item(goals, p, &m, place),
        Goal::UseTree => use_tree(goals, p),
        Goal::Items => macro_items(goals, p),
        Goal::Stmts => macro_stmts(goals, p),
    }
}

/// Reads goals of a reach with the levels that are left.
#[derive(Drop)]
struct Level<F: Drop> {
    read: F,
    reach: Reach,
    left: u32,
}

impl<F: Fn(&mut Parser<'_>, Goal) -> Result<(), Fault> + Drop> Reader for Level<F> {
    ghost use Rattle.ssr_syntax_types.specs.declared.goals.Goal.{Goal};

    ghost can_read = { λ d. F.IsAlwaysCallable d.read
        × ((old : _) (goal : Goal) (r : _) (new : _) → F.post d.read old goal r new
        → Steps new.now r (run_goal (is_whole d.reach) grammar d.left goal old.now)) };

    ghost reads = { λ d. runs_below (is_whole d.reach) (run_goal (is_whole d.reach) grammar d.left) };

    #[inline(always)]
    fn is_whole(&self) -> bool {
        self.reach.is_whole()
    }

    fn read(&self, p: &mut Parser<'_>, goal: Goal) -> Result<(), Fault> {
        (self.read)(p, goal)
    }
}

/// Reads a goal of a reach with at most `left` levels of goals.
#[tactic(auto, unfolding(ssr_syntax_forms::specs::Runs::run_goal))]
fn read(p: &mut Parser<'_>, goal: Goal, reach: Reach, left: u32) -> Result<(), Fault>
    ensures { Steps p.new result (run_goal (is_whole reach) grammar left goal p.old) }
{
    if left == 0 {
        return Err(Fault::TooDeep);
    }
    let less = left - 1;
    let read_less = |p: &mut Parser<'_>, goal: Goal|
        ensures { Steps p.new result (run_goal (is_whole reach) grammar less goal p.old) }
    { read(p, goal, reach, less) };
    let below = Level {
        read: read_less,
        reach,
        left: less,
    };
    read_form(&below, p, goal)
}

/// How many levels of goals are read. Each level but the first stands below a node.
const MOST_LEVELS: u32 = 1026;

/// The nodes and the joined tokens of the tree that is read of all solid tokens as the goal, in the reach, where the text's tokens have
/// these kinds; `NoTree` where none fits. A tree that fits, with at most 1,025 nodes above one another, is read.
#[tactic(auto, using(crate::proofs::Finished::no_tree, crate::proofs::Finished::finished))]
pub(crate) fn parse_as(
    alloc: Global,
    reach: Reach,
    goal: Goal,
    tokens: &[Token],
    kinds: &[SyntaxKind],
) -> Result<Output, Fault>
    ensures { IsReading kinds.now result (reading reach goal tokens.now) }
{
    let mut parser = Parser::new(alloc, tokens, kinds)?;
    read(&mut parser, goal, reach, MOST_LEVELS)?;
    parser.finish()
}
