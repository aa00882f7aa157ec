//! Whether what was read of a short text is core.
ghost use Rattle.std.specs.Prelude.{◌≡◌, IfSome, IsTrue, true, false};
ghost use Rattle.ssr_syntax_tree.specs.Places.{HasElement, HasNode};
ghost use Rattle.ssr_syntax_places.specs.Core.{Holes};
ghost use Rattle.ssr_syntax_places.specs.PlainCore.{is_core_tree};
ghost use Rattle.ssr_syntax_shorts.specs.Names.{AreNames};
ghost use Rattle.ssr_syntax_shorts.specs.Private.Arguments.{IsTurn};
ghost use Rattle.ssr_syntax_shorts.specs.Private.Operands.{MeetsAlways};

use crate::arguments::{Turn, turn_behind};
use crate::operands::{Asked, Need, Operands, Spot, inside, operands_of};
use crate::shapes::is_trivia;
use crate::tokens::Walk;
use ssr_syntax_kinds::SyntaxKind;
use ssr_syntax_tree::{Element, NodeNo, TokenNo, Tree};

/// Whether a node meets what is asked of it. Calls go no deeper than the tree.
#[cycle(walk)]
fn meets(walk: &Walk<'_>, asked: Asked) -> bool
    requires { HasNode walk.now.tree.now asked.node.0 }
    ensures { IsTrue result → MeetsAlways walk.now.tree.now walk.now.names.now asked.need asked.node.0 }
{
    let any = Spot {
        node: asked.node,
        callable: false,
        most: 12,
    };
    match asked.need {
        Need::Operand(callable, most) => are_met(
            walk,
            Spot {
                node: asked.node,
                callable,
                most,
            },
        ),
        Need::Inside => walk.is_held(asked.node) || are_met(walk, any),
        Need::Arguments => are_arguments(walk, asked.node),
    }
}

/// Whether what is asked below a node is met there.
#[cycle(walk)]
fn are_met(walk: &Walk<'_>, spot: Spot) -> bool
    requires { HasNode walk.now.tree.now spot.node.0 }
    ensures { IsTrue result → MeetsAlways walk.now.tree.now walk.now.names.now (Need.Operand spot.callable spot.most) spot.node.0 }
{
    match operands_of(walk, spot) {
        None => false,
        Some(Operands::Alone) => true,
        Some(Operands::One(only)) => meets(walk, only),
        Some(Operands::Two(left, right)) => meets(walk, left) && meets(walk, right),
    }
}

/// What may come behind a child of a list of arguments, if it may stand there.
#[cycle(walk)]
fn next_turn(walk: &Walk<'_>, turn: Turn, child: Element) -> Option<Turn>
    requires { HasElement walk.now.tree.now child }
    ensures { IfSome result (λ next. IsTurn walk.now.tree.now walk.now.names.now turn child next) }
{
    let argument = match child {
        Element::Token(token) => return turn_behind(walk, turn, token),
        Element::Node(argument) => argument,
    };
    match turn {
        Turn::Argument => {
            if meets(walk, inside(argument)) {
                return Some(Turn::Behind);
            }
            None
        }
        _ => None,
    }
}

/// Whether a node is a list of arguments.
#[cycle(walk)]
fn are_arguments(walk: &Walk<'_>, list: NodeNo) -> bool
    requires { HasNode walk.now.tree.now list.0 }
    ensures { IsTrue result → MeetsAlways walk.now.tree.now walk.now.names.now Need.Arguments list.0 }
{
    if !walk.tree.kind(list).is(SyntaxKind::ARG_LIST) {
        return false;
    }
    let mut turn = Turn::Opening;
    for child in walk.tree.children(list) {
        if !is_trivia(walk.tree, child) {
            let Some(next) = next_turn(walk, turn, child) else {
                return false;
            };
            turn = next;
        }
    }
    match turn {
        Turn::Closed => true,
        _ => false,
    }
}

/// Whether what was read is core, where names stand for other expressions: the tokens of these numbers. If the answer is no, it may
/// be core all the same.
pub fn is_core(tree: &Tree, names: &[TokenNo]) -> bool
    ensures { IsTrue result → (holes : Holes) → AreNames tree.now names.now holes → is_core_tree holes false 12 tree.now ≡ true }
{
    let walk = Walk { tree, names };
    are_met(
        &walk,
        Spot {
            node: NodeNo(0),
            callable: false,
            most: 12,
        },
    )
}
