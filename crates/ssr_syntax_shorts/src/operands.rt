//! What has to be core below a node, if the node is to be.
ghost use Rattle.std.specs.Prelude.{◌≡◌, ◌+◌, ◌<◌, ◌∷◌, [], IfSome};
ghost use Rattle.ssr_syntax_exprs.specs.Expressions.{ranks};
ghost use Rattle.ssr_syntax.specs.Operands.{row_in};
ghost use Rattle.ssr_syntax_tree.specs.Places.{HasNode};
ghost use Rattle.ssr_syntax_places.specs.Core.{member_names};
ghost use Rattle.ssr_syntax_shorts.specs.Private.Operands.{asked_in, AreEnough};
ghost use Rattle.ssr_syntax_shorts.specs.Private.Shapes.{AreSolid};

use crate::paths::{is_name_ref, is_path};
use crate::shapes::{Shape, shape_of};
use crate::tokens::{Walk, is_one_of};
use ssr_syntax_kinds::SyntaxKind;
use ssr_syntax_tree::{Element, NodeNo, TokenNo};

/// What is asked of a node.
#[derive(Clone, Copy)]
pub(crate) enum Need {
    /// An expression of at most this precedence, which may be called if that is asked for.
    Operand(bool, u8),
    /// Any expression, or a name that stands for one.
    Inside,
    /// Arguments in parentheses.
    Arguments,
}

/// A node of which something is asked.
#[derive(Clone, Copy)]
pub(crate) struct Asked {
    pub(crate) node: NodeNo,
    pub(crate) need: Need,
}

/// The nodes below one that has its shape.
#[derive(Clone, Copy)]
pub(crate) enum Operands {
    Alone,
    One(Asked),
    Two(Asked, Asked),
}

/// A node that is to be core: of at most this precedence, and so that it may be called, if that is asked for.
#[derive(Clone, Copy)]
pub(crate) struct Spot {
    pub(crate) node: NodeNo,
    pub(crate) callable: bool,
    pub(crate) most: u8,
}

/// The tokens that are literals.
const LITERALS: &[SyntaxKind] = &[
    SyntaxKind::INT_NUMBER,
    SyntaxKind::FLOAT_NUMBER,
    SyntaxKind::STRING,
    SyntaxKind::BYTE_STRING,
    SyntaxKind::C_STRING,
    SyntaxKind::BYTE,
    SyntaxKind::CHAR,
    SyntaxKind::TRUE_KW,
    SyntaxKind::FALSE_KW,
];

/// The operators in front of an operand, but for `&`.
const PREFIX_OPERATORS: &[SyntaxKind] = &[SyntaxKind::MINUS, SyntaxKind::BANG, SyntaxKind::STAR];

/// The operators that compare.
const COMPARISONS: &[SyntaxKind] = &[
    SyntaxKind::EQ2,
    SyntaxKind::NEQ,
    SyntaxKind::L_ANGLE,
    SyntaxKind::R_ANGLE,
    SyntaxKind::LTEQ,
    SyntaxKind::GTEQ,
];

/// A literal.
fn literal(walk: &Walk<'_>, spot: Spot, token: TokenNo) -> Option<Operands>
    requires has { HasNode walk.now.tree.now spot.node.0 }
    requires shape { AreSolid walk.now.tree.now spot.node.0 (Element.Token token ∷ []) }
    ensures { IfSome result (λ operands. AreEnough walk.now.tree.now walk.now.names.now (Need.Operand spot.callable spot.most) spot.node.0 (asked_in operands)) }
{
    if walk.tree.kind(spot.node).is(SyntaxKind::LITERAL) && walk.is_mark(token, LITERALS) {
        return Some(Operands::Alone);
    }
    None
}

/// A path of names.
fn path(walk: &Walk<'_>, spot: Spot, path: NodeNo) -> Option<Operands>
    requires has { HasNode walk.now.tree.now spot.node.0 }
    requires shape { AreSolid walk.now.tree.now spot.node.0 (Element.Node path ∷ []) }
    ensures { IfSome result (λ operands. AreEnough walk.now.tree.now walk.now.names.now (Need.Operand spot.callable spot.most) spot.node.0 (asked_in operands)) }
{
    if walk.tree.kind(spot.node).is(SyntaxKind::PATH_EXPR)
        && walk.tree.kind(path).is(SyntaxKind::PATH)
        && is_path(walk, path)
    {
        return Some(Operands::Alone);
    }
    None
}

/// A node that is an operand.
fn operand(node: NodeNo, callable: bool, most: u8) -> Asked
    ensures node { result.node ≡ node }
    ensures need { result.need ≡ Need.Operand callable most }
{
    Asked {
        node,
        need: Need::Operand(callable, most),
    }
}

/// A node that stands between brackets.
pub(crate) fn inside(node: NodeNo) -> Asked
    ensures node { result.node ≡ node }
    ensures need { result.need ≡ Need.Inside }
{
    Asked {
        node,
        need: Need::Inside,
    }
}

/// An operator in front of an operand, as `-` or `&`.
fn in_front(walk: &Walk<'_>, spot: Spot, operator: TokenNo, right: NodeNo) -> Option<Operands>
    requires has { HasNode walk.now.tree.now spot.node.0 }
    requires shape { AreSolid walk.now.tree.now spot.node.0 (Element.Token operator ∷ Element.Node right ∷ []) }
    ensures { IfSome result (λ operands. AreEnough walk.now.tree.now walk.now.names.now (Need.Operand spot.callable spot.most) spot.node.0 (asked_in operands)) }
{
    if spot.most < 2 {
        return None;
    }
    let kind = walk.tree.kind(spot.node);
    if kind.is(SyntaxKind::PREFIX_EXPR) && walk.is_mark(operator, PREFIX_OPERATORS) {
        return Some(Operands::One(operand(right, spot.callable, 2)));
    }
    if kind.is(SyntaxKind::REF_EXPR) && walk.is_mark(operator, &[SyntaxKind::AMP]) {
        return Some(Operands::One(operand(right, spot.callable, 2)));
    }
    None
}

/// What stands in parentheses.
fn in_parentheses(
    walk: &Walk<'_>,
    spot: Spot,
    opening: TokenNo,
    within: NodeNo,
    closing: TokenNo,
) -> Option<Operands>
    requires has { HasNode walk.now.tree.now spot.node.0 }
    requires shape { AreSolid walk.now.tree.now spot.node.0 (Element.Token opening ∷ Element.Node within ∷ Element.Token closing ∷ []) }
    ensures { IfSome result (λ operands. AreEnough walk.now.tree.now walk.now.names.now (Need.Operand spot.callable spot.most) spot.node.0 (asked_in operands)) }
{
    if walk.tree.kind(spot.node).is(SyntaxKind::PAREN_EXPR)
        && walk.is_mark(opening, &[SyntaxKind::L_PAREN])
        && walk.is_mark(closing, &[SyntaxKind::R_PAREN])
    {
        return Some(Operands::One(inside(within)));
    }
    None
}

/// The rank of an operator between two operands, and one more for each that binds tighter.
fn rank_of(kind: SyntaxKind) -> Option<u8>
    ensures { IfSome result (λ rank. (row_in ranks kind ≡ rank) × (rank < 9)) }
{
    if is_one_of(
        kind,
        &[SyntaxKind::STAR, SyntaxKind::SLASH, SyntaxKind::PERCENT],
    ) {
        return Some(0);
    }
    if is_one_of(kind, &[SyntaxKind::PLUS, SyntaxKind::MINUS]) {
        return Some(1);
    }
    if is_one_of(kind, &[SyntaxKind::SHL, SyntaxKind::SHR]) {
        return Some(2);
    }
    if is_one_of(kind, &[SyntaxKind::AMP]) {
        return Some(3);
    }
    if is_one_of(kind, &[SyntaxKind::CARET]) {
        return Some(4);
    }
    if is_one_of(kind, &[SyntaxKind::PIPE]) {
        return Some(5);
    }
    if is_one_of(kind, COMPARISONS) {
        return Some(6);
    }
    if is_one_of(kind, &[SyntaxKind::AMP2]) {
        return Some(7);
    }
    if is_one_of(kind, &[SyntaxKind::PIPE2]) {
        return Some(8);
    }
    None
}

/// An operator between two operands.
fn between(
    walk: &Walk<'_>,
    spot: Spot,
    left: NodeNo,
    operator: TokenNo,
    right: NodeNo,
) -> Option<Operands>
    requires has { HasNode walk.now.tree.now spot.node.0 }
    requires shape { AreSolid walk.now.tree.now spot.node.0 (Element.Node left ∷ Element.Token operator ∷ Element.Node right ∷ []) }
    ensures { IfSome result (λ operands. AreEnough walk.now.tree.now walk.now.names.now (Need.Operand spot.callable spot.most) spot.node.0 (asked_in operands)) }
{
    let rank = rank_of(walk.tree.token_kind(operator))?;
    if spot.most < 4 + rank {
        return None;
    }
    if walk.tree.kind(spot.node).is(SyntaxKind::BIN_EXPR) && walk.is_own(operator) {
        let left = operand(left, false, 4 + rank);
        return Some(Operands::Two(left, operand(right, spot.callable, 3 + rank)));
    }
    None
}

/// A mutable reference.
fn mut_reference(
    walk: &Walk<'_>,
    spot: Spot,
    ampersand: TokenNo,
    word: TokenNo,
    right: NodeNo,
) -> Option<Operands>
    requires has { HasNode walk.now.tree.now spot.node.0 }
    requires shape { AreSolid walk.now.tree.now spot.node.0 (Element.Token ampersand ∷ Element.Token word ∷ Element.Node right ∷ []) }
    ensures { IfSome result (λ operands. AreEnough walk.now.tree.now walk.now.names.now (Need.Operand spot.callable spot.most) spot.node.0 (asked_in operands)) }
{
    if spot.most < 2 {
        return None;
    }
    if walk.tree.kind(spot.node).is(SyntaxKind::REF_EXPR)
        && walk.is_mark(ampersand, &[SyntaxKind::AMP])
        && walk.is_mark(word, &[SyntaxKind::MUT_KW])
    {
        return Some(Operands::One(operand(right, spot.callable, 2)));
    }
    None
}

/// A `?` behind an expression.
fn questioned(walk: &Walk<'_>, spot: Spot, left: NodeNo, question: TokenNo) -> Option<Operands>
    requires has { HasNode walk.now.tree.now spot.node.0 }
    requires shape { AreSolid walk.now.tree.now spot.node.0 (Element.Node left ∷ Element.Token question ∷ []) }
    ensures { IfSome result (λ operands. AreEnough walk.now.tree.now walk.now.names.now (Need.Operand spot.callable spot.most) spot.node.0 (asked_in operands)) }
{
    if spot.most < 1 {
        return None;
    }
    if walk.tree.kind(spot.node).is(SyntaxKind::TRY_EXPR)
        && walk.is_mark(question, &[SyntaxKind::QUESTION])
    {
        return Some(Operands::One(operand(left, false, 1)));
    }
    None
}

/// What a field may be named; one that is called has a number.
fn member_names(callable: bool) -> &'static [SyntaxKind]
    ensures { result.now ≡ member_names callable }
{
    if callable {
        &[SyntaxKind::INT_NUMBER]
    } else {
        &[SyntaxKind::INT_NUMBER, SyntaxKind::IDENT]
    }
}

/// A field of an expression.
fn field(walk: &Walk<'_>, spot: Spot, left: NodeNo, dot: TokenNo, name: NodeNo) -> Option<Operands>
    requires has { HasNode walk.now.tree.now spot.node.0 }
    requires shape { AreSolid walk.now.tree.now spot.node.0 (Element.Node left ∷ Element.Token dot ∷ Element.Node name ∷ []) }
    ensures { IfSome result (λ operands. AreEnough walk.now.tree.now walk.now.names.now (Need.Operand spot.callable spot.most) spot.node.0 (asked_in operands)) }
{
    if spot.most < 1 {
        return None;
    }
    if walk.tree.kind(spot.node).is(SyntaxKind::FIELD_EXPR)
        && walk.is_mark(dot, &[SyntaxKind::DOT])
        && is_name_ref(walk, name, member_names(spot.callable))
    {
        return Some(Operands::One(operand(left, false, 1)));
    }
    None
}

/// What stands between a field's two nodes or an operator's.
fn joined(
    walk: &Walk<'_>,
    spot: Spot,
    left: NodeNo,
    mark: TokenNo,
    right: NodeNo,
) -> Option<Operands>
    requires has { HasNode walk.now.tree.now spot.node.0 }
    requires shape { AreSolid walk.now.tree.now spot.node.0 (Element.Node left ∷ Element.Token mark ∷ Element.Node right ∷ []) }
    ensures { IfSome result (λ operands. AreEnough walk.now.tree.now walk.now.names.now (Need.Operand spot.callable spot.most) spot.node.0 (asked_in operands)) }
{
    if walk.tree.kind(spot.node).is(SyntaxKind::FIELD_EXPR) {
        field(walk, spot, left, mark, right)
    } else {
        between(walk, spot, left, mark, right)
    }
}

/// An index behind an expression.
fn index(
    walk: &Walk<'_>,
    spot: Spot,
    left: NodeNo,
    opening: TokenNo,
    within: NodeNo,
    closing: TokenNo,
) -> Option<Operands>
    requires has { HasNode walk.now.tree.now spot.node.0 }
    requires shape { AreSolid walk.now.tree.now spot.node.0 (Element.Node left ∷ Element.Token opening ∷ Element.Node within ∷ Element.Token closing ∷ []) }
    ensures { IfSome result (λ operands. AreEnough walk.now.tree.now walk.now.names.now (Need.Operand spot.callable spot.most) spot.node.0 (asked_in operands)) }
{
    if spot.most < 1 {
        return None;
    }
    if walk.tree.kind(spot.node).is(SyntaxKind::INDEX_EXPR)
        && walk.is_mark(opening, &[SyntaxKind::L_BRACK])
        && walk.is_mark(closing, &[SyntaxKind::R_BRACK])
    {
        return Some(Operands::Two(operand(left, false, 1), inside(within)));
    }
    None
}

/// Arguments in parentheses.
fn list(node: NodeNo) -> Asked
    ensures node { result.node ≡ node }
    ensures need { result.need ≡ Need.Arguments }
{
    Asked {
        node,
        need: Need::Arguments,
    }
}

/// A call.
fn call(walk: &Walk<'_>, spot: Spot, left: NodeNo, arguments: NodeNo) -> Option<Operands>
    requires has { HasNode walk.now.tree.now spot.node.0 }
    requires shape { AreSolid walk.now.tree.now spot.node.0 (Element.Node left ∷ Element.Node arguments ∷ []) }
    ensures { IfSome result (λ operands. AreEnough walk.now.tree.now walk.now.names.now (Need.Operand spot.callable spot.most) spot.node.0 (asked_in operands)) }
{
    if spot.most < 1 {
        return None;
    }
    if walk.tree.kind(spot.node).is(SyntaxKind::CALL_EXPR) {
        return Some(Operands::Two(operand(left, true, 1), list(arguments)));
    }
    None
}

/// A call of a method.
fn method_call(
    walk: &Walk<'_>,
    spot: Spot,
    left: NodeNo,
    dot: TokenNo,
    name: NodeNo,
    arguments: NodeNo,
) -> Option<Operands>
    requires has { HasNode walk.now.tree.now spot.node.0 }
    requires shape { AreSolid walk.now.tree.now spot.node.0 (Element.Node left ∷ Element.Token dot ∷ Element.Node name ∷ Element.Node arguments ∷ []) }
    ensures { IfSome result (λ operands. AreEnough walk.now.tree.now walk.now.names.now (Need.Operand spot.callable spot.most) spot.node.0 (asked_in operands)) }
{
    if spot.most < 1 {
        return None;
    }
    if walk.tree.kind(spot.node).is(SyntaxKind::METHOD_CALL_EXPR)
        && walk.is_mark(dot, &[SyntaxKind::DOT])
        && is_name_ref(walk, name, &[SyntaxKind::IDENT])
    {
        return Some(Operands::Two(operand(left, false, 1), list(arguments)));
    }
    None
}

/// What is asked of the nodes below one that is to be core; nothing of one that isn't, by its shape.
pub(crate) fn operands_of(walk: &Walk<'_>, spot: Spot) -> Option<Operands>
    requires { HasNode walk.now.tree.now spot.node.0 }
    ensures { IfSome result (λ operands. AreEnough walk.now.tree.now walk.now.names.now (Need.Operand spot.callable spot.most) spot.node.0 (asked_in operands)) }
{
    match shape_of(walk.tree, spot.node)? {
        Shape::One(Element::Token(token)) => literal(walk, spot, token),
        Shape::One(Element::Node(inner)) => path(walk, spot, inner),
        Shape::Two(Element::Token(operator), Element::Node(right)) => {
            in_front(walk, spot, operator, right)
        }
        Shape::Three(Element::Token(opening), Element::Node(within), Element::Token(closing)) => {
            in_parentheses(walk, spot, opening, within, closing)
        }
        Shape::Three(Element::Node(left), Element::Token(operator), Element::Node(right)) => {
            joined(walk, spot, left, operator, right)
        }
        Shape::Three(Element::Token(first), Element::Token(second), Element::Node(right)) => {
            mut_reference(walk, spot, first, second, right)
        }
        Shape::Two(Element::Node(left), Element::Token(question)) => questioned(
            walk, spot, left, question,
        ),
        Shape::Two(Element::Node(left), Element::Node(arguments)) => call(
            walk, spot, left, arguments,
        ),
        Shape::Four(
            Element::Node(left),
            Element::Token(opening),
            Element::Node(within),
            Element::Token(closing),
        ) => { index(walk, spot, left, opening, within, closing) }
        Shape::Four(
            Element::Node(left),
            Element::Token(dot),
            Element::Node(name),
            Element::Node(arguments),
        ) => { method_call(walk, spot, left, dot, name, arguments) }
        _ => None,
    }
}
