//! Which kinds of nodes are expressions, and which nodes a rule asks for.

ghost use Rattle.std.specs.Prelude.{◌≡◌};
ghost use Rattle.ide_ssr_debugging.specs.Expressions.{is_operand, is_operation, is_block, is_expression, asks};

use ssr_syntax_kinds::SyntaxKind;

/// Whether nodes of a kind are expressions.
#[tactic(auto, unfolding(crate::specs::Expressions::is_expression))]
pub fn is_expression(kind: SyntaxKind) -> bool
    ensures { result ≡ is_expression kind }
{
    is_operand(kind) || is_operation(kind) || is_block(kind)
}

/// Whether nodes of a kind are expressions that operations are made of.
fn is_operand(kind: SyntaxKind) -> bool
    ensures { result ≡ is_operand kind }
{
    match kind {
        SyntaxKind::LITERAL
        | SyntaxKind::PATH_EXPR
        | SyntaxKind::PAREN_EXPR
        | SyntaxKind::TUPLE_EXPR
        | SyntaxKind::ARRAY_EXPR
        | SyntaxKind::RECORD_EXPR
        | SyntaxKind::MACRO_EXPR
        | SyntaxKind::CLOSURE_EXPR
        | SyntaxKind::UNDERSCORE_EXPR
        | SyntaxKind::ATTR_EXPR => true,
        _ => false,
    }
}

/// Whether nodes of a kind are calls, accesses, or made with an operator.
fn is_operation(kind: SyntaxKind) -> bool
    ensures { result ≡ is_operation kind }
{
    match kind {
        SyntaxKind::CALL_EXPR
        | SyntaxKind::METHOD_CALL_EXPR
        | SyntaxKind::FIELD_EXPR
        | SyntaxKind::INDEX_EXPR
        | SyntaxKind::TRY_EXPR
        | SyntaxKind::AWAIT_EXPR
        | SyntaxKind::PREFIX_EXPR
        | SyntaxKind::REF_EXPR
        | SyntaxKind::CAST_EXPR
        | SyntaxKind::BIN_EXPR
        | SyntaxKind::RANGE_EXPR => true,
        _ => false,
    }
}

/// Whether nodes of a kind are expressions that say what is run.
fn is_block(kind: SyntaxKind) -> bool
    ensures { result ≡ is_block kind }
{
    match kind {
        SyntaxKind::BLOCK_EXPR
        | SyntaxKind::IF_EXPR
        | SyntaxKind::MATCH_EXPR
        | SyntaxKind::LOOP_EXPR
        | SyntaxKind::WHILE_EXPR
        | SyntaxKind::FOR_EXPR
        | SyntaxKind::LET_EXPR
        | SyntaxKind::RETURN_EXPR
        | SyntaxKind::BREAK_EXPR
        | SyntaxKind::CONTINUE_EXPR => true,
        _ => false,
    }
}

/// Whether a rule whose pattern's root has a kind asks for nodes of another one: those of its kind, and one of expressions for
/// all expressions.
pub(crate) fn asks(pattern: SyntaxKind, code: SyntaxKind) -> bool
    ensures { result ≡ asks pattern code }
{
    pattern.is(code) || (is_expression(pattern) && is_expression(code))
}
