//! The comments that a match keeps: those below its node that no placeholder holds.

ghost use Rattle.std.specs.Prelude.{◌≡◌, ◌++◌, ◌==◌, ◌&&◌, All, IfOk, OnOk, string_bytes};
ghost use Rattle.ssr_syntax_tree.specs.Places.{HasNode, HasToken, node_of, token_of};
ghost use Rattle.ssr_base_trees.specs.Workspace.{run_of};
ghost use Rattle.ide_ssr_bindings.specs.Apart.{HasHeld, tokens_held};
ghost use Rattle.ide_ssr_rewriting.specs.Comments.{is_comment, kept_comments, comment_text, comments_text};
ghost use Rattle.ide_ssr_rewriting.specs.Private.Comments.{left_in, bound_from};

use ide_ssr_bindings::{Binding, Held};
use ssr_base_trees::TokenRun;
use ssr_syntax_kinds::SyntaxKind;
use ssr_syntax_tree::{NodeNo, TokenNo, Tree};
use std::alloc::{AllocError, Global};

#[tactic(auto, unfolding(crate::specs::Comments::is_comment))]
fn is_comment(kind: SyntaxKind) -> bool
    ensures { result ≡ is_comment kind }
{
    matches!(kind, SyntaxKind::COMMENT)
}

/// The tokens that are held.
fn tokens_held(tree: &Tree, held: Held) -> TokenRun
    requires { HasHeld tree.now held }
    ensures { result ≡ tokens_held tree.now held }
{
    match held {
        Held::Node(node) => run_of(tree, node),
        Held::Tokens(run) => run,
    }
}

/// The tokens of the node.
fn run_of(tree: &Tree, node: NodeNo) -> TokenRun
    requires { HasNode tree.now node.0 }
    ensures { result ≡ run_of (node_of tree.now node.0) }
{
    let tokens = tree.tokens_below(node);
    TokenRun {
        first: tokens.start,
        count: tokens.end - tokens.start,
    }
}

/// How many tokens of the run come from this one on; none where it is none of the run.
fn left_in(run: TokenRun, token: TokenNo) -> u32
    ensures { result ≡ left_in run token }
{
    if run.first <= token.0 {
        run.count.saturating_sub(token.0 - run.first)
    } else {
        0
    }
}

/// How many tokens come from this one on in the first run with it that a placeholder holds; none where none holds it.
fn bound_from(tree: &Tree, bindings: &[Binding], token: TokenNo) -> u32
    requires { All (λ binding. HasHeld tree.now binding.held) bindings.now }
    ensures { result ≡ bound_from tree.now token bindings.now }
{
    for binding in bindings {
        let held = left_in(tokens_held(tree, binding.held), token);
        if held > 0 {
            return held;
        }
    }
    0
}

/// Whether the token, from which on so many tokens are held, is a comment that no placeholder holds.
fn is_kept_comment(tree: &Tree, token: TokenNo, held: u32) -> bool
    requires { HasToken tree.now token.0 }
    ensures { result ≡ (is_comment (token_of tree.now token.0).kind && held == 0) }
{
    is_comment(tree.token_kind(token)) && held == 0
}

/// The comments that a match at the node keeps, which binds these, in order.
pub fn kept_comments(
    alloc: Global,
    tree: &Tree,
    node: NodeNo,
    bindings: &[Binding],
) -> Result<Vec<TokenNo>, AllocError>
    requires node { HasNode tree.now node.0 }
    requires bindings { All (λ binding. HasHeld tree.now binding.held) bindings.now }
    ensures comments { IfOk result (λ comments. comments.items ≡ kept_comments tree.now node.0 bindings.now) }
    ensures has { IfOk result (λ comments. All (λ token. HasToken tree.now token.0) comments.items) }
{
    let mut comments = Vec::new(alloc);
    let tokens = tree.tokens_below(node);
    let mut number = tokens.start;
    while number < tokens.end {
        let token = TokenNo(number);
        let bound = bound_from(tree, bindings, token);
        if is_kept_comment(tree, token, bound) {
            comments.push(token)?;
        }
        // What a placeholder holds is passed over.
        number += bound.max(1).min(tokens.end - number);
    }
    Ok(comments)
}

/// Adds the text of a comment, and a line break if the comment goes to the end of its line: else it would swallow
/// what follows.
fn push_comment(text: &mut String, comment: &str) -> Result<(), AllocError>
    ensures { OnOk result (string_bytes text.new ≡ string_bytes text.old ++ comment_text comment.now) }
{
    text.push_str(comment)?;
    if comment.starts_with("//") {
        text.push_str("\n")?;
    }
    Ok(())
}

/// Adds the texts of the comments.
pub fn push_comments(text: &mut String, tree: &Tree, comments: &[TokenNo]) -> Result<(), AllocError>
    requires { All (λ token. HasToken tree.now token.0) comments.now }
    ensures { OnOk result (string_bytes text.new ≡ string_bytes text.old ++ comments_text tree.now comments.now) }
{
    for comment in comments {
        push_comment(text, tree.token_text(*comment))?;
    }
    Ok(())
}
