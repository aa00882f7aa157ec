//! Placeholders in macro calls: nothing tests their constraints there.
ghost use Rattle.std.specs.Prelude.{◌≡◌, [], IfOk};
ghost use Rattle.std.specs.Option.{option_copied};
ghost use Rattle.ssr_syntax_tree.specs.Places.{HasNode, HasElement, node_of, part_of};
ghost use Rattle.ide_ssr_resolved_rule.specs.Names.{has};
ghost use Rattle.ide_ssr_rules.specs.MacroCalls.{is_token_tree, in_macro_call, untested_name, untested};
ghost use Rattle.ide_ssr_rules.specs.Private.MacroCalls.{HasAlso, ident_text, in_part, in_node, in_tree};
ghost use Rattle.ide_ssr_rules.specs.StandIns.{first_of};

use crate::elements::Element;
use crate::kinds::ParsedRule;
use ide_ssr_resolved_rule::{Names, stand_in_name};
use ssr_syntax_kinds::SyntaxKind;
use ssr_syntax_tree::{Element as Part, NodeNo, Tree};
use std::alloc::{AllocError, Global};

/// Whether a node of this kind is a token tree.
fn is_token_tree(kind: SyntaxKind) -> bool
    ensures { result ≡ is_token_tree kind }
{
    matches!(kind, SyntaxKind::TOKEN_TREE)
}

/// The text of a child of a node that is an identifier.
fn ident_text(tree: &Tree, part: Part) -> Option<&str>
    requires { HasElement tree.now part }
    ensures { option_copied result ≡ ident_text (part_of tree.now part) }
{
    match part {
        Part::Token(token) if matches!(tree.token_kind(token), SyntaxKind::IDENT) => {
            Some(tree.token_text(token))
        }
        _ => None,
    }
}

/// Names, and the one whose stand-in a child of a node is, if it is one.
fn with_part<'a>(names: Names<'a>, tree: &'a Tree, part: Part) -> Result<Names<'a>, AllocError>
    requires { HasElement tree.now part }
    ensures { IfOk result (λ all. HasAlso names.entry (in_part (part_of tree.now part)) all) }
{
    let Some(text) = ident_text(tree, part) else {
        return Ok(names);
    };
    match stand_in_name(text) {
        Some(name) => Ok(names.with(name)?),
        None => Ok(names),
    }
}

/// Names, and those whose stand-ins stand in a node, if it is a token tree.
fn with_node<'a>(names: Names<'a>, tree: &'a Tree, node: NodeNo) -> Result<Names<'a>, AllocError>
    requires { HasNode tree.now node.0 }
    ensures { IfOk result (λ all. HasAlso names.entry (in_node (node_of tree.now node.0)) all) }
{
    let mut names = names;
    if !is_token_tree(tree.kind(node)) {
        return Ok(names);
    }
    for part in tree.children(node) {
        names = with_part(names, tree, part)?;
    }
    Ok(names)
}

/// Names, and those whose stand-ins stand in the token trees of a pattern.
fn with_pattern<'a>(names: Names<'a>, pattern: &'a Tree) -> Result<Names<'a>, AllocError>
    ensures { IfOk result (λ all. HasAlso names.entry (in_tree pattern.now) all) }
{
    let mut names = names;
    for number in 0..pattern.node_count() {
        names = with_node(names, pattern, NodeNo(number))?;
    }
    Ok(names)
}

/// The names whose stand-ins stand in token trees of patterns.
fn called_names<'a>(alloc: Global, kinds: &'a [ParsedRule]) -> Result<Names<'a>, AllocError>
    ensures { IfOk result (λ all. HasAlso [] (in_macro_call kinds.now) all) }
{
    let mut names = Names::new(alloc);
    for kind in kinds {
        names = with_pattern(names, &kind.pattern)?;
    }
    Ok(names)
}

impl<'a> Element<'a> {
    /// The name of a placeholder with constraints that is one of these names.
    fn constrained_name(&self, called: &Names<'_>) -> Option<&'a str>
        ensures { option_copied result ≡ untested_name (has called.now) self.now }
    {
        let Element::Placeholder(placeholder) = self else {
            return None;
        };
        let name = placeholder.name();
        if placeholder.is_constrained() && called.has(name) {
            Some(name)
        } else {
            None
        }
    }
}

/// The name of the first placeholder with constraints in a pattern that is one of these names.
fn first_constrained<'a>(pattern: &[Element<'a>], called: &Names<'_>) -> Option<&'a str>
    ensures { option_copied result ≡ first_of (untested_name (has called.now)) pattern.now }
{
    for element in pattern {
        if let Some(name) = element.constrained_name(called) {
            return Some(name);
        }
    }
    None
}

/// The name of the first placeholder in a pattern whose constraints nothing tests.
pub(crate) fn untested<'a>(
    alloc: Global,
    kinds: &[ParsedRule],
    pattern: &[Element<'a>],
) -> Result<Option<&'a str>, AllocError>
    ensures { IfOk result (λ name. option_copied name ≡ untested kinds.now pattern.now) }
{
    let called = called_names(alloc, kinds)?;
    Ok(first_constrained(pattern, &called))
}
