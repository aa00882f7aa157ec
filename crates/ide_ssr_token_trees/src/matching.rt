//! Whether a token tree of the code matches one of a pattern.

ghost use Rattle.std.specs.Prelude.{◌≡◌, ◌<◌, ◌^◌, [], None, List, Option, ℕ, All, IfOk, if◌then◌else◌};
ghost use Rattle.std.specs.Option.{option_copied};
ghost use Rattle.ssr_syntax_tree.specs.Places.{Part, HasNode, HasToken, HasElement, node_of, token_of, part_of};
ghost use Rattle.ide_ssr_bindings.specs.declared.bindings.Binding.{Binding};
ghost use Rattle.ide_ssr_token_trees.specs.Bindings.{placeholder_in, placeholder_by, leaf_by, tree_bindings, Answers};
ghost use Rattle.ide_ssr_token_trees.specs.Elements.{without_trivia, is_number, next_text, tokens_among};
ghost use Rattle.ide_ssr_token_trees.specs.Private.Matching.{is_same, Steps, ElementSteps};
ghost use Rattle.ide_ssr_token_trees.specs.Private.Siblings.{siblings_left, parts_left, number_of, IsRest};

use crate::elements::tokens_match;
use crate::recording::Record;
use crate::siblings::Siblings;
use ide_ssr_bindings::Binding;
use ssr_syntax_tree::{Element, NodeNo, TokenNo, Tree};
use std::alloc::AllocError;

/// The tree of a pattern, and of each of its tokens which placeholder it is, if any.
#[derive(Drop)]
struct Pattern<'a> {
    tree: &'a Tree,
    placeholders: &'a [Option<u32>],
}

impl<'a> Pattern<'a> {
    /// Which placeholder a token is.
    fn placeholder_at(&self, token: TokenNo) -> Option<u32>
        ensures { result ≡ placeholder_in self.now.placeholders.now token.0 }
    {
        match self.placeholders.get(token.0 as usize) {
            Some(placeholder) => *placeholder,
            None => None,
        }
    }
}

/// Whether an element of the code is a token with the kind and the text of one of the pattern.
fn is_same(pattern: &Tree, token: TokenNo, code: &Tree, element: Element) -> bool
    requires p_in { HasToken pattern.now token.0 }
    requires c_in { HasElement code.now element }
    ensures { result ≡ is_same (token_of pattern.now token.0) (part_of code.now element) }
{
    match element {
        Element::Token(c) => tokens_match(pattern, token, code, c),
        Element::Node(_) => false,
    }
}

/// Whether a placeholder, behind which the pattern goes on with a text, can hold the next elements of the code; if so, `out`
/// gets that it does.
fn holds(
    placeholder: u32,
    text: Option<&str>,
    code: &Tree,
    cs: &mut Siblings<'_>,
    out: &mut Record,
) -> Result<bool, AllocError>
    requires cs_in { All (HasElement code.now) (siblings_left cs.old) }
    requires few { tokens_among (parts_left code.now cs.old) < 2 ^ 32 }
    ensures steps { IfOk result (λ answer. (behind : List Part → Option (List Binding)) → Steps (placeholder_by placeholder (option_copied text.entry) behind (parts_left code.now cs.old)) (behind (parts_left code.now cs.new)) out.old out.new answer) }
    ensures rest { IsRest cs.old [] cs.new }
{
    let Some(run) = cs.take_run(code, text) else {
        return Ok(false);
    };
    out.add(Binding::of_tokens(placeholder, run))?;
    Ok(true)
}

/// Whether a token of the pattern that is no placeholder matches the next element of the code, or is the comma before the
/// closing bracket.
fn plain_matches(
    pattern: &Tree,
    token: TokenNo,
    ps: &Siblings<'_>,
    code: &Tree,
    cs: &mut Siblings<'_>,
) -> bool
    requires p_in { HasToken pattern.now token.0 }
    requires cs_in { All (HasElement code.now) (siblings_left cs.old) }
    ensures steps { (text : Option (List ℕ)) (behind : List Part → Option (List Binding)) → leaf_by (number_of cs.old.comma) None (is_number (number_of ps.now.comma) token.0) (token_of pattern.now token.0) text behind (parts_left code.now cs.old) ≡ (if result then behind (parts_left code.now cs.new) else None) }
    ensures rest { IsRest cs.old [] cs.new }
{
    if ps.is_comma(token) {
        cs.pass(code);
        return true;
    }
    match cs.next_counted(code) {
        Some(next) => is_same(pattern, token, code, next),
        None => false,
    }
}

/// Whether a token of the pattern, before the elements `ps`, matches at the front of the elements `cs` of the code; if so, `out`
/// gets what it binds.
fn token_matches(
    pattern: &Pattern<'_>,
    token: TokenNo,
    ps: &mut Siblings<'_>,
    code: &Tree,
    cs: &mut Siblings<'_>,
    out: &mut Record,
) -> Result<bool, AllocError>
    requires p_in { HasToken pattern.now.tree.now token.0 }
    requires ps_in { All (HasElement pattern.now.tree.now) (siblings_left ps.old) }
    requires cs_in { All (HasElement code.now) (siblings_left cs.old) }
    requires few { tokens_among (parts_left code.now cs.old) < 2 ^ 32 }
    ensures steps { IfOk result (λ answer. (behind : List Part → Option (List Binding)) → Steps (leaf_by (number_of cs.old.comma) (placeholder_in pattern.now.placeholders.now token.0) (is_number (number_of ps.old.comma) token.0) (token_of pattern.now.tree.now token.0) (next_text (without_trivia (parts_left pattern.now.tree.now ps.old))) behind (parts_left code.now cs.old)) (behind (parts_left code.now cs.new)) out.old out.new answer) }
    ensures same { without_trivia (parts_left pattern.now.tree.now ps.new) ≡ without_trivia (parts_left pattern.now.tree.now ps.old) }
    ensures ps_rest { IsRest ps.old [] ps.new }
    ensures cs_rest { IsRest cs.old [] cs.new }
{
    match pattern.placeholder_at(token) {
        Some(placeholder) => {
            let text = ps.next_text(pattern.tree);
            holds(placeholder, text, code, cs, out)
        }
        None => Ok(plain_matches(pattern.tree, token, ps, code, cs)),
    }
}

/// Whether an element of the pattern, before the elements `ps`, matches at the front of the elements `cs` of the code; if so,
/// `out` gets what it binds.
#[cycle(matching)]
fn element_matches(
    pattern: &Pattern<'_>,
    p: Element,
    ps: &mut Siblings<'_>,
    code: &Tree,
    cs: &mut Siblings<'_>,
    out: &mut Record,
) -> Result<bool, AllocError>
    requires p_in { HasElement pattern.now.tree.now p }
    requires ps_in { All (HasElement pattern.now.tree.now) (siblings_left ps.old) }
    requires cs_in { All (HasElement code.now) (siblings_left cs.old) }
    requires few { tokens_among (parts_left code.now cs.old) < 2 ^ 32 }
    ensures steps { IfOk result (ElementSteps (placeholder_in pattern.now.placeholders.now) pattern.now.tree.now p ps.old code.now cs.old cs.new out.old out.new) }
    ensures same { without_trivia (parts_left pattern.now.tree.now ps.new) ≡ without_trivia (parts_left pattern.now.tree.now ps.old) }
    ensures ps_rest { IsRest ps.old [] ps.new }
    ensures cs_rest { IsRest cs.old [] cs.new }
{
    let p = match p {
        Element::Token(token) => {
            return token_matches(pattern, token, ps, code, cs, out);
        }
        Element::Node(p) => p,
    };
    let Some(next) = cs.next_counted(code) else {
        return Ok(false);
    };
    match next {
        Element::Node(c) => match_token_trees(pattern.placeholders, pattern.tree, p, code, c, out),
        Element::Token(_) => Ok(false),
    }
}

/// Whether the token tree `c` of the code matches the token tree `p` of the pattern; if so, `out` gets what the placeholders
/// hold. `placeholders` tells of each token of the pattern which placeholder it is, if any.
#[cycle(matching)]
pub fn match_token_trees(
    placeholders: &[Option<u32>],
    pattern: &Tree,
    p: NodeNo,
    code: &Tree,
    c: NodeNo,
    out: &mut Record,
) -> Result<bool, AllocError>
    requires p_in { HasNode pattern.now p.0 }
    requires c_in { HasNode code.now c.0 }
    ensures { IfOk result (λ answer. Answers (tree_bindings (placeholder_in placeholders.now) (node_of pattern.now p.0) (node_of code.now c.0)) out.old out.new answer) }
{
    let mut ps = Siblings::of(pattern, p);
    let mut cs = Siblings::of(code, c);
    let whole = Pattern {
        tree: pattern,
        placeholders,
    };
    while let Some(first) = ps.next_solid(pattern) {
        if !element_matches(&whole, first, &mut ps, code, &mut cs, out)? {
            return Ok(false);
        }
    }
    Ok(cs.next_counted(code).is_none())
}
