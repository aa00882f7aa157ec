//! The text that a template gives for a match.

ghost use Rattle.std.specs.Prelude.{◌≡◌, ◌+◌, ◌++◌, ◌^◌, ◌<◌, ◌≤◌, ◌==◌, ◌&&◌, [], if◌then◌else◌, nat_le, not, IfOk, IfSome, IsTrue, Some, true, length, map, slice_index_or, string_bytes};
ghost use Rattle.std.specs.List.{position};
ghost use Rattle.ssr_syntax_tree.specs.Syntax.{node_count};
ghost use Rattle.ssr_syntax_tree.specs.Places.{HasNode, HasToken, node_of};
ghost use Rattle.ide_ssr_resolved_rule.specs.Templates.{template_token};
ghost use Rattle.ssr_syntax_shorts.specs.Made.{is_piece as is_made_piece, text_of};
ghost use Rattle.ide_ssr_rewriting.specs.Private.Pieces.{piece_bytes};
ghost use Rattle.ide_ssr_rewriting.specs.Private.Parts.{is_expr, told, told_for};
ghost use Rattle.ide_ssr_rewriting.specs.Rendering.{piece_of, filling_of, text_for, is_piece, token_numbers, plain, is_node, wrapped_text, wrapped, takes_parentheses, rendered};

use crate::piece::Piece;
use ide_ssr_bindings::Binding;
use ide_ssr_resolved_rule::{ResolvedRule, TemplateToken};
use ssr_syntax::{Fragment, SyntaxError, fragment_of};
use ssr_syntax_kinds::TextRange;
use ssr_syntax_shorts::{MadeText, Part, put_together};
use ssr_syntax_tree::{NodeNo, TokenNo, Tree};
use std::alloc::{AllocError, Global};

/// The text that the rule's template gives for a match with these bindings, each of which has its piece: a part of a file's
/// text, or a text of its own. The used paths of the template are printed as these texts.
pub(crate) fn rendered(
    alloc: Global,
    rule: &ResolvedRule,
    bindings: &[Binding],
    pieces: &[Piece<'_>],
    printed: &[String],
) -> Result<MadeText, AllocError>
    ensures { IfOk result (λ text. text ≡ rendered rule.now (filling_of bindings.now (map piece_bytes pieces.now) (map string_bytes printed.now))) }
{
    let Some(template) = rule.template() else {
        return Ok(MadeText::new(rule.reach(), String::new(alloc)));
    };
    let rendering = Rendering {
        rule,
        template,
        bindings,
        pieces,
        printed,
    };
    let plain = rendering.plain(alloc)?;
    if let Some(text) = rendering.by_short(alloc, plain.as_str())? {
        return Ok(text);
    }
    if !takes_parentheses(rule.category()) {
        return Ok(MadeText::new(rule.reach(), plain));
    }
    match fragment_of(alloc, rule.reach(), rule.category(), plain.as_str()) {
        Ok((tree, front)) => {
            if rendering.are_nodes(&tree, front) {
                return Ok(MadeText::new(rule.reach(), plain));
            }
            let wrapped = rendering.wrapped(alloc, &tree, front)?;
            Ok(MadeText::new(rule.reach(), wrapped))
        }
        Err(SyntaxError::Memory) => Err(AllocError),
        Err(_) => Ok(MadeText::new(rule.reach(), plain)),
    }
}

/// Whether a template in this category gets parentheses.
fn takes_parentheses(category: Fragment) -> bool
    ensures { result ≡ takes_parentheses category }
{
    !matches!(category, Fragment::Ty | Fragment::Pat)
}

/// Whether this is the category of expressions.
fn is_expr(category: Fragment) -> bool
    ensures { result ≡ is_expr category }
{
    matches!(category, Fragment::Expr)
}

/// Whether one of the pieces was made.
fn has_made(pieces: &[Piece<'_>]) -> bool {
    pieces.iter().any(|piece| piece.is_made())
}

/// The place of the placeholder's binding, if it has one.
fn place_of_binding(bindings: &[Binding], placeholder: u32) -> Option<usize>
    ensures { result ≡ position (λ binding. binding.placeholder == placeholder) bindings.now }
{
    bindings
        .iter()
        .position(|binding| binding.placeholder == placeholder)
}

/// The piece of the placeholder whose name has this place.
#[tactic(auto, unfolding(crate::specs::Rendering::piece_of))]
fn piece<'a>(bindings: &[Binding], pieces: &'a [Piece<'_>], placeholder: u32) -> &'a str
    ensures { result.now ≡ piece_of bindings.now (map piece_bytes pieces.now) placeholder }
{
    let Some(place) = place_of_binding(bindings, placeholder) else {
        return "";
    };
    match pieces.get(place) {
        Some(piece) => piece.as_str(),
        None => "",
    }
}

/// The same piece, as a part.
#[tactic(auto, unfolding(crate::specs::Rendering::piece_of))]
fn piece_part<'a>(bindings: &[Binding], pieces: &'a [Piece<'_>], placeholder: u32) -> Part<'a>
    ensures text { text_of result ≡ piece_of bindings.now (map piece_bytes pieces.now) placeholder }
    ensures piece { is_made_piece result ≡ true }
{
    let Some(place) = place_of_binding(bindings, placeholder) else {
        return Part::Piece("");
    };
    match pieces.get(place) {
        Some(Piece::Code(text)) => Part::Piece(text),
        Some(Piece::Made(made)) => Part::Made(made),
        None => Part::Piece(""),
    }
}

/// The text for the used path with this place.
fn printed_at(printed: &[String], place: usize) -> &str
    ensures { result.now ≡ slice_index_or (map string_bytes printed.now) place [] }
{
    match printed.get(place) {
        Some(text) => text.as_str(),
        None => "",
    }
}

/// A rule's template, and what its placeholders and used paths become.
#[derive(Clone, Copy)]
struct Rendering<'a> {
    rule: &'a ResolvedRule,
    template: &'a Tree,
    bindings: &'a [Binding],
    pieces: &'a [Piece<'a>],
    printed: &'a [String],
}

impl<'a> Rendering<'a> {
    /// What a token of the template is.
    fn token(&self, token: TokenNo) -> TemplateToken
        requires template { self.now.rule.now.template ≡ Some self.now.template.now }
        requires has { HasToken self.now.template.now token.0 }
        ensures { result ≡ template_token self.now.rule.now self.now.template.now token.0 }
    {
        self.rule.template_token(token)
    }

    /// Whether a piece stands for the token of the template.
    fn is_piece(&self, token: TokenNo) -> bool
        requires template { self.now.rule.now.template ≡ Some self.now.template.now }
        requires has { HasToken self.now.template.now token.0 }
        ensures { result ≡ is_piece self.now.rule.now self.now.template.now token.0 }
    {
        matches!(self.token(token), TemplateToken::Placeholder(_))
    }

    /// What stands for the token of the template.
    fn text_for(&self, token: TokenNo) -> &'a str
        requires template { self.now.rule.now.template ≡ Some self.now.template.now }
        requires has { HasToken self.now.template.now token.0 }
        ensures { result.now ≡ text_for self.now.rule.now (filling_of self.now.bindings.now (map piece_bytes self.now.pieces.now) (map string_bytes self.now.printed.now)) self.now.template.now token.0 }
    {
        match self.token(token) {
            TemplateToken::Spelled => self.template.token_text(token),
            TemplateToken::Placeholder(place) => piece(self.bindings, self.pieces, place),
            TemplateToken::Path(place) => printed_at(self.printed, place),
            TemplateToken::InPath => "",
        }
    }

    /// The filled template. At first it gets the room of the template, whose stand-ins are as long as most pieces.
    fn plain(&self, alloc: Global) -> Result<String, AllocError>
        requires { self.now.rule.now.template ≡ Some self.now.template.now }
        ensures { IfOk result (λ text. string_bytes text ≡ plain self.now.rule.now (filling_of self.now.bindings.now (map piece_bytes self.now.pieces.now) (map string_bytes self.now.printed.now)) self.now.template.now (token_numbers self.now.template.now)) }
    {
        let mut text = String::with_capacity(alloc, self.template.source().len())?;
        for token in 0..self.template.token_count() {
            text.push_str(self.text_for(TokenNo(token)))?;
        }
        Ok(text)
    }

    /// What stands for the token of the template, as a part.
    fn part(&self, token: TokenNo) -> Part<'a>
        requires template { self.now.rule.now.template ≡ Some self.now.template.now }
        requires has { HasToken self.now.template.now token.0 }
        ensures text { text_of result ≡ text_for self.now.rule.now (filling_of self.now.bindings.now (map piece_bytes self.now.pieces.now) (map string_bytes self.now.printed.now)) self.now.template.now token.0 }
        ensures piece { is_made_piece result ≡ is_piece self.now.rule.now self.now.template.now token.0 }
    {
        match self.token(token) {
            TemplateToken::Spelled => Part::Words(self.template.token_text(token)),
            TemplateToken::Placeholder(place) => piece_part(self.bindings, self.pieces, place),
            TemplateToken::Path(place) => Part::Words(printed_at(self.printed, place)),
            TemplateToken::InPath => Part::Words(""),
        }
    }

    /// The parts of the filled template, one for each of its tokens.
    fn parts(&self, alloc: Global) -> Result<Vec<Part<'a>>, AllocError>
        requires { self.now.rule.now.template ≡ Some self.now.template.now }
        ensures { IfOk result (λ parts. map told parts.items ≡ map (told_for self.now.rule.now (filling_of self.now.bindings.now (map piece_bytes self.now.pieces.now) (map string_bytes self.now.printed.now)) self.now.template.now) (token_numbers self.now.template.now)) }
    {
        let mut parts = Vec::new(alloc);
        for token in 0..self.template.token_count() {
            parts.push(self.part(TokenNo(token)))?;
        }
        Ok(parts)
    }

    /// Whether short texts may tell the filled template: it is an expression, and one of its pieces was made.
    fn may_be_short(&self) -> bool
        ensures { IsTrue result → is_expr self.now.rule.now.category ≡ true }
    {
        is_expr(self.rule.category()) && has_made(self.pieces)
    }

    /// The filled template with its parentheses, if it is told by the short texts of its pieces. This saves the reading of a
    /// long text, of which all but the template was read before.
    fn by_short(&self, alloc: Global, text: &str) -> Result<Option<MadeText>, AllocError>
        requires template { self.now.rule.now.template ≡ Some self.now.template.now }
        requires text { text.now ≡ plain self.now.rule.now (filling_of self.now.bindings.now (map piece_bytes self.now.pieces.now) (map string_bytes self.now.printed.now)) self.now.template.now (token_numbers self.now.template.now) }
        ensures { IfOk result (λ answer. IfSome answer (λ text. text ≡ rendered self.now.rule.now (filling_of self.now.bindings.now (map piece_bytes self.now.pieces.now) (map string_bytes self.now.printed.now)))) }
    {
        if self.may_be_short() {
            let parts = self.parts(alloc)?;
            put_together(alloc, self.rule.reach(), &parts, text)
        } else {
            Ok(None)
        }
    }

    /// Whether no piece stands in parentheses: each is a node of the tree that was read of the filled template,
    /// without the first `front` bytes.
    fn are_nodes(&self, tree: &Tree, front: u32) -> bool
        requires template { self.now.rule.now.template ≡ Some self.now.template.now }
        requires length { length (plain self.now.rule.now (filling_of self.now.bindings.now (map piece_bytes self.now.pieces.now) (map string_bytes self.now.printed.now)) self.now.template.now (token_numbers self.now.template.now)) < 2 ^ 64 }
        ensures { IsTrue result → wrapped tree.now front self.now.rule.now (filling_of self.now.bindings.now (map piece_bytes self.now.pieces.now) (map string_bytes self.now.printed.now)) self.now.template.now 0 (token_numbers self.now.template.now) ≡ plain self.now.rule.now (filling_of self.now.bindings.now (map piece_bytes self.now.pieces.now) (map string_bytes self.now.printed.now)) self.now.template.now (token_numbers self.now.template.now) }
    {
        let mut at = 0;
        for token in 0..self.template.token_count() {
            let text = self.text_for(TokenNo(token));
            let is_piece = self.is_piece(TokenNo(token));
            if is_wrapped(tree, front, is_piece, at, text) {
                return false;
            }
            at += text.len();
        }
        true
    }

    /// The filled template, of which `tree` was read without the first `front` bytes: a piece that is no
    /// node of it stands in parentheses.
    fn wrapped(&self, alloc: Global, tree: &Tree, front: u32) -> Result<String, AllocError>
        requires template { self.now.rule.now.template ≡ Some self.now.template.now }
        requires length { length (plain self.now.rule.now (filling_of self.now.bindings.now (map piece_bytes self.now.pieces.now) (map string_bytes self.now.printed.now)) self.now.template.now (token_numbers self.now.template.now)) < 2 ^ 64 }
        ensures { IfOk result (λ text. string_bytes text ≡ wrapped tree.now front self.now.rule.now (filling_of self.now.bindings.now (map piece_bytes self.now.pieces.now) (map string_bytes self.now.printed.now)) self.now.template.now 0 (token_numbers self.now.template.now)) }
    {
        let mut wrapped = String::with_capacity(alloc, self.template.source().len())?;
        let mut at = 0;
        for token in 0..self.template.token_count() {
            let text = self.text_for(TokenNo(token));
            let is_piece = self.is_piece(TokenNo(token));
            push_wrapped(&mut wrapped, tree, front, is_piece, at, text)?;
            at += text.len();
        }
        Ok(wrapped)
    }
}

/// Whether the text of a token at a place of the filled template stands in parentheses: it is a piece and no node.
fn is_wrapped(tree: &Tree, front: u32, is_piece: bool, at: usize, text: &str) -> bool
    requires { at + length text.now < 2 ^ 64 }
    ensures { result ≡ (is_piece && not (is_node tree.now front at (at + length text.now))) }
{
    is_piece && !is_node(tree, front, at, at + text.len())
}

/// Pushes the text of a token at a place of the filled template, in parentheses if it is a piece and no node.
fn push_wrapped(
    out: &mut String,
    tree: &Tree,
    front: u32,
    is_piece: bool,
    at: usize,
    text: &str,
) -> Result<(), AllocError>
    requires { at + length text.now < 2 ^ 64 }
    ensures { IfOk result (λ _. string_bytes out.new ≡ string_bytes out.old ++ wrapped_text tree.now front is_piece at text.now) }
{
    if is_wrapped(tree, front, is_piece, at, text) {
        out.push_str("(")?;
        out.push_str(text)?;
        out.push_str(")")
    } else {
        out.push_str(text)
    }
}

/// Whether a node has exactly the bytes from one place to another of a text, of which the tree was read
/// without the first `front` bytes.
fn is_node(tree: &Tree, front: u32, from: usize, to: usize) -> bool
    ensures { result ≡ is_node tree.now front from to }
{
    let mut node = 0;
    while node < tree.node_count() {
        let range = tree.range(NodeNo(node));
        if is_range(front, range, from, to) {
            return true;
        }
        // What doesn't lie in a node is no node below it.
        node += 1 + below_unless(tree, NodeNo(node), holds_range(front, range, from, to));
    }
    false
}

/// Whether the range, `front` bytes further on, is that from one place to another.
fn is_range(front: u32, range: TextRange, from: usize, to: usize) -> bool
    ensures { result ≡ (front + range.start == from && front + range.end == to) }
{
    front as usize + range.start as usize == from && front as usize + range.end as usize == to
}

/// Whether the range, `front` bytes further on, holds that from one place to another.
fn holds_range(front: u32, range: TextRange, from: usize, to: usize) -> bool
    ensures { result ≡ (nat_le (front + range.start) from && nat_le to (front + range.end)) }
{
    front as usize + range.start as usize <= from && to <= front as usize + range.end as usize
}

/// How many nodes are below the node; none if they are to be looked at.
fn below_unless(tree: &Tree, node: NodeNo, look: bool) -> u32
    requires { HasNode tree.now node.0 }
    ensures count { result ≡ (if look then 0 else node_count (node_of tree.now node.0).children) }
    ensures within { node.0 + result ≤ node_count tree.now.children }
{
    if look { 0 } else { tree.below(node) }
}
