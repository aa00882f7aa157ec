//! How a workspace is built.

ghost use Rattle.std.specs.Prelude.{◌≡◌, ◌≢◌, ◌+◌, ◌<◌, ◌≤◌, ◌↔◌, All, Ok, Err, IfOk, IfErr, IsOk, OnErr, length, map, take, drop, string_bytes};
ghost use Rattle.std.specs.List.{list_all};
ghost use Rattle.std.specs.Option.{option_map};
ghost use Rattle.ssr_syntax_kinds.specs.declared.reach.Reach.{Reach};
ghost use Rattle.ssr_syntax_tree.specs.Syntax.{node_count, tokens_of};
ghost use Rattle.ssr_syntax_tree.specs.Places.{HasNode, node_of};
ghost use Rattle.ssr_base_trees.specs.Workspace.{trees, text_at_top};
ghost use Rattle.ssr_syntax.specs.Reading.{IsRead, IsReadOf, file_reading};
ghost use Rattle.ssr_syntax.specs.Expansions.{expansion_reading, expansion_reading_of};
ghost use Rattle.ssr_base_trees.specs.Origins.{covered, fits_origin, plain_origin};
ghost use Rattle.ssr_base_trees.specs.Built.{most_trees};
ghost use Rattle.ssr_base.specs.Building.{read_as, with_file, with_expansion, with_reading, in_turn, is_call, first_call, free_call, checked_call, origin_of, count_in, cover_of_tokens, joined_origins, added, added_of, added_reading, Gives, Answers};
ghost use Rattle.ssr_base_trees.specs.Growth.{no_tree, only_files, only_files_of};
ghost use Rattle.ssr_base.specs.declared.workspace_error.WorkspaceError.TheVariants as errors;
ghost use Rattle.ssr_base.specs.Private.Finding.{NodesBefore, NodesFrom};

use crate::workspace::Workspace;
use crate::workspace_error::WorkspaceError;
use ssr_base_trees::{Cover, NodeId, Trees};
use ssr_syntax::{
    ExpToken, ExpansionKind, SyntaxError, SyntaxKind, parse_file_owned, parse_tokens,
};
use ssr_syntax_kinds::{Reach, TextRange};
use ssr_syntax_tree::{NodeNo, TokenNo, Tree};
use std::alloc::{AllocError, Global};

/// How many files and expansions there may be.
pub const MOST_TREES: usize = 65_536;

/// How many calls there may be from an expansion up to its file.
pub const MOST_NESTED: u32 = 32;

/// What a macro call stands for, as it is handed in.
#[derive(Debug, PartialEq, Eq, Drop)]
pub struct Expansion {
    /// The tree of the call, and the call's range in it.
    pub call: (u32, TextRange),
    pub kind: ExpansionKind,
    pub tokens: Vec<ExpToken>,
}

/// How many nodes of a tree begin before the byte `offset`: they are the first ones.
fn nodes_before(tree: &Tree, offset: u32) -> u32
    ensures within { result ≤ 1 + node_count tree.now.children }
    ensures before { NodesBefore tree.now offset result }
    ensures behind { NodesFrom tree.now offset result }
{
    let mut low = 0;
    let mut high = tree.node_count();
    while low < high {
        let middle = low + (high - low) / 2;
        if tree.range(NodeNo(middle)).start < offset {
            low = middle + 1;
        } else {
            high = middle;
        }
    }
    low
}

/// Whether a node is a macro call with exactly this range.
fn is_call(tree: &Tree, range: TextRange, node: NodeNo) -> bool
    requires { HasNode tree.now node.0 }
    ensures { result ≡ is_call tree.now range (node_of tree.now node.0) }
{
    let own = tree.range(node);
    tree.kind(node) == SyntaxKind::MACRO_CALL && own.start == range.start && own.end == range.end
}

/// The first macro call with exactly this range.
fn first_call(tree: &Tree, range: TextRange) -> Option<NodeNo>
    ensures { option_map (λ node. node.0) result ≡ option_map (λ node. node.number) (first_call tree.now range) }
{
    let mut next = nodes_before(tree, range.start);
    while next < tree.node_count() {
        let node = NodeNo(next);
        if is_call(tree, range, node) {
            return Some(node);
        }
        if tree.range(node).start != range.start {
            return None;
        }
        next += 1;
    }
    None
}

/// Whether a token has no origin, or one that has a byte and lies between characters of a text.
fn fits_origin(text: &str, token: &ExpToken) -> bool
    ensures { result ≡ fits_origin text.now (origin_of token.now) }
{
    match token.origin {
        Some(range) => {
            !range.is_empty()
                && text.is_char_boundary(range.start as usize)
                && text.is_char_boundary(range.end as usize)
        }
        None => true,
    }
}

/// Whether each token has no origin, or one that has a byte and lies between characters of a text.
fn fit_origins(text: &str, tokens: &[ExpToken]) -> bool
    ensures { result ≡ list_all (fits_origin text.now) (map origin_of tokens.now) }
{
    for token in tokens {
        if !fits_origin(text, token) {
            return false;
        }
    }
    true
}

/// Where a token comes from that is joined of the first ones of these tokens and has so many bytes, and the other tokens.
fn joined(bytes: usize, tokens: &[ExpToken]) -> (Option<TextRange>, &[ExpToken])
    ensures origin { plain_origin result.0 ≡ covered (cover_of_tokens (take (count_in bytes tokens.now) tokens.now)) }
    ensures rest { result.1.now ≡ drop (count_in bytes tokens.now) tokens.now }
{
    let mut cover = Cover::NoToken;
    let mut left = bytes;
    let mut rest = tokens;
    while left > 0 {
        let Some((token, others)) = rest.split_first() else {
            break;
        };
        cover = cover.join(Cover::of_token(token.origin));
        left = left.saturating_sub(token.text.len());
        rest = others;
    }
    (cover.range(), rest)
}

/// The origins of the tokens of a tree, each of which is one token or is joined of several.
fn joined_origins(
    alloc: Global,
    tree: &Tree,
    tokens: &[ExpToken],
) -> Result<Vec<Option<TextRange>>, AllocError>
    ensures { IfOk result (λ origins. map plain_origin origins.items ≡ joined_origins (tokens_of tree.now) tokens.now) }
{
    let mut origins = Vec::with_capacity(alloc, tree.token_count() as usize)?;
    let mut rest = tokens;
    for token in 0..tree.token_count() {
        let (origin, others) = joined(tree.token_text(TokenNo(token)).len(), rest);
        origins.push(origin)?;
        rest = others;
    }
    Ok(origins)
}

/// The tree of a file.
fn read_file(alloc: Global, number: u32, text: String) -> Result<Tree, WorkspaceError>
    ensures gives { Gives (read_as (WorkspaceError.File number) (file_reading (string_bytes text))) result }
    ensures read { IfOk result IsRead }
{
    match parse_file_owned(alloc, text) {
        Ok(tree) => Ok(tree),
        Err(SyntaxError::Memory) => Err(WorkspaceError::Memory),
        Err(error) => Err(WorkspaceError::File(number, error)),
    }
}

/// The tree of an expansion.
fn read_expansion(
    alloc: Global,
    number: u32,
    kind: ExpansionKind,
    tokens: &[ExpToken],
) -> Result<Tree, WorkspaceError>
    ensures gives { Gives (read_as (WorkspaceError.Expansion number) (expansion_reading kind tokens.now)) result }
    ensures read { IfOk result (λ tree. expansion_reading kind tokens.now ≡ Ok tree) }
{
    match parse_tokens(alloc, kind, tokens) {
        Ok(tree) => Ok(tree),
        Err(SyntaxError::Memory) => Err(WorkspaceError::Memory),
        Err(error) => Err(WorkspaceError::Expansion(number, error)),
    }
}

/// Refuses more files and expansions than there may be.
fn check_count(files: usize, expansions: usize) -> Result<(), WorkspaceError>
    ensures few { IfOk result (λ _. files + expansions ≤ most_trees) }
    ensures many { IfErr result (λ e. (e ≡ WorkspaceError.TooManyTrees) × (most_trees < files + expansions)) }
{
    if files > MOST_TREES || expansions > MOST_TREES - files {
        return Err(WorkspaceError::TooManyTrees);
    }
    Ok(())
}

/// The workspace of files alone.
fn read_files(alloc: Global, files: Vec<String>) -> Result<Workspace, WorkspaceError>
    requires { length files.items ≤ most_trees }
    ensures gives { Gives (in_turn with_file no_tree files.items) result }
    ensures counted { IfOk result (λ w. (length w.files ≡ length files.items) × (length w.expansions ≡ 0)) }
{
    let mut trees = Vec::new(alloc);
    for text in files {
        let tree = read_file(alloc, trees.len() as u32, text)?;
        trees.push(tree)?;
    }
    Ok(Workspace::of_trees(alloc, trees))
}

/// The macro call at a range of a tree, if it has no expansion yet.
fn free_call(trees: &Trees, tree: u32, range: TextRange) -> Option<NodeId>
    ensures { result ≡ free_call trees.now tree range }
{
    let node = first_call(trees.tree(tree)?, range)?;
    let call = NodeId { tree, node };
    match trees.expansion_of(call) {
        Some(_) => None,
        None => Some(call),
    }
}

/// The text of the file at the top of a tree.
fn text_at_top(workspace: &Trees, tree: u32) -> &str
    ensures { result.now ≡ text_at_top (trees workspace.now) tree }
{
    match workspace.tree(workspace.file_of(tree)) {
        Some(file) => file.source(),
        None => "",
    }
}

/// The call that an expansion names, if nothing is in the way of it.
fn checked_call(trees: &Trees, expansion: &Expansion) -> Result<NodeId, WorkspaceError>
    ensures { result ≡ checked_call trees.now expansion.now }
{
    let number = trees.expansion_count();
    let (tree, range) = expansion.call;
    let Some(call) = free_call(trees, tree, range) else {
        return Err(WorkspaceError::Call(number));
    };
    if trees.nesting(call.tree) >= MOST_NESTED {
        return Err(WorkspaceError::Nested(number));
    }
    if !fit_origins(text_at_top(trees, call.tree), &expansion.tokens) {
        return Err(WorkspaceError::Origin(number));
    }
    Ok(call)
}

impl Workspace {
    /// The trees of files and expansions, in their order. Refused, by the first of these that holds: more than 65,536 of
    /// them; the first file without a tree; then the first expansion whose call is none of an earlier tree or has an
    /// expansion already, that is nested more than 32 calls deep, that has an origin which is empty or isn't between
    /// characters of the file at the top, or that has no tree.
    pub fn build(
        alloc: Global,
        files: Vec<String>,
        expansions: Vec<Expansion>,
    ) -> Result<Workspace, WorkspaceError>
        ensures { Answers files.items expansions.items result }
    {
        check_count(files.len(), expansions.len())?;
        let mut workspace = read_files(alloc, files)?;
        for expansion in expansions {
            workspace.add_read(alloc, &expansion)?;
        }
        Ok(workspace)
    }

    /// The workspace of files alone, whose trees these are: each the reading of its text.
    pub fn of_trees(alloc: Global, trees: Vec<Tree>) -> Workspace
        requires few { length trees.items ≤ most_trees }
        requires read { All IsRead trees.items }
        ensures { result ≡ only_files trees.items }
    {
        Workspace::of_trees_of(alloc, Reach::Stated, trees)
    }

    /// The same, where so much of Rust is read.
    pub fn of_trees_of(alloc: Global, reach: Reach, trees: Vec<Tree>) -> Workspace
        requires few { length trees.items ≤ most_trees }
        requires read { All (IsReadOf reach) trees.items }
        ensures { result ≡ only_files_of reach trees.items }
    {
        Workspace {
            trees: Trees::of_files_of(alloc, reach, trees),
        }
    }

    /// Adds an expansion behind the others, with the tree that its tokens are read as. Refused, by the first of these that
    /// holds: there are 65,536 files and expansions; its call is none of an earlier tree or has an expansion already; it is
    /// nested more than 32 calls deep; it has an origin which is empty or isn't between characters of the file at the top.
    /// Want of memory is told only where nothing refuses it. Where it isn't added, the workspace is as it was.
    pub fn add(
        &mut self,
        alloc: Global,
        expansion: &Expansion,
        tree: Tree,
    ) -> Result<(), WorkspaceError>
        requires { expansion_reading expansion.now.kind expansion.now.tokens.items ≡ Ok tree }
        ensures added { IfOk result (λ _. added self.old expansion.now ≡ Ok self.new) }
        ensures refused { IfErr result (λ e. e ≢ errors.Memory → added self.old expansion.now ≡ Err e) }
        ensures memory { result ≡ Err errors.Memory → IsOk (added self.old expansion.now) }
        ensures unchanged { OnErr result (self.new ≡ self.old) }
    {
        self.add_as(alloc, expansion, tree)
    }

    /// The same, where its tokens are read in the workspace's reach.
    pub fn add_of(
        &mut self,
        alloc: Global,
        expansion: &Expansion,
        tree: Tree,
    ) -> Result<(), WorkspaceError>
        requires { expansion_reading_of self.old.reach expansion.now.kind expansion.now.tokens.items ≡ Ok tree }
        ensures added { IfOk result (λ _. added_of self.old expansion.now ≡ Ok self.new) }
        ensures refused { IfErr result (λ e. e ≢ errors.Memory → added_of self.old expansion.now ≡ Err e) }
        ensures memory { result ≡ Err errors.Memory → IsOk (added_of self.old expansion.now) }
        ensures unchanged { OnErr result (self.new ≡ self.old) }
    {
        self.add_as(alloc, expansion, tree)
    }

    /// Adds an expansion behind the others, with the tree that its tokens are read as in some reach.
    fn add_as(
        &mut self,
        alloc: Global,
        expansion: &Expansion,
        tree: Tree,
    ) -> Result<(), WorkspaceError>
        requires { (reach : Reach) × (expansion_reading_of reach expansion.now.kind expansion.now.tokens.items ≡ Ok tree) }
        ensures added { IfOk result (λ _. added_reading (Ok tree) self.old expansion.now ≡ Ok self.new) }
        ensures refused { IfErr result (λ e. e ≢ errors.Memory → added_reading (Ok tree) self.old expansion.now ≡ Err e) }
        ensures memory { result ≡ Err errors.Memory → IsOk (added_reading (Ok tree) self.old expansion.now) }
        ensures unchanged { OnErr result (self.new ≡ self.old) }
    {
        let files = self.trees.file_count() as usize;
        check_count(files + self.trees.expansion_count() as usize, 1)?;
        let call = checked_call(&self.trees, expansion)?;
        Ok(self.add_at(alloc, call, expansion, tree)?)
    }

    /// Adds an expansion behind the others, of which the tokens are read here.
    fn add_read(&mut self, alloc: Global, expansion: &Expansion) -> Result<(), WorkspaceError>
        requires { length self.old.files + length self.old.expansions < most_trees }
        ensures added { IfOk result (λ _. with_expansion self.old expansion.now ≡ Ok self.new) }
        ensures refused { IfErr result (λ e. Gives (with_expansion self.old expansion.now) (Err e)) }
    {
        let call = checked_call(&self.trees, expansion)?;
        let number = self.trees.expansion_count();
        let tree = read_expansion(alloc, number, expansion.kind, &expansion.tokens)?;
        Ok(self.add_at(alloc, call, expansion, tree)?)
    }

    /// Adds an expansion of a call that has been checked, with the tree of its tokens.
    fn add_at(
        &mut self,
        alloc: Global,
        call: NodeId,
        expansion: &Expansion,
        tree: Tree,
    ) -> Result<(), AllocError>
        requires room { length self.old.files + length self.old.expansions < most_trees }
        requires call { checked_call self.old expansion.now ≡ Ok call }
        requires read { (reach : Reach) × (expansion_reading_of reach expansion.now.kind expansion.now.tokens.items ≡ Ok tree) }
        ensures added { IfOk result (λ _. with_reading (Ok tree) self.old expansion.now ≡ Ok self.new) }
        ensures unchanged { OnErr result (self.new ≡ self.old) }
    {
        let origins = joined_origins(alloc, &tree, &expansion.tokens)?;
        self.trees.add_tree(alloc, call, tree, origins)
    }
}
