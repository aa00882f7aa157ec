//! The trees of a workspace: those of files, and of what macro calls in them stand for.

ghost use Rattle.std.specs.Prelude.{is_some, ◌≡◌, ◌+◌, ◌<◌, ◌≤◌, ◌↔◌, IfOk, IfSome, IfNone, OnErr, Some, None, if◌then◌else◌, length, map};
ghost use Rattle.ssr_base_trees.specs.Origins.{span_of, plain_origin};
ghost use Rattle.ssr_syntax_tree.specs.Syntax.{token_count};
ghost use Rattle.ssr_syntax_tree.specs.Places.{HasToken, node_of};
ghost use Rattle.std.specs.Option.{option_copied, option_map, option_and_then};
ghost use Rattle.ssr_base_trees.specs.Texts.{text_between};
ghost use Rattle.ssr_base_trees.specs.Workspace.{trees, with_number, tree_of, file_of, nesting, text_of, above, expansion_of, has_node, has_run, own_span, own_run_span, original, original_run, original_range, run_range, file_span_of};
ghost use Rattle.ssr_base_trees.specs.Built.{IsBuilt, most_trees};
ghost use Rattle.ssr_base_trees.specs.Growth.{only_files, only_files_of, with_tree, IsFree, IsOfCall};
ghost use Rattle.ssr_base_trees.specs.Private.Stored.{IsStoredAt};

use crate::covers::{Cover, cover_all, covers};
use crate::ids::{FileId, FileRange, NodeId, TokenRun};
use ssr_syntax_kinds::{Reach, TextRange};
use ssr_syntax_tree::{Element, NodeNo, TokenNo, Tree};
use std::alloc::{AllocError, Global};
use std::collections::BTreeMap;
use std::marker::Model;

/// What a macro call stands for.
#[derive(Drop)]
struct Expanded {
    tree: Tree,
    call: NodeId,
    /// Where each token of the tree comes from.
    origins: Vec<Option<TextRange>>,
    /// What covers the origins of the tokens below each node.
    covers: Vec<Cover>,
    /// The file at the top.
    file: u32,
    /// How many calls there are from the tree up to the file at the top.
    nesting: u32,
}

/// The trees of files, and of what macro calls in them stand for. File number i has tree i, expansion number j the tree
/// behind those of all files and of j expansions.
#[derive(Drop)]
pub struct Trees {
    /// How much of Rust the texts are read in.
    reach: Reach,
    files: Vec<Tree>,
    expansions: Vec<Expanded>,
    /// The numbers of the expansions by their calls.
    calls: BTreeMap<NodeId, u32>,
}

impl Model for Trees {
    ghost use Rattle.ssr_base_trees.specs.Workspace.{Workspace as WorkspaceValue};
    ghost use Rattle.ssr_base_trees.specs.WorkspaceCode.{workspace_code};

    ghost Value = { WorkspaceValue };

    ghost coded = { workspace_code };

    ghost use Rattle.ssr_base_trees.specs.Private.Stored.{workspace_of, IsStored};

    ghost view = { workspace_of };

    ghost invariant = { IsStored };
}

/// The bytes of a text in a range that lies between characters of it.
fn text_between(text: &str, range: TextRange) -> Option<&str>
    ensures { option_copied result ≡ text_between range.start range.end text.now }
{
    let (start, end) = (range.start as usize, range.end as usize);
    if text.is_char_boundary(start) && text.is_char_boundary(end) {
        Some(&text[start..end])
    } else {
        None
    }
}

/// The range of a node in its tree, if there is such a node.
fn own_range(tree: &Tree, node: NodeNo) -> Option<TextRange>
    ensures { option_map span_of result ≡ (if has_node tree.now node.0 then Some (own_span tree.now (node_of tree.now node.0)) else None) }
{
    if tree.has(Element::Node(node)) {
        Some(tree.range(node))
    } else {
        None
    }
}

/// The last one of these tokens, if a tree has them all, and they are some.
fn last_of(tree: &Tree, run: TokenRun) -> Option<TokenNo>
    ensures has { IfSome result (λ last. HasToken tree.now last.0) }
    ensures last { IfSome result (λ last. 1 + last.0 ≡ run.first + run.count) }
    ensures there { is_some result ≡ has_run tree.now run }
{
    let count = tree.token_count();
    if run.count == 0 || run.first >= count || run.count > count - run.first {
        return None;
    }
    Some(TokenNo(run.first + (run.count - 1)))
}

/// The range of these tokens in their tree, if it has them.
fn own_run_range(tree: &Tree, run: TokenRun) -> Option<TextRange>
    ensures { option_map span_of result ≡ (if has_run tree.now run then Some (own_run_span tree.now run) else None) }
{
    let last = last_of(tree, run)?;
    let start = tree.token_range(TokenNo(run.first)).start;
    Some(TextRange::new(start, tree.token_range(last).end))
}

impl Trees {
    /// Those of files alone, each read of a text and not too deep.
    pub fn of_files(alloc: Global, files: Vec<Tree>) -> Trees
        requires { IsBuilt (only_files files.items) }
        ensures { result ≡ only_files files.items }
    {
        Trees::of_files_of(alloc, Reach::Stated, files)
    }

    /// The same, where so much of Rust is read.
    pub fn of_files_of(alloc: Global, reach: Reach, files: Vec<Tree>) -> Trees
        requires { IsBuilt (only_files_of reach files.items) }
        ensures { result ≡ only_files_of reach files.items }
    {
        Trees {
            reach,
            files,
            expansions: Vec::new(alloc),
            calls: BTreeMap::new(alloc),
        }
    }

    /// Adds the tree of a call of an earlier tree that has no expansion yet. Where there is no memory for it, all stays as it
    /// was.
    pub fn add_tree(
        &mut self,
        alloc: Global,
        call: NodeId,
        tree: Tree,
        origins: Vec<Option<TextRange>>,
    ) -> Result<(), AllocError>
        requires room { length self.old.files + length self.old.expansions < most_trees }
        requires free { IsFree self.old call }
        requires of_call { IsOfCall self.old (record { call = call; syntax = tree; origins = map plain_origin origins.items }) }
        requires counted { length origins.items ≡ token_count tree.children }
        ensures added { IfOk result (λ _. self.new ≡ with_tree self.old call tree (map plain_origin origins.items)) }
        ensures unchanged { OnErr result (self.new ≡ self.old) }
    {
        let covers = covers(alloc, &tree, &origins)?;
        let expanded = Expanded {
            tree,
            call,
            origins,
            covers,
            file: self.file_of(call.tree),
            nesting: self.nesting(call.tree) + 1,
        };
        let number = self.expansion_count();
        // with room for the expansion, nothing fails behind the call
        self.expansions.reserve(1)?;
        self.calls.insert(call, number)?;
        match self.expansions.push(expanded) {
            Ok(()) => Ok(()),
            Err(_) => unreachable!(),
        }
    }

    /// How much of Rust the texts are read in.
    pub fn reach(&self) -> Reach
        ensures { result ≡ self.now.reach }
    {
        self.reach
    }

    /// How many files there are.
    pub fn file_count(&self) -> u32
        ensures count { result ≡ length self.now.files }
        ensures built { IsBuilt self.now }
    {
        self.files.len() as u32
    }

    /// The tree of a number.
    pub fn tree(&self, tree: u32) -> Option<&Tree>
        ensures { option_copied result ≡ tree_of self.now tree }
    {
        if tree < self.file_count() {
            return self.files.get(tree as usize);
        }
        match self.expansion(tree) {
            Some(expansion) => Some(&expansion.tree),
            None => None,
        }
    }

    /// Where a node comes from: of a node of a file its own range; of one of an expansion the least range that covers the
    /// origins of its tokens, if there is a token and all have one. It lies in the file at the top, between characters.
    pub fn original_range(&self, node: NodeId) -> Option<FileRange>
        ensures { option_map file_span_of result ≡ original_range (trees self.now) node }
    {
        let range = self.original(node)?;
        Some(FileRange {
            file_id: FileId(self.file_of(node.tree)),
            range,
        })
    }

    /// Where tokens of a tree come from that follow each other: those of a file have their own range, of others it is the
    /// least one that covers their origins, if all have one. There has to be a token, and the tree has to have them all.
    pub fn original_range_of_tokens(&self, tree: u32, run: TokenRun) -> Option<FileRange>
        ensures { option_map file_span_of result ≡ run_range (trees self.now) tree run }
    {
        let range = self.original_run(tree, run)?;
        Some(FileRange {
            file_id: FileId(self.file_of(tree)),
            range,
        })
    }

    /// What stands directly above a node: its parent, or, above the root of an expansion, the call.
    pub fn above(&self, node: NodeId) -> Option<NodeId>
        ensures { result ≡ above (trees self.now) node }
    {
        let tree = self.tree(node.tree)?;
        if !tree.has(Element::Node(node.node)) {
            return None;
        }
        match tree.parent(node.node) {
            Some(parent) => Some(NodeId {
                tree: node.tree,
                node: parent,
            }),
            None => self.call_of(node.tree),
        }
    }

    /// The root of what a call stands for.
    pub fn expansion_of(&self, call: NodeId) -> Option<NodeId>
        ensures { result ≡ expansion_of self.now call }
    {
        match self.calls.get(&call) {
            Some(number) => Some(NodeId {
                tree: self.file_count() + *number,
                node: NodeNo(0),
            }),
            None => None,
        }
    }

    /// The text of a range of a file, if the range lies between characters of it.
    pub fn text(&self, range: FileRange) -> Option<&str>
        ensures { option_copied result ≡ text_of self.now range }
    {
        match self.files.get(range.file_id.0 as usize) {
            Some(tree) => text_between(tree.source(), range.range),
            None => None,
        }
    }

    /// How many expansions there are.
    pub fn expansion_count(&self) -> u32
        ensures { result ≡ length self.now.expansions }
    {
        self.expansions.len() as u32
    }

    /// Where a node comes from in the file at the top.
    fn original(&self, node: NodeId) -> Option<TextRange>
        ensures { option_map span_of result ≡ original (trees self.now) node }
    {
        match self.expansion(node.tree) {
            Some(expansion) => expansion.covers.get(node.node.0 as usize)?.range(),
            None => own_range(self.files.get(node.tree as usize)?, node.node),
        }
    }

    /// Where tokens come from in the file at the top.
    fn original_run(&self, tree: u32, run: TokenRun) -> Option<TextRange>
        ensures { option_map span_of result ≡ original_run (trees self.now) tree run }
    {
        match self.expansion(tree) {
            Some(expansion) => {
                let last = last_of(&expansion.tree, run)?;
                let origins = expansion.origins.as_slice();
                cover_all(&origins[run.first as usize..last.0 as usize + 1]).range()
            }
            None => own_run_range(self.files.get(tree as usize)?, run),
        }
    }

    /// The expansion that has a tree.
    fn expansion(&self, tree: u32) -> Option<&Expanded>
        ensures found { IfSome result (λ e. IsStoredAt self.now tree e.now) }
        ensures none { IfNone result (length self.now.files ≤ tree → length self.now.files + length self.now.expansions ≤ tree) }
    {
        if tree < self.file_count() {
            return None;
        }
        self.expansions.get((tree - self.file_count()) as usize)
    }

    /// The call that a tree stands for.
    fn call_of(&self, tree: u32) -> Option<NodeId>
        ensures { result ≡ option_and_then (λ p. p.call) (with_number (trees self.now) tree) }
    {
        match self.expansion(tree) {
            Some(expansion) => Some(expansion.call),
            None => None,
        }
    }

    /// The file at the top of a tree.
    pub fn file_of(&self, tree: u32) -> u32
        ensures { result ≡ file_of (trees self.now) tree }
    {
        match self.expansion(tree) {
            Some(expansion) => expansion.file,
            None => tree,
        }
    }

    /// How many calls there are from a tree up to its file.
    pub fn nesting(&self, tree: u32) -> u32
        ensures { result ≡ nesting (trees self.now) tree }
    {
        match self.expansion(tree) {
            Some(expansion) => expansion.nesting,
            None => 0,
        }
    }
}
