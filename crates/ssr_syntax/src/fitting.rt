//! Whether a tree fits its text.
ghost use Rattle.std.specs.Prelude.{◌≡◌, ◌≢◌, ◌↔◌, Ok, Err, IsTrue, IfOk};
ghost use Rattle.ssr_syntax.specs.declared.syntax_error.SyntaxError.TheVariants.{Memory};
ghost use Rattle.ssr_syntax.specs.Reading.{IsTreeOfFile, IsTreeOfFileOf, IsTreeOfFragment, IsTreeOfFragmentOf};
ghost use Rattle.ssr_syntax.specs.Expansions.{IsTreeOfExpansion, IsTreeOfExpansionOf};
ghost use Rattle.ssr_syntax_tree.specs.Syntax.{source_of};

use crate::expansions::{ExpToken, ExpansionKind, parse_tokens_of};
use crate::reading::{fragment_of, parse_file_of};
use crate::syntax_error::SyntaxError;
use ssr_syntax_kinds::{Fragment, Reach};
use ssr_syntax_tree::Tree;
use std::alloc::{AllocError, Global};

/// Whether what was read is the tree. Want of memory is `AllocError`, and any other refusal is no tree.
fn is_answer(read: Result<Tree, SyntaxError>, tree: &Tree) -> Result<bool, AllocError>
    ensures { IfOk result (λ same. (IsTrue same ↔ (read ≡ Ok tree.now)) × (read ≢ Err Memory)) }
{
    match read {
        Ok(read) => Ok(read.is_same(tree)),
        Err(SyntaxError::Memory) => Err(AllocError),
        Err(_) => Ok(false),
    }
}

/// Whether the tree is that of its text as a file: it fits, and is no deeper than a tree may be. The text is read again,
/// which decides it, since no other tree fits. The error is want of memory.
pub fn fits_file(alloc: Global, tree: &Tree) -> Result<bool, AllocError>
    ensures { IfOk result (λ fits. IsTrue fits ↔ IsTreeOfFile (source_of tree.now) tree.now) }
{
    fits_file_of(alloc, Reach::Stated, tree)
}

/// The same, where so much of Rust is read.
pub fn fits_file_of(alloc: Global, reach: Reach, tree: &Tree) -> Result<bool, AllocError>
    ensures { IfOk result (λ fits. IsTrue fits ↔ IsTreeOfFileOf reach (source_of tree.now) tree.now) }
{
    is_answer(parse_file_of(alloc, reach, tree.source()), tree)
}

/// Whether the tree is that of its text as a fragment of this kind, in which no white space stands around it: it fits, and
/// is no deeper than a tree may be. The text is read again, which decides it. The error is want of memory.
pub fn fits_fragment(alloc: Global, kind: Fragment, tree: &Tree) -> Result<bool, AllocError>
    ensures { IfOk result (λ fits. IsTrue fits ↔ IsTreeOfFragment kind (source_of tree.now) tree.now) }
{
    fits_fragment_of(alloc, Reach::Stated, kind, tree)
}

/// The same, where so much of Rust is read.
pub fn fits_fragment_of(
    alloc: Global,
    reach: Reach,
    kind: Fragment,
    tree: &Tree,
) -> Result<bool, AllocError>
    ensures { IfOk result (λ fits. IsTrue fits ↔ IsTreeOfFragmentOf reach kind (source_of tree.now) tree.now) }
{
    match fragment_of(alloc, reach, kind, tree.source()) {
        Ok((read, _)) => is_answer(Ok(read), tree),
        Err(error) => is_answer(Err(error), tree),
    }
}

/// Whether the tree is that of tokens that are handed in, as what a macro call of this kind stands for: it fits, and is no
/// deeper than a tree may be. The tokens are read again, which decides it. The error is want of memory.
pub fn fits_tokens(
    alloc: Global,
    kind: ExpansionKind,
    tokens: &[ExpToken],
    tree: &Tree,
) -> Result<bool, AllocError>
    ensures { IfOk result (λ fits. IsTrue fits ↔ IsTreeOfExpansion kind tokens.now tree.now) }
{
    fits_tokens_of(alloc, Reach::Stated, kind, tokens, tree)
}

/// The same, where so much of Rust is read.
pub fn fits_tokens_of(
    alloc: Global,
    reach: Reach,
    kind: ExpansionKind,
    tokens: &[ExpToken],
    tree: &Tree,
) -> Result<bool, AllocError>
    ensures { IfOk result (λ fits. IsTrue fits ↔ IsTreeOfExpansionOf reach kind tokens.now tree.now) }
{
    is_answer(parse_tokens_of(alloc, reach, kind, tokens), tree)
}
