//! Where names are looked up.

ghost use Rattle.std.specs.Prelude.{◌<◌, IfSome, length};
ghost use Rattle.ssr_syntax_tree.specs.Places.{HasToken};

use crate::failure::Failure;
use cargo_ssr_options::Place;
use ssr_base::{FileId, FilePosition, NodeId};
use ssr_changes::{Searchable, normal_name};
use ssr_reports::{LinePlace, byte_at};
use ssr_syntax_tree::{NodeNo, TokenNo, Tree};
use std::alloc::Global;

/// The position that a place names, or else this one.
pub(crate) fn position_at(
    alloc: Global,
    files: &Searchable,
    place: Option<&Place>,
    other: FilePosition,
) -> Result<FilePosition, Failure> {
    let Some(place) = place else {
        return Ok(other);
    };
    let name = normal_name(alloc, place.file.as_str())?;
    let found = match file_named(files, name.as_str()) {
        Some(file) => position_in(files, file, place),
        None => None,
    };
    match found {
        Some(position) => Ok(position),
        None => {
            let (file, line, column) = (place.file.as_str(), place.line, place.column);
            Err(Failure::Told(format!(in alloc;
                "{file}:{line}:{column}: no such place is searched"
            )?))
        }
    }
}

/// The number of the file with this name.
pub(crate) fn file_named(files: &Searchable, name: &str) -> Option<usize>
    ensures { IfSome result (λ file. file < length files.now.files) }
{
    for file in 0..files.file_count() {
        if files.name(file) == name {
            return Some(file);
        }
    }
    None
}

/// The position of a place in a file.
fn position_in(files: &Searchable, file: usize, place: &Place) -> Option<FilePosition>
    requires { file < length files.now.files }
{
    let asked = LinePlace {
        line: place.line as usize,
        column: place.column as usize,
    };
    let offset = byte_at(files.text(file), asked)?;
    match (u32::try_from(file), u32::try_from(offset)) {
        (Ok(file), Ok(offset)) => Some(FilePosition {
            file_id: FileId(file),
            offset,
        }),
        _ => None,
    }
}

/// The node of which the scope is that of a position: the last one that has the token which ends there, or else stands there.
pub(crate) fn node_of(files: &Searchable, position: FilePosition) -> NodeId {
    let file = position.file_id.0;
    let node = match files.workspace().tree(file) {
        Some(tree) => covering_node(tree, position.offset),
        None => None,
    };
    NodeId {
        tree: file,
        node: node.unwrap_or(NodeNo(0)),
    }
}

/// The last node of a tree that has the token which ends at an offset, or else stands there.
fn covering_node(tree: &Tree, offset: u32) -> Option<NodeNo> {
    let token = match ending_token(tree, offset) {
        Some(token) => token,
        None => tree.token_at(offset)?,
    };
    tree.covering(tree.token_range(token))
}

/// The token that ends at an offset.
fn ending_token(tree: &Tree, offset: u32) -> Option<TokenNo>
    ensures { IfSome result (λ token. HasToken tree.now token.0) }
{
    let token = tree.token_at(offset.checked_sub(1)?)?;
    if tree.token_range(token).end == offset {
        Some(token)
    } else {
        None
    }
}
