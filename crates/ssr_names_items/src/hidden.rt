//! Items and statements that are set aside whole: their words are names of which nothing is known.

use crate::attributes::is_condition;
use crate::code::Code;
use crate::reader::{Place, Reader};
use crate::table::{ItemKind, ModuleNo, Namespace, Thing, Visibility};
use ssr_base_trees::NodeId;
use ssr_syntax_kinds::{SyntaxKind, TextRange};
use ssr_syntax_tree::{Element, NodeNo};
use std::alloc::AllocError;

/// A part that is set aside, and what stands in its place.
type Part = (TextRange, String);

/// The text of a part in its file.
fn text_of<'t>(text: &'t str, part: &Part) -> &'t str {
    match text.get(part.0.start as usize..part.0.end as usize) {
        Some(text) => text,
        None => "",
    }
}

/// Whether a byte is one of a word.
fn is_of_word(byte: u8) -> bool {
    matches!(byte, b'_' | b'a'..=b'z' | b'A'..=b'Z' | b'0'..=b'9' | 0x80..=0xff)
}

/// Whether a piece is a word.
fn is_word(piece: &str) -> bool {
    match piece.as_bytes().first() {
        Some(first) => is_of_word(*first) && !first.is_ascii_digit(),
        None => false,
    }
}

/// Adds the piece of a text from one place up to another, if there is one.
fn add_piece<'t>(
    text: &'t str,
    start: usize,
    end: usize,
    pieces: &mut Vec<&'t str>,
) -> Result<(), AllocError> {
    if start < end
        && let Some(piece) = text.get(start..end)
    {
        pieces.push(piece)?;
    }
    Ok(())
}

/// Adds the words of a text, and its marks one by one. What is set aside whole is one text, so that is cut here; words of comments
/// and strings are words too.
fn add_pieces<'t>(text: &'t str, pieces: &mut Vec<&'t str>) -> Result<(), AllocError> {
    let mut start = 0usize;
    for (place, byte) in text.as_bytes().iter().enumerate() {
        if is_of_word(*byte) {
            continue;
        }
        let behind = place.saturating_add(1);
        add_piece(text, start, place, pieces)?;
        if !matches!(*byte, b' ' | b'\t' | b'\n' | b'\r') {
            add_piece(text, place, behind, pieces)?;
        }
        start = behind;
    }
    add_piece(text, start, text.len(), pieces)
}

/// How many pieces are of the attributes at their beginning.
fn count_of_attributes(pieces: &[&str]) -> usize {
    let mut depth = 0u32;
    let mut is_attribute = false;
    for (place, piece) in pieces.iter().enumerate() {
        match *piece {
            "#" if depth == 0 => is_attribute = true,
            "[" | "(" | "{" => depth = depth.saturating_add(1),
            "]" | ")" | "}" if is_attribute => {
                depth = depth.saturating_sub(1);
                if depth == 0 {
                    is_attribute = false;
                }
                continue;
            }
            _ => {}
        }
        if !is_attribute {
            return place;
        }
    }
    pieces.len()
}

/// Whether attributes of what stands around pieces, `#![..]`, say that it isn't there in each configuration.
fn has_condition(pieces: &[&str]) -> bool {
    let mut last = "";
    let mut is_inner = false;
    for piece in pieces {
        if last == "#" {
            is_inner = *piece == "!";
        }
        if is_inner && is_condition(piece) {
            return true;
        }
        last = piece;
    }
    false
}

/// Whether pieces end where their first braces do.
fn ends_with_braces(pieces: &[&str]) -> bool {
    let mut depth = 0u32;
    for (place, piece) in pieces.iter().enumerate() {
        match *piece {
            "{" => depth = depth.saturating_add(1),
            "}" => depth = depth.saturating_sub(1),
            _ => continue,
        }
        if depth == 0 {
            return place.saturating_add(1) == pieces.len();
        }
    }
    false
}

/// Whether pieces are those of a visibility, or none.
fn are_visibility(pieces: &[&str]) -> bool {
    pieces.iter().all(|piece| {
        matches!(
            *piece,
            "pub" | "(" | ")" | "crate" | "super" | "self" | "in" | ":"
        )
    })
}

/// The name of the union that pieces are, if they are one alone.
fn union_name<'t>(pieces: &[&'t str]) -> Option<&'t str> {
    let at = pieces.iter().position(|piece| *piece == "union")?;
    match (pieces.get(..at)?, pieces.get(at..)?) {
        (front, [_, name, ..])
            if is_word(name) && are_visibility(front) && ends_with_braces(pieces) => { Some(*name) }
        _ => None,
    }
}

/// What stands in front of a piece of a foreign item.
#[derive(Clone, Copy)]
struct Foreign {
    place: Place,
    seen: Visibility,
    is_behind_fn: bool,
}

/// A foreign item without a token. It may be one that only a comment has.
fn foreign_in(place: Place) -> Foreign {
    let mut place = place;
    place.is_sure = false;
    Foreign {
        place,
        seen: Visibility::In(place.module),
        is_behind_fn: false,
    }
}

/// What stands in front behind a piece of an item that stands in a place.
fn behind_piece(front: Foreign, place: Place, piece: &str) -> Foreign {
    let mut front = front;
    front.is_behind_fn = piece == "fn";
    match piece {
        ";" => return foreign_in(place),
        "pub" => front.seen = Visibility::Public,
        _ => {}
    }
    front
}

impl<'a> Reader<'a> {
    /// The parts that are set aside in the place of a token.
    fn parts_at(&self, code: Code<'_>, token: u32) -> &'a [Part] {
        let files = self.sources.files;
        let Some(file) = files.get(code.number as usize) else {
            return &[];
        };
        if file.aside.is_empty() || !code.token_kind(token).is_trivia() {
            return &[];
        }
        let (start, end) = (code.token_start(token), code.token_end(token));
        let first = file.aside.partition_point(|part| part.0.start < start);
        let past = file.aside.partition_point(|part| part.0.start < end);
        file.aside.get(first..past).unwrap_or(&[])
    }

    /// The pieces of what is set aside in the place of a token.
    fn pieces_at(&self, code: Code<'_>, token: u32) -> Result<Vec<&'a str>, AllocError> {
        let mut pieces = Vec::new(self.alloc);
        let files = self.sources.files;
        if let Some(file) = files.get(code.number as usize) {
            for part in self.parts_at(code, token) {
                add_pieces(text_of(file.text, part), &mut pieces)?;
            }
        }
        Ok(pieces)
    }

    /// The pieces of what is set aside in the place of a token, attributes at their beginning aside. One alone is a word in front of
    /// an item.
    pub(crate) fn hidden(&self, code: Code<'_>, token: u32) -> Result<Vec<&'a str>, AllocError> {
        let pieces = self.pieces_at(code, token)?;
        match pieces.get(count_of_attributes(pieces.as_slice())..) {
            Some(behind) if behind.len() > 1 => Vec::from_slice(self.alloc, behind),
            _ => Ok(Vec::new(self.alloc)),
        }
    }

    /// Adds the words of the items of a module that are set aside, or of the statements of a block.
    pub(crate) fn read_hidden(
        &mut self,
        code: Code<'a>,
        list: NodeNo,
        place: Place,
    ) -> Result<(), AllocError> {
        let tree = code.tree;
        if !tree.has(Element::Node(list)) {
            return Ok(());
        }
        let is_foreign = code.kind(list).is(SyntaxKind::EXTERN_ITEM_LIST);
        for child in tree.children(list) {
            if let Element::Token(token) = child {
                if is_foreign {
                    let pieces = self.pieces_at(code, token.0)?;
                    self.add_foreign(code, list, pieces.as_slice(), place)?;
                } else {
                    let pieces = self.hidden(code, token.0)?;
                    self.add_pieces(pieces.as_slice(), place.module)?;
                }
            }
        }
        Ok(())
    }

    /// Adds the words of a function's generics that are set aside: what they name hides the module's names in the function, of which
    /// no more is known than that.
    pub(crate) fn read_generics(
        &mut self,
        code: Code<'a>,
        function: NodeNo,
        place: Place,
    ) -> Result<(), AllocError> {
        let tree = code.tree;
        if !tree.has(Element::Node(function)) {
            return Ok(());
        }
        let mut is_named = false;
        for child in tree.children(function) {
            match child {
                Element::Node(below) if code.kind(below).is(SyntaxKind::PARAM_LIST) => break,
                Element::Node(below) => is_named |= code.kind(below).is(SyntaxKind::NAME),
                Element::Token(token) if is_named => {
                    let pieces = self.pieces_at(code, token.0)?;
                    self.add_parameters(pieces.as_slice(), place.module)?;
                }
                Element::Token(_) => {}
            }
        }
        Ok(())
    }

    /// Whether the attributes that stand in front of a module's items, which are set aside, say that the module isn't there in each
    /// configuration.
    pub(crate) fn is_conditional(&self, code: Code<'_>, list: NodeNo) -> Result<bool, AllocError> {
        let tree = code.tree;
        if !tree.has(Element::Node(list)) {
            return Ok(false);
        }
        for child in tree.children(list) {
            let Element::Token(token) = child else {
                break;
            };
            if has_condition(self.pieces_at(code, token.0)?.as_slice()) {
                return Ok(true);
            }
        }
        Ok(false)
    }

    /// Adds the foreign functions of pieces that are set aside: they have no bodies.
    fn add_foreign(
        &mut self,
        code: Code<'_>,
        list: NodeNo,
        pieces: &[&str],
        place: Place,
    ) -> Result<(), AllocError> {
        let mut front = foreign_in(place);
        for piece in pieces {
            if front.is_behind_fn && is_word(piece) {
                self.add_function(code.id(list), piece, front)?;
            }
            front = behind_piece(front, place, piece);
        }
        Ok(())
    }

    /// Adds a foreign function.
    fn add_function(&mut self, node: NodeId, text: &str, front: Foreign) -> Result<(), AllocError> {
        let name = self.names.add(text)?;
        let item = self.add_item(node, name, ItemKind::Function, front.place)?;
        self.add_entry(
            front.place,
            name,
            Namespace::Value,
            Thing::Item(item),
            front.seen,
        )
    }

    /// Adds the words among pieces that are set aside, but for the `C` of `extern "C"`. Of a union that is its name.
    fn add_pieces(&mut self, pieces: &[&str], module: ModuleNo) -> Result<(), AllocError> {
        if let Some(text) = union_name(pieces) {
            let name = self.names.add(text)?;
            return self.add_unknown(module, name);
        }
        let mut front = "";
        let mut last = "";
        for piece in pieces {
            if is_word(piece) && (front, last) != ("extern", "\"") {
                let name = self.names.add(piece)?;
                self.add_unknown(module, name)?;
            }
            front = last;
            last = piece;
        }
        Ok(())
    }

    /// Adds the words among the pieces of generics that may be names of parameters: those behind `<`, a comma, an attribute or the
    /// word `const`.
    fn add_parameters(&mut self, pieces: &[&str], module: ModuleNo) -> Result<(), AllocError> {
        let mut last = "";
        for piece in pieces {
            if is_word(piece) && matches!(last, "<" | "," | "]" | "const") {
                let name = self.names.add(piece)?;
                self.add_unknown(module, name)?;
            }
            last = piece;
        }
        Ok(())
    }
}
