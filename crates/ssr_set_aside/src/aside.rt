//! A text as it is searched, and what of it is set aside.
ghost use Rattle.std.specs.Prelude.{◌≡◌, map};
ghost use Rattle.ssr_syntax_tree.specs.Syntax.{source_of};
ghost use Rattle.ssr_base_trees.specs.Origins.{span_of};

use crate::reaches::Reaches;
use ssr_base_trees::TextEdit;
use ssr_syntax::Tree;
use ssr_syntax_kinds::TextRange;
use std::marker::Model;

/// The tree of a text as it is searched, the changes that made that text of a file's, their reaches, and what isn't searched. Each
/// change has a text of as many bytes as it replaces, so what stands in the one text at a place stands in the other at the same place.
#[derive(Drop)]
pub struct SetAside {
    tree: Tree,
    aside: TextEdit,
    reaches: Reaches,
    unsearched: Vec<TextRange>,
}

impl Model for SetAside {
    ghost use Rattle.std.specs.Prelude.{map};
    ghost use Rattle.ssr_base_trees.specs.Origins.{span_of};
    ghost use Rattle.ssr_set_aside.specs.SetAside.{SetAside as SetAsideValue};
    ghost use Rattle.ssr_set_aside.specs.SetAsideCode.{set_aside_code};

    ghost Value = { SetAsideValue };

    ghost coded = { set_aside_code };

    ghost view = { λ made. record { tree = made.tree; aside = made.aside; reaches = made.reaches; unsearched = map span_of made.unsearched.items } };
}

impl SetAside {
    /// The tree of the text that is searched, the changes that made that text, their reaches, and what isn't searched.
    pub(crate) fn new(
        tree: Tree,
        aside: TextEdit,
        reaches: Reaches,
        unsearched: Vec<TextRange>,
    ) -> SetAside
        ensures { result ≡ record { tree = tree; aside = aside; reaches = reaches; unsearched = map span_of unsearched.items } }
    {
        SetAside {
            tree,
            aside,
            reaches,
            unsearched,
        }
    }

    /// The tree of the text that is searched.
    pub fn tree(&self) -> &Tree
        ensures { result.now ≡ self.now.tree }
    {
        &self.tree
    }

    /// The text that is searched.
    pub fn searched(&self) -> &str
        ensures { result.now ≡ source_of self.now.tree }
    {
        self.tree.source()
    }

    /// The changes of the file's text that made it: none where the file is read as it stands.
    pub fn aside(&self) -> &TextEdit
        ensures { result.now ≡ self.now.aside }
    {
        &self.aside
    }

    /// The bytes that no match may touch.
    pub fn reaches(&self) -> &Reaches
        ensures { result.now ≡ self.now.reaches }
    {
        &self.reaches
    }

    /// The bytes of which nothing is searched, in order: what isn't read is set aside whole there.
    pub fn unsearched(&self) -> &[TextRange]
        ensures { map span_of result.now ≡ self.now.unsearched }
    {
        self.unsearched.as_slice()
    }

    /// The tree of the text that is searched, the changes, their reaches, and what isn't searched.
    pub fn into_parts(self) -> (Tree, TextEdit, Reaches, Vec<TextRange>)
        ensures tree { result.0 ≡ self.tree }
        ensures aside { result.1 ≡ self.aside }
        ensures reaches { result.2 ≡ self.reaches }
        ensures unsearched { map span_of result.3.items ≡ self.unsearched }
    {
        let SetAside {
            tree,
            aside,
            reaches,
            unsearched,
        } = self;
        (tree, aside, reaches, unsearched)
    }
}
