//! A file's text on the disk, what of it is set aside, what no match may touch for that, and what isn't searched.
ghost use Rattle.std.specs.Prelude.{◌≡◌, map, string_bytes};
ghost use Rattle.ssr_base_trees.specs.Origins.{span_of};

use ssr_base_trees::TextEdit;
use ssr_set_aside::Reaches;
use ssr_syntax_kinds::TextRange;
use std::marker::Model;

/// A file's name, its text on the disk, the changes of that which make the text that is searched, their reaches, and what isn't
/// searched.
#[derive(Debug, Drop)]
pub(crate) struct FileText {
    name: String,
    text: String,
    aside: TextEdit,
    reaches: Reaches,
    unsearched: Vec<TextRange>,
}

impl Model for FileText {
    ghost use Rattle.std.specs.Prelude.{map, string_bytes};
    ghost use Rattle.ssr_base_trees.specs.Origins.{span_of};
    ghost use Rattle.ssr_changes.specs.Files.{File};

    ghost Value = { File };

    ghost view = { λ file. record { name = string_bytes file.name; text = string_bytes file.text; aside = file.aside; reaches = file.reaches; unsearched = map span_of file.unsearched.items } };
}

impl FileText {
    pub(crate) fn new(
        name: String,
        text: String,
        aside: TextEdit,
        reaches: Reaches,
        unsearched: Vec<TextRange>,
    ) -> FileText
        ensures { result ≡ record { name = string_bytes name; text = string_bytes text; aside = aside; reaches = reaches; unsearched = map span_of unsearched.items } }
    {
        FileText {
            name,
            text,
            aside,
            reaches,
            unsearched,
        }
    }

    pub(crate) fn name(&self) -> &str
        ensures { result.now ≡ self.now.name }
    {
        self.name.as_str()
    }

    pub(crate) fn text(&self) -> &str
        ensures { result.now ≡ self.now.text }
    {
        self.text.as_str()
    }

    pub(crate) fn aside(&self) -> &TextEdit
        ensures { result.now ≡ self.now.aside }
    {
        &self.aside
    }

    pub(crate) fn reaches(&self) -> &Reaches
        ensures { result.now ≡ self.now.reaches }
    {
        &self.reaches
    }

    pub(crate) fn unsearched(&self) -> &[TextRange]
        ensures { map span_of result.now ≡ self.now.unsearched }
    {
        self.unsearched.as_slice()
    }
}
