//! The `mod` items of a file.

use crate::candidates::{Candidate, at_name, at_path, candidates};
use crate::marks::Mark;
use ssr_syntax_kinds::TextRange;
use std::alloc::{AllocError, Global};

/// A `mod` item without a body.
#[derive(Drop)]
pub(crate) struct Declared<'a> {
    /// The module's name.
    pub name: &'a str,
    /// The names of the modules with a body that it stands in, from the outermost.
    pub around: Vec<&'a str>,
    /// The files that it may be.
    pub candidates: Vec<Candidate>,
    /// Whether it stands in a macro's braces, where it may stand for no module.
    pub in_macro: bool,
}

/// How many bytes a path has at most: none that is longer is opened.
const LONGEST_PATH: usize = 4096;

/// What a `{` that is open belongs to.
#[derive(Clone, Copy)]
enum Block {
    /// `mod name {`
    Module,
    /// A macro's braces, or anything else.
    Other,
}

/// A module with a body.
#[derive(Drop)]
struct Inline<'a> {
    name: &'a str,
    /// The folder of its modules; `None` is one that lies outside.
    folder: Option<String>,
}

/// What was said since the last `;`, `{` or `}`.
#[derive(Drop)]
struct Said<'a> {
    /// The name behind `mod`.
    module: Option<&'a str>,
    /// Whether the next brace is a macro's.
    is_macro: bool,
    /// The values of `path`.
    paths: Vec<&'a str>,
    /// Whether one of them stands under no condition.
    is_certain: bool,
}

impl Said<'_> {
    /// Nothing.
    fn new(alloc: Global) -> Self {
        Said {
            module: None,
            is_macro: false,
            paths: Vec::new(alloc),
            is_certain: false,
        }
    }
}

/// The place of a file that its `mod` items are followed to, mark by mark.
#[derive(Drop)]
struct ModuleReader<'a> {
    alloc: Global,
    text: &'a str,
    /// The folder that the file lies in.
    beside: &'a str,
    /// The folder of the file's modules.
    below: &'a str,
    /// What the braces that are open belong to, from the outermost.
    blocks: Vec<Block>,
    /// The modules with a body that are open, from the outermost.
    inlines: Vec<Inline<'a>>,
    /// How many braces are open around the outermost macro's.
    around_macro: Option<usize>,
    said: Said<'a>,
    declared: Vec<Declared<'a>>,
}

/// The `mod` items without a body of a file that lies in the folder `beside` and whose modules lie in the folder `below`.
pub(crate) fn declared_modules<'a>(
    alloc: Global,
    text: &'a str,
    beside: &'a str,
    below: &'a str,
    marks: &[Mark],
) -> Result<Vec<Declared<'a>>, AllocError> {
    let mut reader = ModuleReader {
        alloc,
        text,
        beside,
        below,
        blocks: Vec::new(alloc),
        inlines: Vec::new(alloc),
        around_macro: None,
        said: Said::new(alloc),
        declared: Vec::new(alloc),
    };
    for mark in marks {
        reader.take(*mark)?;
    }
    Ok(reader.declared)
}

impl<'a> ModuleReader<'a> {
    fn take(&mut self, mark: Mark) -> Result<(), AllocError> {
        match mark {
            Mark::Module(name) => {
                self.said.module = Some(plain_name(slice(self.text, name)));
                Ok(())
            }
            Mark::Macro => {
                self.said.is_macro = true;
                Ok(())
            }
            Mark::Attribute(key, value) => self.take_path(key, value, true),
            Mark::Condition(key, value) => self.take_path(key, value, false),
            Mark::Opens => self.open(),
            Mark::Closes => {
                self.close();
                Ok(())
            }
            Mark::Ends => self.declare(),
        }
    }

    /// Takes the value of a key, where the key is `path`.
    fn take_path(
        &mut self,
        key: TextRange,
        value: TextRange,
        is_certain: bool,
    ) -> Result<(), AllocError> {
        if slice(self.text, key) != "path" {
            return Ok(());
        }
        if let Some(path) = unquoted(slice(self.text, value)) {
            self.said.paths.push(path)?;
            self.said.is_certain = self.said.is_certain || is_certain;
        }
        Ok(())
    }

    fn open(&mut self) -> Result<(), AllocError> {
        if let Some(name) = self.said.module {
            let folder = self.inner_folder(name)?;
            self.inlines.push(Inline { name, folder })?;
            self.blocks.push(Block::Module)?;
        } else {
            if self.said.is_macro && self.around_macro.is_none() {
                self.around_macro = Some(self.blocks.len());
            }
            self.blocks.push(Block::Other)?;
        }
        self.said = Said::new(self.alloc);
        Ok(())
    }

    fn close(&mut self) {
        if matches!(self.blocks.pop(), Some(Block::Module)) {
            let _ = self.inlines.pop();
        }
        if self.around_macro == Some(self.blocks.len()) {
            self.around_macro = None;
        }
        self.said = Said::new(self.alloc);
    }

    /// The folder of the modules of a module with a body, unless its path is too long for any file to be there.
    fn inner_folder(&self, name: &str) -> Result<Option<String>, AllocError> {
        let folder = match self.said.paths.first() {
            Some(path) => at_path(self.alloc, self.path_folder(), path)?,
            None => at_name(self.alloc, self.name_folder(), name, "")?,
        };
        match folder {
            Some(folder) if folder.len() > LONGEST_PATH => Ok(None),
            folder => Ok(folder),
        }
    }

    /// Ends a `mod` item, if there is one.
    fn declare(&mut self) -> Result<(), AllocError> {
        if let Some(name) = self.said.module {
            let (paths, is_certain) = (&self.said.paths, self.said.is_certain);
            let candidates = candidates(
                self.alloc,
                self.path_folder(),
                self.name_folder(),
                name,
                paths,
                is_certain,
            )?;
            let around = self.around()?;
            self.declared.push(Declared {
                name,
                around,
                candidates,
                in_macro: self.around_macro.is_some(),
            })?;
        }
        self.said = Said::new(self.alloc);
        Ok(())
    }

    /// The names of the modules with a body that are open.
    fn around(&self) -> Result<Vec<&'a str>, AllocError> {
        let mut names = Vec::with_capacity(self.alloc, self.inlines.len())?;
        for inline in &self.inlines {
            names.push(inline.name)?;
        }
        Ok(names)
    }

    /// The folder that a `path` counts from.
    fn path_folder(&self) -> Option<&str> {
        self.inner_or(self.beside)
    }

    /// The folder that names are looked for in.
    fn name_folder(&self) -> Option<&str> {
        self.inner_or(self.below)
    }

    /// The folder of the innermost module with a body, or else this one.
    fn inner_or<'s>(&'s self, outer: &'s str) -> Option<&'s str> {
        match self.inlines.last() {
            Some(inline) => match &inline.folder {
                Some(folder) => Some(folder.as_str()),
                None => None,
            },
            None => Some(outer),
        }
    }
}

/// A part of a text; nothing, where the text has no such part.
pub(crate) fn slice(text: &str, range: TextRange) -> &str {
    text.get(range.start as usize..range.end as usize)
        .unwrap_or("")
}

/// A name without the `r#` of a raw one.
fn plain_name(name: &str) -> &str {
    name.strip_prefix("r#").unwrap_or(name)
}

/// What stands between the quotes of a string with no escape in it.
pub(crate) fn unquoted(text: &str) -> Option<&str> {
    let (_, rest) = text.split_once('"')?;
    let (inside, _) = rest.rsplit_once('"')?;
    if inside.contains('\\') {
        None
    } else {
        Some(inside)
    }
}
