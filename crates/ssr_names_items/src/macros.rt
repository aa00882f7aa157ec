//! What calls of macros in the place of items and statements may declare.

use crate::code::Code;
use crate::heads::{AROUND_BODY, Call, Head, Heads, spelled};
use crate::names::Names;
use crate::plain_macros::{is_plain, opens, tests_documents};
use crate::table::Name;
use ssr_base_trees::Trees;
use ssr_syntax_kinds::SyntaxKind;
use ssr_syntax_tree::NodeNo;
use std::alloc::{AllocError, Global};
use std::collections::{BTreeMap, BTreeSet};

/// The most macros that are followed from one call.
const MOST_MACROS: usize = 64;

/// The macros that files define: what the bodies of those with one name may declare.
#[derive(Drop)]
pub(crate) struct OwnMacros {
    alloc: Global,
    bodies: BTreeMap<Name, Vec<Heads>>,
}

/// What the macro of a call is.
#[derive(Clone, Copy, Debug, PartialEq, Eq)]
pub(crate) enum Called {
    /// Files define macros with that name.
    Own,
    /// A macro that declares nothing where it is called.
    Plain,
    /// A macro whose argument has items as they stand, as `thread_local!`.
    Items,
    /// A macro whose argument has items in braces, as `cfg_if!`.
    Alternatives,
    /// A macro that may declare anything.
    Anything,
    /// A macro that isn't read.
    Unread,
}

/// What the macros of files may declare that a call leads to.
#[derive(Drop)]
pub(crate) struct Effects {
    /// The names of these macros: their bodies spell further names.
    pub(crate) followed: Vec<Name>,
    /// Whether they may bring in what isn't spelled.
    pub(crate) opens: bool,
    /// Whether words of the argument may be names of items.
    pub(crate) names_words: bool,
    /// Whether words of the argument may be used by a `use`.
    pub(crate) uses_words: bool,
}

impl OwnMacros {
    /// The macros that the trees define.
    pub(crate) fn of_trees(
        alloc: Global,
        names: &mut Names,
        trees: &Trees,
    ) -> Result<OwnMacros, AllocError> {
        let mut macros = OwnMacros {
            alloc,
            bodies: BTreeMap::new(alloc),
        };
        for number in 0..trees.file_count() {
            if let Some(tree) = trees.tree(number) {
                macros.add_tree(names, Code { number, tree })?;
            }
        }
        Ok(macros)
    }

    /// Adds the macros that a tree defines.
    fn add_tree(&mut self, names: &mut Names, code: Code<'_>) -> Result<(), AllocError> {
        if !code.tree.has_kind(SyntaxKind::MACRO_RULES) {
            return Ok(());
        }
        for number in 0..code.tree.node_count() {
            if code.kind(NodeNo(number)).is(SyntaxKind::MACRO_RULES) {
                self.add_macro(names, code, NodeNo(number))?;
            }
        }
        Ok(())
    }

    /// Adds the macro that an item defines.
    fn add_macro(
        &mut self,
        names: &mut Names,
        code: Code<'_>,
        item: NodeNo,
    ) -> Result<(), AllocError> {
        let Some(text) = code.name(item) else {
            return Ok(());
        };
        let name = names.add(text)?;
        let heads = match code.child(item, SyntaxKind::TOKEN_TREE) {
            Some(body) => spelled(self.alloc, names, code, code.tokens(body), AROUND_BODY)?,
            None => return Ok(()),
        };
        if let Some(bodies) = self.bodies.get_mut(&name) {
            bodies.push(heads)?;
            return Ok(());
        }
        let mut bodies = Vec::new(self.alloc);
        bodies.push(heads)?;
        self.bodies.insert(name, bodies)?;
        Ok(())
    }

    /// What the macro of a call is.
    pub(crate) fn called(&self, names: &Names, code: Code<'_>, call: NodeNo) -> Called {
        let Some(path) = code.child(call, SyntaxKind::PATH) else {
            return Called::Unread;
        };
        let tokens = code.tokens(path);
        let text = code.token_text(tokens.end.saturating_sub(1));
        let is_own = match names.number(text) {
            Some(name) => self.bodies.contains_key(&name),
            None => false,
        };
        let first = code.token_text(tokens.start);
        let is_alone = tokens.end.saturating_sub(tokens.start) == 1;
        // one of another crate may have the same name
        if is_own && (is_alone || matches!(first, "crate" | "self" | "super")) {
            Called::Own
        } else if matches!(text, "thread_local" | "lazy_static") {
            Called::Items
        } else if text == "cfg_if" {
            Called::Alternatives
        } else if opens(text) {
            Called::Anything
        } else if tests_documents(text)
            || (is_plain(text) && (is_alone || matches!(first, "std" | "core" | "alloc")))
        {
            Called::Plain
        } else {
            Called::Unread
        }
    }

    /// Whether a call is one of a macro that isn't read, which may name items by the words of its argument.
    fn is_unread(&self, call: Call) -> bool {
        !call.is_plain && !self.bodies.contains_key(&call.name)
    }

    /// Whether one of some calls, with at most so many braces around it, is one of a macro that isn't read.
    pub(crate) fn has_unread(&self, calls: &[Call], deepest: u32) -> bool {
        for call in calls {
            if call.braces <= deepest && self.is_unread(*call) {
                return true;
            }
        }
        false
    }

    /// The names of the macros of files that a call of these leads to; `None`, where they are too many.
    fn followed(&self, calls: &[Call]) -> Result<Option<Vec<Name>>, AllocError> {
        let mut known = BTreeSet::new(self.alloc);
        let mut followed = Vec::new(self.alloc);
        self.add_calls(calls, u32::MAX, &mut known, &mut followed)?;
        for place in 0..MOST_MACROS {
            let Some(name) = followed.get(place).copied() else {
                return Ok(Some(followed));
            };
            for body in self.bodies_of(name) {
                self.add_calls(
                    body.calls.as_slice(),
                    AROUND_BODY,
                    &mut known,
                    &mut followed,
                )?;
            }
        }
        Ok(None)
    }

    /// Adds those macros of files that weren't met before, of calls with at most so many braces around them.
    fn add_calls(
        &self,
        calls: &[Call],
        deepest: u32,
        known: &mut BTreeSet<Name>,
        followed: &mut Vec<Name>,
    ) -> Result<(), AllocError> {
        for call in calls {
            if call.braces <= deepest
                && self.bodies.contains_key(&call.name)
                && known.insert(call.name)?
            {
                followed.push(call.name)?;
            }
        }
        Ok(())
    }

    /// What the bodies of the macros with a name may declare.
    fn bodies_of(&self, name: Name) -> &[Heads] {
        match self.bodies.get(&name) {
            Some(bodies) => bodies.as_slice(),
            None => &[],
        }
    }

    /// What the macros of files may declare that a call of these leads to.
    pub(crate) fn effects(&self, calls: &[Call]) -> Result<Effects, AllocError> {
        let mut effects = Effects {
            followed: Vec::new(self.alloc),
            opens: false,
            names_words: false,
            uses_words: false,
        };
        match self.followed(calls)? {
            Some(followed) => {
                for name in &followed {
                    self.add_effects(*name, &mut effects);
                }
                effects.followed = followed;
            }
            None => effects.opens = true,
        }
        Ok(effects)
    }

    /// Adds what the macros with a name may declare, but for the names.
    fn add_effects(&self, name: Name, effects: &mut Effects) {
        for body in self.bodies_of(name) {
            effects.opens |= body.has_glob;
            effects.names_words |= body.has_open_head;
            effects.names_words |= self.has_unread(body.calls.as_slice(), AROUND_BODY);
            effects.uses_words |= body.has_open_use;
        }
    }

    /// Adds the heads that the bodies of the macros with a name spell.
    pub(crate) fn add_heads(&self, name: Name, heads: &mut Vec<Head>) -> Result<(), AllocError> {
        for body in self.bodies_of(name) {
            heads.extend_from_slice(body.heads.as_slice())?;
        }
        Ok(())
    }

    /// Adds the words of the calls in the bodies of the macros with a name.
    pub(crate) fn add_words(&self, name: Name, words: &mut Vec<Name>) -> Result<(), AllocError> {
        for body in self.bodies_of(name) {
            add_all(body.words.as_slice(), words)?;
        }
        Ok(())
    }

    /// Whether bodies of the macros with a name spell names.
    fn spells(&self, name: Name) -> bool {
        self.bodies_of(name)
            .iter()
            .any(|body| !body.heads.is_empty())
    }

    /// Whether the macros with a name may declare something.
    pub(crate) fn may_declare(&self, name: Name) -> bool {
        let call = Call {
            name,
            is_plain: false,
            braces: 0,
        };
        match self.effects(&[call]) {
            Ok(effects) => {
                effects.opens
                    || effects.names_words
                    || effects.uses_words
                    || effects.followed.iter().any(|own| self.spells(*own))
            }
            Err(_) => true,
        }
    }
}

/// Adds some names to others.
fn add_all(names: &[Name], all: &mut Vec<Name>) -> Result<(), AllocError> {
    for name in names {
        all.push(*name)?;
    }
    Ok(())
}
