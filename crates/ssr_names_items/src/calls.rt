//! Calls of macros in the place of items and statements.

use crate::code::Code;
use crate::heads::{AROUND_BODY, Call, Head, HeadKind, Heads, spelled};
use crate::macros::Called;
use crate::plain_macros::is_plain;
use crate::reader::{Place, Reader, Visit};
use crate::table::{ItemKind, ModuleNo, Name, Namespace, Owner, Thing, Visibility};
use ssr_base_trees::NodeId;
use ssr_syntax_kinds::SyntaxKind;
use ssr_syntax_tree::NodeNo;
use std::alloc::AllocError;
use std::collections::BTreeSet;

/// Whether a token begins an item.
fn begins_item(kind: SyntaxKind) -> bool {
    matches!(
        kind,
        SyntaxKind::FN_KW
            | SyntaxKind::STRUCT_KW
            | SyntaxKind::ENUM_KW
            | SyntaxKind::TRAIT_KW
            | SyntaxKind::TYPE_KW
            | SyntaxKind::MACRO_KW
    ) || matches!(
        kind,
        SyntaxKind::CONST_KW
            | SyntaxKind::STATIC_KW
            | SyntaxKind::MOD_KW
            | SyntaxKind::USE_KW
            | SyntaxKind::EXTERN_KW
    )
}

/// Whether the tokens below a node have one that begins an item.
fn has_item_word(code: Code<'_>, node: NodeNo) -> bool {
    let tokens = code.tokens(node);
    for token in tokens.start..tokens.end {
        if begins_item(code.token_kind(token)) {
            return true;
        }
    }
    false
}

/// Whether the argument of a call has words.
fn has_words(code: Code<'_>, argument: NodeNo) -> bool {
    let tokens = code.tokens(argument);
    for token in tokens.start..tokens.end {
        if code.token_kind(token).is(SyntaxKind::IDENT) {
            return true;
        }
    }
    false
}

/// Whether the argument of a call has calls of other macros, but for those that declare nothing.
fn has_calls(code: Code<'_>, call: NodeNo) -> bool {
    let Some(argument) = code.child(call, SyntaxKind::TOKEN_TREE) else {
        return false;
    };
    let tokens = code.tokens(argument);
    let mut is_behind_word = false;
    for token in tokens.start..tokens.end {
        let kind = code.token_kind(token);
        if is_behind_word && kind.is(SyntaxKind::BANG) {
            return true;
        }
        if !kind.is_trivia() {
            is_behind_word = kind.is(SyntaxKind::IDENT) && !is_plain(code.token_text(token));
        }
    }
    false
}

/// Whether a call stands among the items of a module.
fn is_in_module(code: Code<'_>, call: NodeNo) -> bool {
    matches!(
        code.parent_kind(call),
        SyntaxKind::SOURCE_FILE
            | SyntaxKind::ITEM_LIST
            | SyntaxKind::EXTERN_ITEM_LIST
            | SyntaxKind::MACRO_ITEMS
    )
}

/// How many braces may be open around a call in the argument of a macro, for it to be a call in the place of that macro's; `None`,
/// where it is none.
fn deepest_call(called: Called) -> Option<u32> {
    match called {
        Called::Own => Some(1),
        Called::Alternatives => Some(AROUND_BODY),
        _ => None,
    }
}

/// Whether the argument of a call stands in braces.
fn has_braces(code: Code<'_>, call: NodeNo) -> bool {
    match code.child(call, SyntaxKind::TOKEN_TREE) {
        Some(argument) => code
            .token_kind(code.tokens(argument).start)
            .is(SyntaxKind::L_CURLY),
        None => false,
    }
}

/// Whether a call stands where an item or a statement may.
fn is_item_place(code: Code<'_>, call: NodeNo) -> bool {
    if is_in_module(code, call) {
        return true;
    }
    match code.parent_kind(call) {
        // it stands behind attributes
        SyntaxKind::EXPR_STMT => true,
        SyntaxKind::MACRO_EXPR => match code.parent(call) {
            Some(expression) => match code.parent_kind(expression) {
                SyntaxKind::EXPR_STMT => true,
                // without braces it is the value of a block
                SyntaxKind::STMT_LIST | SyntaxKind::MACRO_STMTS => has_braces(code, call),
                _ => false,
            },
            None => false,
        },
        _ => false,
    }
}

impl<'a> Reader<'a> {
    /// The name of a call's macro among the macros of files.
    fn name_of_call(&self, code: Code<'_>, call: NodeNo) -> Option<Name> {
        let path = code.child(call, SyntaxKind::PATH)?;
        let last = code.tokens(path).end.saturating_sub(1);
        self.names.number(code.token_text(last))
    }

    /// Whether a call that is a statement, or the expression of one, may make items of its block.
    pub(crate) fn call_may_make_items(&self, code: Code<'_>, around: NodeNo) -> bool {
        let Some(call) = code.child(around, SyntaxKind::MACRO_CALL) else {
            return false;
        };
        if !is_item_place(code, call) {
            return false;
        }
        match self.macros.called(&self.names, code, call) {
            Called::Plain => false,
            Called::Own => {
                has_item_word(code, call)
                    || has_calls(code, call)
                    || match self.name_of_call(code, call) {
                        Some(name) => self.macros.may_declare(name),
                        None => true,
                    }
            }
            _ => true,
        }
    }

    /// Reads a call of a macro.
    pub(crate) fn read_call(
        &mut self,
        visit: Visit<'a>,
        call: NodeNo,
        place: Place,
    ) -> Result<(), AllocError> {
        let code = visit.code;
        if let Some(root) = self.sources.trees.expansion_of(code.id(call)) {
            self.expansions.push((root.tree, place))?;
        }
        if !is_item_place(code, call) {
            return Ok(());
        }
        let called = self.macros.called(&self.names, code, call);
        if called == Called::Anything {
            self.modules.open(place.module);
        }
        let Some(argument) = code.child(call, SyntaxKind::TOKEN_TREE) else {
            return Ok(());
        };
        if matches!(called, Called::Plain | Called::Anything) {
            return Ok(());
        }
        let alloc = self.alloc;
        let tokens = code.tokens(argument);
        let found = spelled(alloc, &mut self.names, code, tokens, u32::MAX)?;
        let deepest = if called == Called::Alternatives { 2 } else { 1 };
        self.declare(visit, call, place, &found, deepest)?;
        let has_unread = match deepest_call(called) {
            Some(deepest) => self.macros.has_unread(found.calls.as_slice(), deepest),
            None => false,
        };
        self.follow(code, call, place, &found, has_unread)?;
        if called == Called::Unread {
            self.read_unread(code, call, argument, place, &found)?;
        }
        Ok(())
    }

    /// Adds what a macro that isn't read may declare: the words of its argument, and where there are none, what isn't spelled.
    fn read_unread(
        &mut self,
        code: Code<'a>,
        call: NodeNo,
        argument: NodeNo,
        place: Place,
        found: &Heads,
    ) -> Result<(), AllocError> {
        if is_in_module(code, call) && !has_words(code, argument) {
            self.modules.open(place.module);
        }
        self.add_words(code, argument, place, found.heads.as_slice())
    }

    /// Adds what the argument of a call spells.
    fn declare(
        &mut self,
        visit: Visit<'a>,
        call: NodeNo,
        place: Place,
        found: &Heads,
        deepest: u32,
    ) -> Result<(), AllocError> {
        let mut own = place;
        own.owner = Owner::Module;
        own.is_sure = false;
        for head in &found.heads {
            if head.depth > deepest {
                self.add_unknown(own.module, head.name)?;
            } else {
                self.declare_head(visit, call, own, *head)?;
            }
        }
        if found.has_glob {
            self.modules.open(own.module);
        }
        Ok(())
    }

    /// Adds an item that the argument of a call spells.
    fn declare_head(
        &mut self,
        visit: Visit<'a>,
        call: NodeNo,
        own: Place,
        head: Head,
    ) -> Result<(), AllocError> {
        let HeadKind::Item(kind) = head.kind else {
            let seen = Visibility::Public;
            if head.kind == HeadKind::Module && self.add_files(visit, call, head.name, own, seen)? {
                return Ok(());
            }
            return self.add_unknown(own.module, head.name);
        };
        self.declare_item(visit.code.id(call), own, head.name, kind)
    }

    /// Adds an item that a call may declare.
    fn declare_item(
        &mut self,
        call: NodeId,
        own: Place,
        name: Name,
        kind: ItemKind,
    ) -> Result<(), AllocError> {
        let all = Visibility::Public;
        let item = Thing::Item(self.add_item(call, name, kind, own)?);
        self.add_entry(own, name, kind.namespace(), item, all)?;
        // its fields aren't read
        if kind.namespace() == Namespace::Type {
            self.add_entry(own, name, Namespace::Value, Thing::Unknown, all)?;
        }
        Ok(())
    }

    /// Adds what the macros of files may declare that a call leads to.
    fn follow(
        &mut self,
        code: Code<'_>,
        call: NodeNo,
        place: Place,
        found: &Heads,
        has_unread: bool,
    ) -> Result<(), AllocError> {
        let mut calls = Vec::from_slice(self.alloc, found.calls.as_slice())?;
        if let Some(name) = self.name_of_call(code, call) {
            calls.push(Call {
                name,
                is_plain: false,
                braces: 0,
            })?;
        }
        let effects = self.macros.effects(calls.as_slice())?;
        if effects.opens || (effects.uses_words && found.has_star) {
            self.modules.open(place.module);
        }
        let names_words = has_unread || effects.names_words || effects.uses_words;
        let followed = effects.followed.as_slice();
        self.add_followed(code.id(call), place, followed, names_words)?;
        if names_words && let Some(argument) = code.child(call, SyntaxKind::TOKEN_TREE) {
            self.add_words(code, argument, place, &[])?;
        }
        Ok(())
    }

    /// Adds what the bodies of macros spell that a call leads to: of each once in a module.
    fn add_followed(
        &mut self,
        call: NodeId,
        place: Place,
        followed: &[Name],
        names_words: bool,
    ) -> Result<(), AllocError> {
        let mut heads = Vec::new(self.alloc);
        let mut words = Vec::new(self.alloc);
        for name in followed {
            if self.spelled.insert((place.module, *name, false))? {
                self.macros.add_heads(*name, &mut heads)?;
            }
            if names_words && self.spelled.insert((place.module, *name, true))? {
                self.macros.add_words(*name, &mut words)?;
            }
        }
        self.declare_all(call, place, heads.as_slice())?;
        self.add_all_unknown(place.module, words.as_slice())
    }

    /// Adds what heads in the bodies of macros may declare. Of macros, modules and what is brought in the names alone are known.
    fn declare_all(
        &mut self,
        call: NodeId,
        place: Place,
        heads: &[Head],
    ) -> Result<(), AllocError> {
        let mut own = place;
        own.owner = Owner::Module;
        own.is_sure = false;
        for head in heads {
            match head.kind {
                HeadKind::Item(kind) if kind != ItemKind::Macro => {
                    self.declare_item(call, own, head.name, kind)?;
                }
                _ => self.add_unknown(own.module, head.name)?,
            }
        }
        Ok(())
    }

    /// Adds names of which nothing is known but that they may be there.
    fn add_all_unknown(&mut self, module: ModuleNo, names: &[Name]) -> Result<(), AllocError> {
        for name in names {
            self.add_unknown(module, *name)?;
        }
        Ok(())
    }

    /// Adds the words of an argument as names that may be there, but for those of some heads.
    fn add_words(
        &mut self,
        code: Code<'_>,
        argument: NodeNo,
        place: Place,
        but: &[Head],
    ) -> Result<(), AllocError> {
        let mut known = BTreeSet::new(self.alloc);
        for head in but {
            known.insert(head.name)?;
        }
        let tokens = code.tokens(argument);
        for token in tokens.start..tokens.end {
            if code.token_kind(token).is(SyntaxKind::IDENT) {
                let name = self.names.add(code.token_text(token))?;
                if known.insert(name)? {
                    self.add_unknown(place.module, name)?;
                }
            }
        }
        Ok(())
    }
}
