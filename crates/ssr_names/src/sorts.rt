//! What is known of a definition: its sort.
ghost use Rattle.std.specs.Prelude.{◌≡◌};
ghost use Rattle.ssr_names.specs.Locals.{is_capital};

use crate::definitions::{Definition, OutsideNo};
use crate::outside::OutsidePaths;
use crate::space::Space;
use crate::std_names::is_builtin_type;
use ssr_base_trees::{DefInfo, DefKind};
use ssr_names_items::{Item, ItemKind, Namespace, Owner};

/// Whether a name begins with a capital letter.
pub(crate) fn is_capital(name: &str) -> bool
    ensures { result ≡ is_capital name.now }
{
    match name.as_bytes().first() {
        Some(byte) => byte.is_ascii_uppercase(),
        None => false,
    }
}

/// Whether a name has no small letters.
fn has_capitals_alone(name: &str) -> bool {
    !name.as_bytes().iter().any(|byte| byte.is_ascii_lowercase())
}

/// Whether a name behind a type is spelled as that of a constant. A capital letter alone, or with a digit behind it, is that of a
/// variant, as in `IpAddr::V4`.
fn is_constant_name(name: &str) -> bool {
    match name.as_bytes() {
        [first, second, ..] => {
            first.is_ascii_uppercase() && !second.is_ascii_digit() && has_capitals_alone(name)
        }
        _ => false,
    }
}

/// What is known of an item.
fn item_info(item: &Item) -> DefInfo {
    let kind = match item.kind {
        ItemKind::Function => DefKind::Function,
        ItemKind::Struct | ItemKind::Enum | ItemKind::Union => DefKind::Adt,
        ItemKind::Variant => DefKind::Variant,
        ItemKind::Const => DefKind::Const,
        ItemKind::Static => DefKind::Static,
        ItemKind::Trait => DefKind::Trait,
        ItemKind::TypeAlias => DefKind::TypeAlias,
        ItemKind::Macro => DefKind::Macro,
    };
    DefInfo {
        kind,
        assoc: item.kind != ItemKind::Variant && item.owner != Owner::Module,
        takes_self: false,
    }
}

/// What is known of a name behind a type.
fn member_info(name: &str, namespace: Namespace) -> DefInfo {
    let kind = match namespace {
        Namespace::Type => DefKind::TypeAlias,
        Namespace::Macro => DefKind::Macro,
        Namespace::Value if is_constant_name(name) => DefKind::Const,
        Namespace::Value if is_capital(name) => DefKind::Variant,
        Namespace::Value => DefKind::Function,
    };
    DefInfo {
        kind,
        assoc: kind != DefKind::Variant,
        takes_self: false,
    }
}

/// What is known of a name behind a module.
fn plain_info(name: &str, namespace: Namespace) -> DefInfo {
    let kind = match namespace {
        Namespace::Macro => DefKind::Macro,
        Namespace::Type if is_capital(name) => DefKind::Adt,
        Namespace::Type => DefKind::Module,
        Namespace::Value if is_capital(name) && has_capitals_alone(name) => DefKind::Const,
        Namespace::Value if is_capital(name) => DefKind::Adt,
        Namespace::Value => DefKind::Function,
    };
    DefInfo {
        kind,
        assoc: false,
        takes_self: false,
    }
}

impl<'a> Space<'a> {
    /// Whether a path that isn't read is that of a type, as its name shows.
    pub(crate) fn is_type(&self, outside: &OutsidePaths, path: OutsideNo) -> bool {
        match outside.path(path) {
            Some(row) => is_capital(self.text(row.name)) || self.is_builtin(outside, path),
            None => false,
        }
    }

    /// Whether a path that isn't read is a builtin type.
    fn is_builtin(&self, outside: &OutsidePaths, path: OutsideNo) -> bool {
        let Some(row) = outside.path(path) else {
            return false;
        };
        let known = self.builtin_type(row.name) == Some(Definition::Outside(path));
        known && is_builtin_type(self.text(row.name))
    }

    /// What is known of a path that isn't read.
    fn outside_info(
        &self,
        outside: &OutsidePaths,
        path: OutsideNo,
        namespace: Namespace,
    ) -> DefInfo {
        let Some(row) = outside.path(path) else {
            return plain_info("", namespace);
        };
        if self.is_builtin(outside, path) {
            return DefInfo {
                kind: DefKind::BuiltinType,
                assoc: false,
                takes_self: false,
            };
        }
        match row.parent {
            Some(parent) if self.is_type(outside, parent) => {
                member_info(self.text(row.name), namespace)
            }
            _ => plain_info(self.text(row.name), namespace),
        }
    }

    /// What is known of a definition that a path of a namespace stands for.
    pub(crate) fn info(
        &self,
        outside: &OutsidePaths,
        definition: Definition,
        namespace: Namespace,
    ) -> DefInfo {
        match definition {
            Definition::Module(_) => plain_info("", Namespace::Type),
            Definition::Item(item) => match self.item(item) {
                Some(row) => item_info(&row),
                None => plain_info("", namespace),
            },
            Definition::Outside(path) => self.outside_info(outside, path, namespace),
            Definition::Member(_, name) => member_info(self.text(name), namespace),
        }
    }
}
