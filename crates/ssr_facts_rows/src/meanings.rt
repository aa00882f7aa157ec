//! What names mean, and which types expressions have. A row is a key, or the place of a node, and what is known of it.

use crate::fields::{five, four, has_only, text, three, two};
use crate::from_json::{FromJson, defaulted, required};
use crate::places::{PlaceRow, place};
use crate::rows_error::RowsError;
use serde_json::Value;
use ssr_base_trees::{DefId, DefInfo, DefKind, Res, ScopeId, SelfKind, TypeId};
use std::alloc::Global;

/// What is known of a definition, and the type that it declares.
#[derive(Clone, Copy, Debug, PartialEq, Eq)]
pub struct Definition {
    pub info: DefInfo,
    pub adt_type: TypeId,
}

/// A path, as the texts of its segments, that is written in a scope.
#[derive(Debug, PartialEq, Eq, PartialOrd, Ord, Drop)]
pub struct NameKey {
    pub scope: ScopeId,
    pub path: Vec<String>,
}

/// The name of a member of a type, as a scope sees it.
#[derive(Debug, PartialEq, Eq, PartialOrd, Ord, Drop)]
pub struct MemberKey {
    pub scope: ScopeId,
    pub adt: DefId,
    pub name: String,
}

/// A definition, as a scope reaches it.
#[derive(Clone, Copy, Debug, PartialEq, Eq, PartialOrd, Ord)]
pub struct PrintedKey {
    pub scope: ScopeId,
    pub def: DefId,
}

/// What a method call calls, and how that takes the value that it is called on.
#[derive(Clone, Copy, Debug, PartialEq, Eq)]
pub struct Method {
    pub def: DefId,
    pub self_kind: SelfKind,
}

impl FromJson for DefKind {
    ghost use Rattle.ssr_base_trees.specs.declared.semantics.DefKind.{DefKind};
    ghost use Rattle.ssr_facts_rows.specs.Meanings.{def_kind};

    ghost Plain = { DefKind };

    ghost plain = { λ kind. kind };

    ghost reading = { def_kind };

    fn from_json(_alloc: Global, value: &Value) -> Result<DefKind, RowsError> {
        match text(value)? {
            "module" => Ok(DefKind::Module),
            "function" => Ok(DefKind::Function),
            "adt" => Ok(DefKind::Adt),
            "variant" => Ok(DefKind::Variant),
            "const" => Ok(DefKind::Const),
            "static" => Ok(DefKind::Static),
            "trait" => Ok(DefKind::Trait),
            "type_alias" => Ok(DefKind::TypeAlias),
            "builtin" => Ok(DefKind::BuiltinType),
            "macro" => Ok(DefKind::Macro),
            _ => Err(RowsError::Shape),
        }
    }
}

impl FromJson for Definition {
    ghost use Rattle.ssr_facts_rows.specs.declared.meanings.Definition.{Definition};
    ghost use Rattle.ssr_facts_rows.specs.Meanings.{definition};

    ghost Plain = { Definition };

    ghost plain = { λ row. row };

    ghost reading = { definition };

    fn from_json(alloc: Global, value: &Value) -> Result<Definition, RowsError> {
        has_only(&["kind", "assoc", "self", "type"], value)?;
        Ok(Definition {
            info: DefInfo {
                kind: required(alloc, value, "kind")?,
                assoc: defaulted(alloc, value, "assoc", false)?,
                takes_self: defaulted(alloc, value, "self", false)?,
            },
            adt_type: defaulted(alloc, value, "type", TypeId(0))?,
        })
    }
}

impl FromJson for Res {
    ghost use Rattle.ssr_base_trees.specs.declared.semantics.Res.{Res};
    ghost use Rattle.ssr_facts_rows.specs.Meanings.{res};

    ghost Plain = { Res };

    ghost plain = { λ res. res };

    ghost reading = { res };

    fn from_json(alloc: Global, value: &Value) -> Result<Res, RowsError> {
        let (kind, number) = two(value)?;
        let number = u32::from_json(alloc, number)?;
        match text(kind)? {
            "def" => Ok(Res::Def(DefId(number))),
            "local" => Ok(Res::Local(number)),
            "typeparam" => Ok(Res::TypeParam(number)),
            "constparam" => Ok(Res::ConstParam(number)),
            "selftype" => Ok(Res::SelfType(number)),
            "other" => Ok(Res::Other(number)),
            _ => Err(RowsError::Shape),
        }
    }
}

/// What a path stands for in a scope.
impl FromJson for (NameKey, Res) {
    ghost use Rattle.ssr_base_trees.specs.declared.semantics.Res.{Res};
    ghost use Rattle.ssr_facts_rows.specs.Meanings.{PlainNameKey, plain_name, name_row};

    ghost Plain = { PlainNameKey × Res };

    ghost plain = { plain_name };

    ghost reading = { name_row };

    fn from_json(alloc: Global, value: &Value) -> Result<(NameKey, Res), RowsError> {
        let (scope, path, res) = three(value)?;
        let key = NameKey {
            scope: ScopeId::from_json(alloc, scope)?,
            path: Vec::from_json(alloc, path)?,
        };
        Ok((key, Res::from_json(alloc, res)?))
    }
}

/// The member of a name that a type has, seen from a scope.
impl FromJson for (MemberKey, DefId) {
    ghost use Rattle.ssr_base_trees.specs.declared.ids.DefId.{DefId};
    ghost use Rattle.ssr_facts_rows.specs.Meanings.{PlainMemberKey, plain_member, member_row};

    ghost Plain = { PlainMemberKey × DefId };

    ghost plain = { plain_member };

    ghost reading = { member_row };

    fn from_json(alloc: Global, value: &Value) -> Result<(MemberKey, DefId), RowsError> {
        let (scope, adt, name, member) = four(value)?;
        let key = MemberKey {
            scope: ScopeId::from_json(alloc, scope)?,
            adt: DefId::from_json(alloc, adt)?,
            name: String::from_json(alloc, name)?,
        };
        Ok((key, DefId::from_json(alloc, member)?))
    }
}

/// What the path at a place stands for.
impl FromJson for (PlaceRow, Res) {
    ghost use Rattle.ssr_base_trees.specs.declared.semantics.Res.{Res};
    ghost use Rattle.ssr_facts_rows.specs.declared.places.PlaceRow.{PlaceRow};
    ghost use Rattle.ssr_facts_rows.specs.Meanings.{path_row};

    ghost Plain = { PlaceRow × Res };

    ghost plain = { λ row. row };

    ghost reading = { path_row };

    fn from_json(alloc: Global, value: &Value) -> Result<(PlaceRow, Res), RowsError> {
        let (tree, start, end, res) = four(value)?;
        let place = place(alloc, tree, start, end)?;
        Ok((place, Res::from_json(alloc, res)?))
    }
}

impl FromJson for SelfKind {
    ghost use Rattle.ssr_base_trees.specs.declared.semantics.SelfKind.{SelfKind};
    ghost use Rattle.ssr_facts_rows.specs.Meanings.{self_kind};

    ghost Plain = { SelfKind };

    ghost plain = { λ kind. kind };

    ghost reading = { self_kind };

    fn from_json(_alloc: Global, value: &Value) -> Result<SelfKind, RowsError> {
        match text(value)? {
            "owned" => Ok(SelfKind::Owned),
            "ref" => Ok(SelfKind::Ref),
            "mut" => Ok(SelfKind::Mut),
            _ => Err(RowsError::Shape),
        }
    }
}

/// Which method the call at a place calls.
impl FromJson for (PlaceRow, Method) {
    ghost use Rattle.ssr_facts_rows.specs.declared.meanings.Method.{Method};
    ghost use Rattle.ssr_facts_rows.specs.declared.places.PlaceRow.{PlaceRow};
    ghost use Rattle.ssr_facts_rows.specs.Meanings.{method_row};

    ghost Plain = { PlaceRow × Method };

    ghost plain = { λ row. row };

    ghost reading = { method_row };

    fn from_json(alloc: Global, value: &Value) -> Result<(PlaceRow, Method), RowsError> {
        let (tree, start, end, def, self_kind) = five(value)?;
        let place = place(alloc, tree, start, end)?;
        let method = Method {
            def: DefId::from_json(alloc, def)?,
            self_kind: SelfKind::from_json(alloc, self_kind)?,
        };
        Ok((place, method))
    }
}

/// The types of the expression at a place.
impl FromJson for (PlaceRow, Vec<TypeId>) {
    ghost use Rattle.std.specs.Prelude.{List};
    ghost use Rattle.ssr_base_trees.specs.declared.ids.TypeId.{TypeId};
    ghost use Rattle.ssr_facts_rows.specs.declared.places.PlaceRow.{PlaceRow};
    ghost use Rattle.ssr_facts_rows.specs.Meanings.{plain_types, type_row};

    ghost Plain = { PlaceRow × List TypeId };

    ghost plain = { plain_types };

    ghost reading = { type_row };

    fn from_json(alloc: Global, value: &Value) -> Result<(PlaceRow, Vec<TypeId>), RowsError> {
        let (tree, start, end, types) = four(value)?;
        let place = place(alloc, tree, start, end)?;
        Ok((place, Vec::from_json(alloc, types)?))
    }
}

/// The path by which a scope reaches a definition.
impl FromJson for (PrintedKey, String) {
    ghost use Rattle.std.specs.Prelude.{List, ℕ};
    ghost use Rattle.ssr_facts_rows.specs.declared.meanings.PrintedKey.{PrintedKey};
    ghost use Rattle.ssr_facts_rows.specs.Meanings.{plain_printed, printed_row};

    ghost Plain = { PrintedKey × List ℕ };

    ghost plain = { plain_printed };

    ghost reading = { printed_row };

    fn from_json(alloc: Global, value: &Value) -> Result<(PrintedKey, String), RowsError> {
        let (scope, def, text) = three(value)?;
        let key = PrintedKey {
            scope: ScopeId::from_json(alloc, scope)?,
            def: DefId::from_json(alloc, def)?,
        };
        Ok((key, String::from_json(alloc, text)?))
    }
}
