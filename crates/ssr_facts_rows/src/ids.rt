//! The numbers of scopes, definitions and types.

use crate::from_json::FromJson;
use crate::rows_error::RowsError;
use serde_json::Value;
use ssr_base_trees::{DefId, ScopeId, TypeId};
use std::alloc::Global;

impl FromJson for ScopeId {
    ghost use Rattle.ssr_base_trees.specs.declared.ids.ScopeId.{ScopeId};
    ghost use Rattle.ssr_facts_rows.specs.Ids.{scope_id};

    ghost Plain = { ScopeId };

    ghost plain = { λ id. id };

    ghost reading = { scope_id };

    fn from_json(alloc: Global, value: &Value) -> Result<ScopeId, RowsError> {
        Ok(ScopeId(u32::from_json(alloc, value)?))
    }
}

impl FromJson for DefId {
    ghost use Rattle.ssr_base_trees.specs.declared.ids.DefId.{DefId};
    ghost use Rattle.ssr_facts_rows.specs.Ids.{def_id};

    ghost Plain = { DefId };

    ghost plain = { λ id. id };

    ghost reading = { def_id };

    fn from_json(alloc: Global, value: &Value) -> Result<DefId, RowsError> {
        Ok(DefId(u32::from_json(alloc, value)?))
    }
}

impl FromJson for TypeId {
    ghost use Rattle.ssr_base_trees.specs.declared.ids.TypeId.{TypeId};
    ghost use Rattle.ssr_facts_rows.specs.Ids.{type_id};

    ghost Plain = { TypeId };

    ghost plain = { λ id. id };

    ghost reading = { type_id };

    fn from_json(alloc: Global, value: &Value) -> Result<TypeId, RowsError> {
        Ok(TypeId(u32::from_json(alloc, value)?))
    }
}
