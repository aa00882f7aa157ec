//! The usages that a provider tells, each once in a search.
ghost use Rattle.std.specs.Prelude.{IfOk};
ghost use Rattle.std.specs.BTreeMap.{get};
ghost use Rattle.ide_ssr_leading.specs.Private.Usages.{KnowsUsages, HasUsages};

use ssr_base_trees::{NodeId, Res, Semantics};
use std::alloc::{AllocError, Global};
use std::collections::BTreeMap;

/// Asks for the usages of a thing, if they aren't known yet.
pub(crate) fn know_usages<S: Semantics>(
    alloc: Global,
    semantics: &S,
    res: Res,
    known: &mut BTreeMap<Res, Vec<NodeId>>,
) -> Result<(), AllocError>
    requires { KnowsUsages (S.meanings semantics.now) known.old }
    ensures known { IfOk result (λ _. KnowsUsages (S.meanings semantics.now) known.new) }
    ensures has { IfOk result (λ _. HasUsages (S.meanings semantics.now) known.new res) }
{
    if known.contains_key(&res) {
        return Ok(());
    }
    let usages = semantics.usages(alloc, res)?;
    known.insert(res, usages)?;
    Ok(())
}
