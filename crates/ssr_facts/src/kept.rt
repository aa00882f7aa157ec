//! Of the scopes of a tree that began, those that are the shortest ones for some end. By their ends they grow longer.

ghost use Rattle.std.specs.Prelude.{◌≡◌, ◌+◌, ◌<◌, ◌≤◌, ◌++◌, ◌∷◌, [], ℕ, List, length, take, slice_get, IfOk, OnOk, IfSome, IfNone, Some, IsTrue, false};
ghost use Rattle.std.specs.Ordering.{nat_cmp};
ghost use Rattle.std.specs.BTreeMap.{get};
ghost use Rattle.ssr_facts.specs.declared.scopes.Scope.{Scope as Kept};
ghost use Rattle.ssr_facts.specs.Private.Scopes.{IsBetter, Covers, IsKept, IsKeptBeside, IsFirst, IsWorse, IsPassed};

use crate::scopes::Scope;
use std::alloc::AllocError;
use std::collections::BTreeMap;

/// The first kept scope that ends at a byte or behind it.
pub(crate) fn first_from(kept: &BTreeMap<u32, Scope>, end: u32) -> Option<Scope>
    ensures { IsFirst (get nat_cmp kept.now) end result }
{
    let (_, scope) = kept.range(end..).next()?;
    Some(*scope)
}

/// Whether a kept scope is as good as another one, wherever that serves.
fn is_covered(kept: &BTreeMap<u32, Scope>, scope: &Scope) -> bool
    ensures yes { IsTrue result → Covers (get nat_cmp kept.now) scope.now }
    ensures no { result ≡ false → (begun : List Kept) → IsKept (get nat_cmp kept.now) begun → (k : ℕ) (v : Kept) → scope.now.end ≤ k → get nat_cmp kept.now k ≡ Some v → IsBetter scope.now v }
{
    match first_from(kept, scope.end) {
        Some(first) => first.is_as_good(scope),
        None => false,
    }
}

/// The end of the last kept scope up to the end of another one, if that one is as good.
fn last_worse(kept: &BTreeMap<u32, Scope>, scope: &Scope) -> Option<u32>
    ensures worse { IfSome result (IsWorse (get nat_cmp kept.now) scope.now) }
    ensures passed { IfNone result ((k : ℕ) (v : Kept) → k ≤ scope.now.end → get nat_cmp kept.now k ≡ Some v → IsPassed (get nat_cmp kept.now) scope.now k) }
{
    let (end, last) = kept.range(..=scope.end).next_back()?;
    if scope.is_as_good(last) {
        Some(*end)
    } else {
        None
    }
}

/// Takes out the kept scopes up to the end of another one than which that one is as good.
fn take_worse_out(kept: &mut BTreeMap<u32, Scope>, scope: &Scope)
    ensures kept { (begun : List Kept) → IsKeptBeside (get nat_cmp kept.old) begun scope.now → IsKeptBeside (get nat_cmp kept.new) begun scope.now }
    ensures better { (begun : List Kept) → IsKeptBeside (get nat_cmp kept.old) begun scope.now → (k : ℕ) (v : Kept) → k ≤ scope.now.end → get nat_cmp kept.new k ≡ Some v → IsBetter v scope.now }
{
    while let Some(end) = last_worse(kept, scope) {
        kept.remove(&end);
    }
}

/// Keeps a scope that begins behind no later one, if it is the shortest one for some end.
pub(crate) fn keep(kept: &mut BTreeMap<u32, Scope>, scope: Scope) -> Result<(), AllocError>
    ensures { OnOk result ((begun : List Kept) → IsKept (get nat_cmp kept.old) begun → IsKept (get nat_cmp kept.new) (begun ++ scope ∷ [])) }
{
    if is_covered(kept, &scope) {
        return Ok(());
    }
    take_worse_out(kept, &scope);
    kept.insert(scope.end, scope)?;
    Ok(())
}

/// Keeps the scopes from the number `next` on that begin up to a byte. How many have begun then.
pub(crate) fn keep_begun(
    kept: &mut BTreeMap<u32, Scope>,
    scopes: &[Scope],
    next: usize,
    start: u32,
) -> Result<usize, AllocError>
    requires { next ≤ length scopes.now }
    ensures within { IfOk result (λ past. (next ≤ past) × (past ≤ length scopes.now)) }
    ensures kept { IfOk result (λ past. IsKept (get nat_cmp kept.old) (take next scopes.now) → IsKept (get nat_cmp kept.new) (take past scopes.now)) }
    ensures begun { IfOk result (λ past. (k : ℕ) (v : Kept) → next ≤ k → k < past → slice_get scopes.now k ≡ Some v → v.start ≤ start) }
    ensures waiting { IfOk result (λ past. (v : Kept) → slice_get scopes.now past ≡ Some v → start < v.start) }
{
    let mut past = next;
    while past < scopes.len() && scopes[past].start <= start {
        keep(kept, scopes[past])?;
        past += 1;
    }
    Ok(past)
}
