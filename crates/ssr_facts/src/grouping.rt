//! Maps that are made of rows.

ghost use Rattle.std.specs.Prelude.{◌≡◌, ◌++◌, ◌∷◌, [], IfOk, OnOk, map, if◌then◌else◌, Some, None};
ghost use Rattle.std.specs.BTreeMap.{get, is_at};
ghost use Rattle.std.specs.Map.{lookup, keys_of};
ghost use Rattle.std.specs.Option.{option_or};
ghost use Rattle.ssr_facts.specs.Grouping.{group_at};

use std::alloc::{AllocError, Global};
use std::collections::BTreeMap;

/// Adds what a key has, unless it has something.
pub(crate) fn add_first<K: Ord + Drop, V: Drop>(
    map: &mut BTreeMap<K, V>,
    key: K,
    value: V,
) -> Result<(), AllocError>
    ensures { OnOk result ((other : K) → get K.cmp map.new other ≡ option_or (get K.cmp map.old other) (if is_at (K.cmp key) other then Some value else None)) }
{
    if !map.contains_key(&key) {
        map.insert(key, value)?;
    }
    Ok(())
}

/// What rows say: of those with one key the first.
pub(crate) fn first_rows<K: Ord + Drop, V: Drop>(
    alloc: Global,
    mut rows: Vec<(K, V)>,
) -> Result<BTreeMap<K, V>, AllocError>
    ensures { IfOk result (λ map. (key : K) → get K.cmp map key ≡ lookup (is_at (K.cmp key)) rows.items) }
{
    let mut map = BTreeMap::new(alloc);
    // From the last row on, so that a row takes the place of later ones, and no key is looked for.
    while let Some((key, value)) = rows.pop() {
        map.insert(key, value)?;
    }
    Ok(map)
}

/// The keys of rows.
pub(crate) fn keys<K: Copy, V>(alloc: Global, rows: &[(K, V)]) -> Result<Vec<K>, AllocError>
    ensures { IfOk result (λ keys. keys.items ≡ keys_of rows.now) }
{
    rows.iter().map(|row| row.0).collect(alloc)
}

/// Adds a value to those of a key.
pub(crate) fn add<K: Ord + Drop, V: Drop>(
    alloc: Global,
    groups: &mut BTreeMap<K, Vec<V>>,
    key: K,
    value: V,
) -> Result<(), AllocError>
    ensures { OnOk result ((other : K) → group_at K.cmp groups.new other ≡ (if is_at (K.cmp key) other then group_at K.cmp groups.old other ++ value ∷ [] else group_at K.cmp groups.old other)) }
{
    let mut group = groups.remove(&key).unwrap_or(Vec::new(alloc));
    group.push(value)?;
    groups.insert(key, group)?;
    Ok(())
}
