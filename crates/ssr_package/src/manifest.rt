//! What a manifest says.
ghost use Rattle.std.specs.Prelude.{◌≡◌, option_map};
ghost use Rattle.toml.specs.View.{table_view};
ghost use Rattle.ssr_package.specs.Manifest as spec;

use toml::{Table, Value};

/// The string at a key of a table.
pub(crate) fn text_at<'a>(table: &'a Table, key: &str) -> Option<&'a str>
    ensures { option_map (λ s. s.now) result ≡ spec.text_at key.now (table_view table.now) }
{
    match table.get(key) {
        Some(value) => value.as_str(),
        None => None,
    }
}

/// The table at a key of a table.
pub(crate) fn table_at<'a>(table: &'a Table, key: &str) -> Option<&'a Table>
    ensures { option_map (λ t. table_view t.now) result ≡ spec.table_at key.now (table_view table.now) }
{
    match table.get(key) {
        Some(value) => value.as_table(),
        None => None,
    }
}

/// Whether a table says `key = false`.
pub(crate) fn is_off(table: &Table, key: &str) -> bool
    ensures { result ≡ spec.is_off key.now (table_view table.now) }
{
    match table.get(key) {
        Some(value) => match value.as_bool() {
            Some(is_on) => !is_on,
            None => false,
        },
        None => false,
    }
}

/// The items of the array at a key of a table; none, where there is no array.
pub(crate) fn items_at<'a>(table: &'a Table, key: &str) -> &'a [Value] {
    match table.get(key) {
        Some(value) => match value.as_array() {
            Some(items) => items.as_slice(),
            None => &[],
        },
        None => &[],
    }
}

/// The name of a manifest's package.
pub(crate) fn package_name(manifest: &Table) -> Option<&str>
    ensures { option_map (λ s. s.now) result ≡ spec.package_name (table_view manifest.now) }
{
    match table_at(manifest, "package") {
        Some(package) => text_at(package, "name"),
        None => None,
    }
}

/// The name of a manifest's library, where it gives one.
pub(crate) fn library_name(manifest: &Table) -> Option<&str>
    ensures { option_map (λ s. s.now) result ≡ spec.library_name (table_view manifest.now) }
{
    match table_at(manifest, "lib") {
        Some(library) => text_at(library, "name"),
        None => None,
    }
}

/// The path of a manifest's library, where it gives one.
pub(crate) fn library_path(manifest: &Table) -> Option<&str>
    ensures { option_map (λ s. s.now) result ≡ spec.library_path (table_view manifest.now) }
{
    match table_at(manifest, "lib") {
        Some(library) => text_at(library, "path"),
        None => None,
    }
}
