//! The parts of values of JSON.

ghost use Rattle.std.specs.Prelude.{◌≡◌, map, string_bytes};
ghost use Rattle.std.specs.List.{list_all};
ghost use Rattle.std.specs.Map.{keys_of};
ghost use Rattle.serde_json.specs.Find.{as_str};
ghost use Rattle.serde_json.specs.View.{view};
ghost use Rattle.ssr_facts_rows.specs.Private.Answers.{Gives};
ghost use Rattle.ssr_facts_rows.specs.Fields.{items, two, three, four, five, is_among, has_only};

use crate::rows_error::RowsError;
use serde_json::{Map, Value};

/// The text of a string.
pub(crate) fn text(value: &Value) -> Result<&str, RowsError>
    ensures { Gives (λ text. text.now) (as_str (view value.now)) result }
{
    match value.as_str() {
        Some(text) => Ok(text),
        None => Err(RowsError::Shape),
    }
}

/// The values of an array.
#[tactic(auto, using(crate::proofs::Lists::list_of_of_view))]
pub(crate) fn items(value: &Value) -> Result<&[Value], RowsError>
    ensures { Gives (λ list. map view list.now) (items (view value.now)) result }
{
    match value.as_array() {
        Some(list) => Ok(list),
        None => Err(RowsError::Shape),
    }
}

/// The values of an array of two.
pub(crate) fn two(value: &Value) -> Result<(&Value, &Value), RowsError>
    ensures { Gives (λ p. (view p.0.now, view p.1.now)) (two (view value.now)) result }
{
    match items(value)? {
        [first, second] => Ok((first, second)),
        _ => Err(RowsError::Shape),
    }
}

/// The values of an array of three.
pub(crate) fn three(value: &Value) -> Result<(&Value, &Value, &Value), RowsError>
    ensures { Gives (λ p. (view p.0.now, view p.1.now, view p.2.now)) (three (view value.now)) result }
{
    match items(value)? {
        [first, second, third] => Ok((first, second, third)),
        _ => Err(RowsError::Shape),
    }
}

/// The values of an array of four.
pub(crate) fn four(value: &Value) -> Result<(&Value, &Value, &Value, &Value), RowsError>
    ensures { Gives (λ p. (view p.0.now, view p.1.now, view p.2.now, view p.3.now)) (four (view value.now)) result }
{
    match items(value)? {
        [first, second, third, fourth] => Ok((first, second, third, fourth)),
        _ => Err(RowsError::Shape),
    }
}

/// The values of an array of five.
pub(crate) fn five(value: &Value) -> Result<(&Value, &Value, &Value, &Value, &Value), RowsError>
    ensures { Gives (λ p. (view p.0.now, view p.1.now, view p.2.now, view p.3.now, view p.4.now)) (five (view value.now)) result }
{
    match items(value)? {
        [first, second, third, fourth, fifth] => Ok((first, second, third, fourth, fifth)),
        _ => Err(RowsError::Shape),
    }
}

/// Whether a key is among these.
#[tactic(auto, using(crate::proofs::Lists::any_of_map))]
fn is_among(keys: &[&str], key: &str) -> bool
    ensures { result ≡ is_among (map (λ k. k.now) keys.now) key.now }
{
    keys.contains(&key)
}

/// Whether all keys of an object are among these.
fn are_among(keys: &[&str], members: &Map<String, Value>) -> bool
    ensures { result ≡ list_all (λ key. is_among (map (λ k. k.now) keys.now) (string_bytes key)) (keys_of members.now.entries) }
{
    members.keys().all(|key| is_among(keys, key))
}

/// Refuses what is no object, and an object with a key beside these.
#[tactic(auto, using(crate::proofs::Lists::all_of_members_view))]
pub(crate) fn has_only(keys: &[&str], value: &Value) -> Result<(), RowsError>
    ensures { Gives (λ _. tt) (has_only (map (λ k. k.now) keys.now) (view value.now)) result }
{
    match value.as_object() {
        Some(members) if are_among(keys, members) => Ok(()),
        _ => Err(RowsError::Shape),
    }
}
