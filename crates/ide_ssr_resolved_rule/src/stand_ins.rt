//! Stand-ins: the identifiers that are read in the place of placeholders.
ghost use Rattle.std.specs.Prelude.{◌≡◌, ℕ, List, Some, false, bytes_eq};
ghost use Rattle.std.specs.Option.{option_map_or};
ghost use Rattle.ide_ssr_resolved_rule.specs.StandIns.{stand_in_of};

/// What stands before a placeholder's name in the identifier that is read in its place.
pub const STAND_IN_PREFIX: &str = "__placeholder_";

/// The name whose stand-in a text is.
pub fn stand_in_name(text: &str) -> Option<&str>
    ensures { (name : List ℕ) → bytes_eq text.now (stand_in_of name) ≡ option_map_or (λ rest. bytes_eq rest.now name) result false }
{
    match text.strip_prefix(STAND_IN_PREFIX) {
        Some(rest) => Some(rest),
        None => None,
    }
}
