//! What holds of names in a short text: each function here does nothing, and what it ensures is a law.
ghost use Rattle.std.specs.Prelude.{◌≡◌, All, List, false, length, map};
ghost use Rattle.ssr_syntax_kinds.specs.Kinds.{is_trivia};
ghost use Rattle.ssr_syntax_tree.specs.Places.{token_of};
ghost use Rattle.ssr_syntax_tree.specs.Syntax.{Syntax};
ghost use Rattle.ssr_syntax_tree.specs.declared.number.TokenNo.{TokenNo};
ghost use Rattle.ssr_syntax_places.specs.Core.{Hole};
ghost use Rattle.ssr_syntax_places.specs.LongTexts.{holes_in};
ghost use Rattle.ssr_syntax_places.specs.Woven.{Part};
ghost use Rattle.ssr_syntax_shorts.specs.Names.{name_places, place_of, AreNames};

/// The tokens that stand where the parts of a text have their names are the names of the tree: they stand for what the list tells.
#[tactic(auto, using(crate::proofs::NamedByParts::named_by_parts))]
pub fn names()
    ensures { (tree : Syntax) (names : List TokenNo) (short : List Part) (holes : List Hole)
        → All (λ (name : TokenNo). is_trivia (token_of tree name.0).kind ≡ false) names → length short ≡ length holes
        → map (λ (name : TokenNo). place_of tree name.0) names ≡ name_places 0 short → AreNames tree names (holes_in 0 short holes) }
{}
