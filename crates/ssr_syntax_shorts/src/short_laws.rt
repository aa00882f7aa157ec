//! What holds of short texts, whatever the code: each function here does nothing, and what it ensures is a law.
ghost use Rattle.std.specs.Prelude.{◌≡◌, ◌++◌, ◌∷◌, [], ℕ, List, length};
ghost use Rattle.std.specs.Str.{IsUtf8};
ghost use Rattle.ssr_syntax_kinds.specs.declared.reach.Reach.{Reach};
ghost use Rattle.ssr_syntax_shorts.specs.Shorts.{ShortText, ShortRead, IsOutside, IsReadOf, IsShort, as_it_is, in_parentheses, joined, long_place, opening};

/// A text is short for itself; a name in parentheses stands for what was read; and one short text behind another is short for the
/// long texts of both. Where they meet is outside of all names, and that is the place of the long text at which its halves meet.
pub fn shorts()
    ensures as_it_is { (reach : Reach) (text : List ℕ) → IsUtf8 text → IsShort reach (as_it_is text) text }
    ensures in_parentheses { (reach : Reach) (read : ShortRead) (long : List ℕ) → IsReadOf reach read long
        → IsShort reach (in_parentheses read.bytes read.depth) (opening ∷ (long ++ 41 ∷ [])) }
    ensures joined { (reach : Reach) (a b : ShortText) (long more : List ℕ) → IsShort reach a long → IsShort reach b more
        → IsShort reach (joined a b) (long ++ more) }
    ensures outside { (reach : Reach) (a b : ShortText) (long more : List ℕ) → IsShort reach a long → IsShort reach b more
        → IsOutside (joined a b).names (length a.text) }
    ensures places { (reach : Reach) (a b : ShortText) (long more : List ℕ) → IsShort reach a long → IsShort reach b more
        → long_place (joined a b).names (length a.text) ≡ length long }
{}
