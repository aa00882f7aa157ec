//! What holds of the tokens of texts, whatever the code: each function here does nothing, and what it ensures is a law.
ghost use Rattle.std.specs.Prelude.{◌≡◌, ℕ, ◌+◌, false, List, [], ◌∷◌, ◌++◌, Some, length, IsTrue};
ghost use Rattle.std.specs.Str.{IsUtf8};
ghost use Rattle.ssr_syntax_lex.specs.Seams.{is_seam, side_by_side, ends_in_line_comment, has_token_at, begins_at_seam, ends_at_seam};
ghost use Rattle.ssr_syntax_lex.specs.Tokens.{tokens};
ghost use Rattle.ssr_syntax_lex.specs.declared.tokens.RawToken.{RawToken};

/// The tokens of two texts side by side are those of both, if the second text begins with a bracket, a comma or a `;`, or
/// the first one ends with one, and no comment to the end of a line ends the first. The other way round, a text is cut in
/// front of such a character and behind it, where one of its tokens begins there. The character is a token of its own.
/// Behind the first text tokens begin just where they do in the second.
pub fn seams()
    ensures before { (a b : List ℕ) (c : ℕ) (ts us : List RawToken) → IsUtf8 a → IsTrue (is_seam c)
        → tokens a ≡ Some ts → tokens (c ∷ b) ≡ Some us → ends_in_line_comment a ts ≡ false
        → tokens (a ++ c ∷ b) ≡ Some (side_by_side (length a) ts us) }
    ensures behind { (a b : List ℕ) (c : ℕ) (ts us : List RawToken) → IsUtf8 a → IsTrue (is_seam c)
        → tokens (a ++ c ∷ []) ≡ Some ts → tokens b ≡ Some us → ends_in_line_comment (a ++ c ∷ []) ts ≡ false
        → tokens (a ++ c ∷ b) ≡ Some (side_by_side (length a + 1) ts us) }
    ensures cut_before { (a b : List ℕ) (c : ℕ) (ws : List RawToken) → IsUtf8 a → IsTrue (is_seam c)
        → tokens (a ++ c ∷ b) ≡ Some ws → IsTrue (has_token_at (length a) ws)
        → (ts : List RawToken) × (us : List RawToken) × (tokens a ≡ Some ts) × (tokens (c ∷ b) ≡ Some us)
        × (ends_in_line_comment a ts ≡ false) × (ws ≡ side_by_side (length a) ts us) }
    ensures cut_behind { (a b : List ℕ) (c : ℕ) (ws : List RawToken) → IsUtf8 a → IsTrue (is_seam c)
        → tokens (a ++ c ∷ b) ≡ Some ws → IsTrue (has_token_at (length a) ws)
        → (ts : List RawToken) × (us : List RawToken) × (tokens (a ++ c ∷ []) ≡ Some ts) × (tokens b ≡ Some us)
        × (ends_in_line_comment (a ++ c ∷ []) ts ≡ false) × (ws ≡ side_by_side (length a + 1) ts us) }
    ensures places { (a : List ℕ) (place : ℕ) (ts us : List RawToken) → IsUtf8 a → tokens a ≡ Some ts
        → has_token_at (length a + place) (side_by_side (length a) ts us) ≡ has_token_at place us }
    ensures first { (b : List ℕ) (c : ℕ) (us : List RawToken) → IsTrue (is_seam c) → tokens (c ∷ b) ≡ Some us → IsTrue (begins_at_seam us) }
    ensures last { (a : List ℕ) (c : ℕ) (ts : List RawToken) → IsUtf8 a → IsTrue (is_seam c) → tokens (a ++ c ∷ []) ≡ Some ts
        → ends_in_line_comment (a ++ c ∷ []) ts ≡ false → IsTrue (ends_at_seam ts) }
{}
