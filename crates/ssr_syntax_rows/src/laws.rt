//! What holds of the solid tokens of texts, whatever the code: each function here does nothing, and what it ensures is a
//! law.
ghost use Rattle.std.specs.Prelude.{◌≡◌, ◌||◌, ℕ, List, ◌++◌, Some, length, IsTrue};
ghost use Rattle.std.specs.Str.{IsUtf8};
ghost use Rattle.ssr_syntax_lex.specs.Seams.{side_by_side, begins_at_seam, ends_at_seam};
ghost use Rattle.ssr_syntax_lex.specs.Tokens.{tokens};
ghost use Rattle.ssr_syntax_lex.specs.declared.tokens.RawToken.{RawToken};
ghost use Rattle.ssr_syntax_rows.specs.Solid.{solid_tokens, pieces};

/// Where tokens stand side by side at a bracket, a comma or a `;`, none is joined across it: the solid tokens are those of
/// both sides. So are the pieces, wherever the texts meet.
pub fn seams()
    ensures solid { (a : List ℕ) (n : ℕ) (ts us : List RawToken) → tokens a ≡ Some ts → IsTrue (ends_at_seam ts || begins_at_seam us)
        → solid_tokens (side_by_side n ts us) ≡ solid_tokens ts ++ solid_tokens us }
    ensures pieces { (a b : List ℕ) (ts us : List RawToken) → IsUtf8 a → tokens a ≡ Some ts
        → pieces (a ++ b) (side_by_side (length a) ts us) ≡ pieces a ts ++ pieces b us }
{}
