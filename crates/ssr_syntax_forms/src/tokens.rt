//! The tokens that the parser reads, and sets of their kinds.
ghost use Rattle.std.specs.Prelude.{◌≡◌, List, [], ◌∷◌};
ghost use Rattle.ssr_syntax_kinds.specs.declared.kinds.SyntaxKind.{SyntaxKind};
ghost use Rattle.ssr_syntax_forms.specs.Kinds.{mem};
ghost use Rattle.ssr_syntax_forms.specs.Forms.{holds, last_isnt, next, none_is};
ghost use Rattle.ssr_syntax_forms.specs.Private.Ahead.{behind_next, nth};

use ssr_syntax_kinds::SyntaxKind;

/// A token that is neither white space nor a comment.
#[derive(Clone, Copy)]
pub struct Token {
    /// Its own kind, as it is cut from the text.
    pub kind: SyntaxKind,
    /// The kind of the longest token that begins here, joined from this one and those directly behind it.
    pub joined: SyntaxKind,
    /// How many tokens, this one among them, that longest token is joined from.
    pub size: u8,
}

/// The kind of what follows the last token. No token has it.
pub const END: SyntaxKind = SyntaxKind::SOURCE_FILE;

/// Some kinds of tokens. A look into it takes one step, whatever its size.
pub trait TokenSet: Copy {
    /// Its kinds.
    ghost kinds: { Self → List SyntaxKind };

    /// Whether a kind is one of the set.
    fn contains(self, kind: SyntaxKind) -> bool
        ensures { result ≡ mem kind (kinds self) };
}

/// A kind is the set of itself alone.
impl TokenSet for SyntaxKind {
    ghost kinds = { λ k. k ∷ [] };

    #[inline(always)]
    fn contains(self, kind: SyntaxKind) -> bool {
        kind == self
    }
}

/// The kind of the token that so many stand in front of; `END` where there is none.
#[tactic(auto, using(crate::proofs::Ahead::nth_start, crate::proofs::Ahead::nth_step, crate::proofs::Ahead::nth_end))]
pub(crate) fn nth(tokens: &[Token], ahead: usize) -> SyntaxKind
    ensures { result ≡ nth ahead tokens.now }
{
    let mut rest = tokens;
    for _passed in 0..ahead {
        rest = behind_next(rest);
    }
    next(rest)
}

/// The kind of the next of the tokens; `END` behind the last one.
pub(crate) fn next(tokens: &[Token]) -> SyntaxKind
    ensures { result ≡ next tokens.now }
{
    match tokens.first() {
        Some(token) => token.joined,
        None => END,
    }
}

/// The tokens behind the next one.
#[tactic(auto, using(std::proofs::lemmas::List::drop_all))]
fn behind_next(tokens: &[Token]) -> &[Token]
    ensures { result.now ≡ behind_next tokens.now }
{
    let Some((token, rest)) = tokens.split_first() else {
        return tokens;
    };
    let more = token.size.saturating_sub(1) as usize;
    if more < rest.len() {
        &rest[more..]
    } else {
        &[]
    }
}

/// Whether none of the tokens, as they are cut from the text, is of these kinds.
pub(crate) fn none_is<S: TokenSet>(tokens: &[Token], set: S) -> bool
    ensures { result ≡ holds (none_is (S.kinds set)) tokens.now }
{
    let mut rest = tokens;
    while let Some((token, behind)) = rest.split_first() {
        if set.contains(token.kind) {
            return false;
        }
        rest = behind;
    }
    true
}

/// Whether the last of the tokens, as it is cut from the text, isn't of these kinds.
#[tactic(auto, using(crate::proofs::Ahead::last_told))]
pub(crate) fn last_isnt<S: TokenSet>(tokens: &[Token], set: S) -> bool
    ensures { result ≡ holds (last_isnt (S.kinds set)) tokens.now }
{
    match tokens.last() {
        Some(token) => !set.contains(token.kind),
        None => true,
    }
}
