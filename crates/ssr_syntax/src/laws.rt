//! What holds of trees and of the trees of texts, whatever the code: each function here does nothing, and what it
//! ensures is a law.
ghost use Rattle.std.specs.Prelude.{◌≡◌, ◌↔◌, ℕ, List, Some, IsTrue};
ghost use Rattle.ssr_syntax_lex.specs.declared.tokens.RawToken.{RawToken};
ghost use Rattle.ssr_syntax_lex.specs.Tokens.{tokens};
ghost use Rattle.ssr_syntax_tree.specs.ClearPaths.{HasClearPaths};
ghost use Rattle.ssr_syntax_tree.specs.Syntax.{Syntax, tokens_of};
ghost use Rattle.ssr_syntax.specs.declared.expansions.ExpToken.{ExpToken};
ghost use Rattle.ssr_syntax.specs.declared.expansions.ExpansionKind.{ExpansionKind};
ghost use Rattle.ssr_syntax_kinds.specs.declared.fragment.Fragment.{Fragment};
ghost use Rattle.ssr_syntax_kinds.specs.declared.reach.Reach.{Reach};
ghost use Rattle.ssr_syntax_types.specs.declared.goals.Goal.{Goal};
ghost use Rattle.ssr_syntax.specs.Decision.{decide_fits};
ghost use Rattle.ssr_syntax_forms.specs.Decision.{is_empty, reached};
ghost use Rattle.ssr_syntax_forms.specs.Fitting.{Fits};
ghost use Rattle.ssr_syntax_forms.specs.Forms.{SoFar};
ghost use Rattle.ssr_syntax.specs.Grammar.{grammar, grammar_of};
ghost use Rattle.ssr_syntax.specs.Identifiers.{IdentsAloneIn, idents};
ghost use Rattle.ssr_syntax.specs.Expansions.{FitsExpansion, FitsExpansionOf};
ghost use Rattle.ssr_syntax.specs.Reading.{FitsFile, FitsFileOf, FitsFragment, FitsFragmentOf, trimmed};
ghost use Rattle.ssr_syntax_rows.specs.Solid.{pieces};
ghost use Rattle.ssr_syntax.specs.Operands.{KeepsPrecedence, KeepsPrecedenceOf};
ghost use Rattle.ssr_syntax_forms.specs.Trees.{Forest, done, spell};
ghost use Rattle.ssr_syntax_forms.specs.declared.tokens.Token.{Token};

/// At most one tree fits a file, in each reach.
pub fn files()
    ensures one { (text : List ℕ) (a b : Syntax) → FitsFile text a → FitsFile text b → a ≡ b }
    ensures one_of { (reach : Reach) (text : List ℕ) (a b : Syntax) → FitsFileOf reach text a → FitsFileOf reach text b → a ≡ b }
{}

/// At most one tree fits a fragment. A tree that fits has the identifiers of the text without the white
/// space around it, in order, and each is the only child of its node, but in the nodes that are made to mix
/// identifiers with other tokens. Its token trees have no nodes but token trees, and the arguments of its paths begin
/// with a token that is no identifier. All but what is said of the text's identifiers holds in each reach.
pub fn fragments()
    ensures one { (fragment : Fragment) (text : List ℕ) (a b : Syntax) → FitsFragment fragment text a → FitsFragment fragment text b → a ≡ b }
    ensures idents { (fragment : Fragment) (text : List ℕ) (syntax : Syntax) → FitsFragment fragment text syntax
        → (raw : List RawToken) × (tokens (trimmed text) ≡ Some raw) × (idents (tokens_of syntax) ≡ idents (pieces (trimmed text) raw)) }
    ensures alone { (fragment : Fragment) (text : List ℕ) (syntax : Syntax) → FitsFragment fragment text syntax → IdentsAloneIn syntax }
    ensures clear { (fragment : Fragment) (text : List ℕ) (syntax : Syntax) → FitsFragment fragment text syntax → HasClearPaths syntax }
    ensures one_of { (reach : Reach) (fragment : Fragment) (text : List ℕ) (a b : Syntax) → FitsFragmentOf reach fragment text a → FitsFragmentOf reach fragment text b → a ≡ b }
    ensures alone_of { (reach : Reach) (fragment : Fragment) (text : List ℕ) (syntax : Syntax) → FitsFragmentOf reach fragment text syntax → IdentsAloneIn syntax }
    ensures clear_of { (reach : Reach) (fragment : Fragment) (text : List ℕ) (syntax : Syntax) → FitsFragmentOf reach fragment text syntax → HasClearPaths syntax }
{}

/// At most one tree fits what a macro call stands for, in each reach.
pub fn expansions()
    ensures one { (kind : ExpansionKind) (tokens : List ExpToken) (a b : Syntax) → FitsExpansion kind tokens a → FitsExpansion kind tokens b → a ≡ b }
    ensures one_of { (reach : Reach) (kind : ExpansionKind) (tokens : List ExpToken) (a b : Syntax) → FitsExpansionOf reach kind tokens a → FitsExpansionOf reach kind tokens b → a ≡ b }
{}

/// Whether a forest is one of a goal, before the tokens behind it, is decided: by the way back over the goal's form, with
/// the same answers for the goals in it.
pub fn fitting()
    ensures decided { (goal : Goal) (r : SoFar) → IsTrue (decide_fits goal r) ↔ Fits grammar (grammar goal) done r.made (spell r.made) r.rest }
    ensures answers { (goal : Goal) (r : SoFar) → decide_fits goal r ≡ reached decide_fits (grammar goal) is_empty r }
{}

/// Whatever fits keeps precedence: what is called, indexed, cast, asked for a field or a method, or stands before a `?`,
/// the operand of an operator in front, and the left one of an operator that has a rank bind at least as tightly as the
/// whole, and the right one of such an operator tighter. Each operand of a range binds tighter than a range, the left one
/// of an assignment tighter than an assignment, and what `let` compares with tighter than `&&`. `return`, `break` and
/// closures bind least.
///
/// In all of Rust an operand may also be `return`, `break` or a closure, which takes all that follows: so it stands at the
/// right end, and no operator, call or cast goes on with what ends with it.
pub fn operands()
    ensures stated { (goal : Goal) (z : Forest) (us rest : List Token) → Fits grammar (grammar goal) done z us rest → KeepsPrecedence z }
    ensures of_reach { (reach : Reach) (goal : Goal) (z : Forest) (us rest : List Token) → Fits (grammar_of reach) (grammar_of reach goal) done z us rest
        → KeepsPrecedenceOf reach z }
{}
