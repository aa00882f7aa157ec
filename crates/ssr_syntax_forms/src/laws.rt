//! What holds of every grammar, whatever the code: each function here does nothing, and what it ensures is a law.
ghost use Rattle.std.specs.Prelude.{◌≡◌, ◌++◌, Bool, ℕ, List, Ok, Err};
ghost use Rattle.ssr_syntax_forms.specs.declared.fault.Fault.{Fault};
ghost use Rattle.ssr_syntax_forms.specs.declared.tokens.Token.{Token};
ghost use Rattle.ssr_syntax_forms.specs.Fitting.{Fits};
ghost use Rattle.ssr_syntax_forms.specs.Forms.{Productions, in_reach};
ghost use Rattle.ssr_syntax_forms.specs.Levels.{read_goal};
ghost use Rattle.ssr_syntax_forms.specs.Parser.{State, state_of, unwritten};
ghost use Rattle.ssr_syntax_forms.specs.Written.{writes};
ghost use Rattle.ssr_syntax_forms.specs.Runs.{run_goal};
ghost use Rattle.ssr_syntax_forms.specs.Trees.{Forest, done};
ghost use Rattle.ssr_syntax_kinds.specs.declared.kinds.SyntaxKind.{SyntaxKind};

/// What a run of a goal in a reach takes of a list of tokens is a forest of that goal, by the grammar of the reach, before
/// the tokens that are left, and it writes that forest. A run that is refused is refused by the reading.
#[tactic(auto, using(crate::proofs::Levels::fits_as_run, crate::proofs::Levels::refused_at_start))]
pub fn runs<Goal>()
    ensures fits { (is_whole : Bool) (grammar : Productions Goal) (levels : ℕ) (goal : Goal) (kinds : List SyntaxKind) (ts : List Token) (new : State)
        → run_goal is_whole grammar levels goal (state_of (unwritten kinds) ts) ≡ Ok new
        → (z : Forest) × (us : List Token) × Fits (in_reach is_whole grammar) (in_reach is_whole grammar goal) done z us new.rest × (ts ≡ us ++ new.rest) × (new.out ≡ writes z (unwritten kinds)) }
    ensures refused { (is_whole : Bool) (grammar : Productions Goal) (levels : ℕ) (goal : Goal) (kinds : List SyntaxKind) (ts : List Token) (f : Fault)
        → run_goal is_whole grammar levels goal (state_of (unwritten kinds) ts) ≡ Err f → read_goal (in_reach is_whole grammar) levels goal ts ≡ Err f }
{}
