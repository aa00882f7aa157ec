//! What holds of the words of the contracts, whatever the code: each function here does nothing, and what
//! it ensures is a law.
ghost use Rattle.std.specs.Prelude.{◌≡◌, ◌≢◌, ℕ, List, Result, Err};
ghost use Rattle.ssr_facts_rows.specs.Facts.{facts_of};
ghost use Rattle.ssr_facts.specs.Reading.{Answers};
ghost use Rattle.ssr_facts.specs.declared.facts.Facts.{Facts};
ghost use Rattle.ssr_facts.specs.declared.facts_error.FactsError.{FactsError};
ghost use Rattle.ssr_facts.specs.declared.facts_error.FactsError.TheVariants as errors;
ghost use Rattle.ssr_program.specs.declared.commands.Form.{Form};
ghost use Rattle.ssr_program.specs.declared.commands.Form.TheVariants as forms;
ghost use Rattle.ssr_program.specs.Output.{Output};
ghost use Rattle.ssr_program.specs.Running.{IsOutput};

/// For rules and the bytes of a file there is an output. For those of a facts file there is one where `read` may answer anything
/// of them but want of memory, be it facts or a refusal. That it may is not said here. In neither form there are two.
pub fn outputs()
    ensures of_file { (rules : List (List ℕ)) (bytes : List ℕ) → (output : Output) × IsOutput forms.File rules bytes output }
    ensures of_facts { (rules : List (List ℕ)) (bytes : List ℕ) (read : Result Facts FactsError) → read ≢ Err errors.Memory → Answers (facts_of bytes) read → (output : Output) × IsOutput forms.Facts rules bytes output }
    ensures no_other { (form : Form) (rules : List (List ℕ)) (bytes : List ℕ) (a b : Output) → IsOutput form rules bytes a → IsOutput form rules bytes b → a ≡ b }
{}
