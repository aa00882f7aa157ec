//! What holds of facts, whatever the code: each function here does nothing, and what it ensures is a law.
ghost use Rattle.ssr_facts_rows.specs.Facts.{PlainFacts};
ghost use Rattle.ssr_facts.specs.Laws.{OneWorkspace};

/// Of rows one workspace is built, or one refusal told, whatever texts and expansions have these rows.
pub fn building()
    ensures { (rows : PlainFacts) → OneWorkspace rows }
{}
