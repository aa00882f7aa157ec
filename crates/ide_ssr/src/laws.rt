//! What holds of the words of the contracts, whatever the code: each function here does nothing, and what it ensures is a law;
//! but for `equality`, which compares, and `first_phase`, which runs the matcher's first phase alone. Those of what is found, of
//! kept matches and their lists, of shapes, of white space and comments and of errors stand in the crates of their words.
ghost use Rattle.ssr_base_trees.specs.Built.{IsBuilt};
ghost use Rattle.ide_ssr.specs.Finder.{Finder};
ghost use Rattle.ide_ssr.specs.Laws.{AnswerExists, OneEdit, OneOutcome, OutcomeExists};

pub use ide_ssr_leading::laws::leading;
pub use ide_ssr_matching::laws::{first_phase, shape, trivia};
pub use ide_ssr_nesting::laws::{holding, keeping, listing, ordering};
pub use ide_ssr_refusals::laws::equality;
pub use ide_ssr_search::laws::finding;

/// A finder's search comes to an outcome, and to one: there is one list of kept matches, and one way to list them.
pub fn searching()
    ensures exist { (finder : Finder) → IsBuilt finder.workspace → OutcomeExists finder }
    ensures one { (finder : Finder) → OneOutcome finder }
{}

/// Where each rule has a template, there are edits or a clash. There is one edit for each file.
pub fn editing()
    ensures exist { (finder : Finder) → IsBuilt finder.workspace → AnswerExists finder }
    ensures one { (finder : Finder) → OneEdit finder }
{}
