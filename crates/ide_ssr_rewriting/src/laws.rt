//! What holds of the words of the contracts, whatever the code: each function here does nothing, and what
//! it ensures is a law.
ghost use Rattle.ide_ssr_nesting.specs.Holding.{Kept, IsKept};
ghost use Rattle.ide_ssr_nesting.specs.Lists.{Listing, AreLists};
ghost use Rattle.ide_ssr_rewriting.specs.Replacements.{Writing};
ghost use Rattle.ide_ssr_rewriting.specs.Laws.{AnswerExists, EditsOrClash, OneEdit, OneText, TextsExist};

/// There are texts that stand for kept matches, and no others.
pub fn rewriting()
    ensures exist { (kept : Kept) (lists : Listing) (by : Writing) → IsKept kept → AreLists kept lists → TextsExist kept lists by }
    ensures one { (kept : Kept) (lists : Listing) (by : Writing) → IsKept kept → AreLists kept lists → OneText kept lists by }
{}

/// There is an answer, edits or a clash, and it is one: all edits that are answered are the same, and they aren't answered where
/// a clash is.
pub fn answering()
    ensures exist { (kept : Kept) (lists : Listing) (by : Writing) → IsKept kept → AreLists kept lists → AnswerExists kept lists by }
    ensures one { (kept : Kept) (lists : Listing) (by : Writing) → IsKept kept → AreLists kept lists → OneEdit kept lists by }
    ensures edits_or_clash { (kept : Kept) (lists : Listing) (by : Writing) → IsKept kept → AreLists kept lists → EditsOrClash kept lists by }
{}
