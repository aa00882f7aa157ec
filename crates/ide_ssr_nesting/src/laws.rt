//! What holds of the words of the contracts, whatever the code: each function here does nothing, and what it ensures is a law.
ghost use Rattle.ssr_base_trees.specs.Workspace.{Workspace as WorkspaceValue, trees};
ghost use Rattle.ssr_base_trees.specs.Built.{IsBuilt};
ghost use Rattle.ide_ssr_nesting.specs.Holding.{Kept, IsKept};
ghost use Rattle.ide_ssr_nesting.specs.Laws.{BelowIsBetween, OnePlaceEach, OneWayUp, KeptExist, OneKept, KeptOfEnough, LiesInOnePlaceholder, ListsWhatIsHeld, ListsInOrder, ListsEachOnce, ListsExist, OneListing, HeldBehind, OneHolding};

/// What stands below a node are the nodes between its place and its end, and no two nodes have one place. Of two nodes above a
/// third one, one stands above the other, or they are the same.
pub fn ordering()
    ensures below { (w : WorkspaceValue) → IsBuilt w → BelowIsBetween (trees w) }
    ensures one { (w : WorkspaceValue) → IsBuilt w → OnePlaceEach (trees w) }
    ensures one_way { (w : WorkspaceValue) → IsBuilt w → OneWayUp (trees w) }
{}

/// Of matches that are found some are kept. Which ones doesn't depend on the order in which they are found, nor on finding one
/// twice, nor on finding what is shadowed. A kept match lies in exactly one placeholder of each kept match over it.
pub fn keeping()
    ensures exist { (w : WorkspaceValue) → IsBuilt w → KeptExist w }
    ensures one_kept { (w : WorkspaceValue) → IsBuilt w → OneKept (trees w) }
    ensures of_enough { (w : WorkspaceValue) → KeptOfEnough (trees w) }
    ensures one_placeholder { (w : WorkspaceValue) → IsBuilt w → LiesInOnePlaceholder (trees w) }
{}

/// What a placeholder holds comes behind its match, and the kept matches alone tell what holds each of them.
pub fn holding()
    ensures behind { (kept : Kept) → IsKept kept → HeldBehind kept }
    ensures one { OneHolding }
{}

/// The list of a placeholder has the places of what it holds, in order, each once, and so has that of the outermost matches.
/// There is a way to list kept matches, and it is one.
pub fn listing()
    ensures held { (kept : Kept) → IsKept kept → ListsWhatIsHeld kept }
    ensures in_order { (kept : Kept) → ListsInOrder kept }
    ensures once { (kept : Kept) → ListsEachOnce kept }
    ensures exist { (kept : Kept) → IsKept kept → ListsExist kept }
    ensures one { (kept : Kept) → OneListing kept }
{}
