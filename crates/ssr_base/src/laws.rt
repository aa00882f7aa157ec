//! What holds of workspaces, whatever the code: each function here does nothing, and what it ensures is a law.
ghost use Rattle.std.specs.Prelude.{◌≡◌, List, Ok, String};
ghost use Rattle.std.specs.Global.{Global};
ghost use Rattle.ssr_base.specs.declared.building.Expansion.{Expansion};
ghost use Rattle.ssr_base_trees.specs.Workspace.{Workspace as WorkspaceValue};
ghost use Rattle.ssr_base.specs.Building.{built};
ghost use Rattle.ssr_base_trees.specs.Built.{IsBuilt};

pub use ssr_base_trees::laws::{climbing, original_ranges, original_ranges_of_tokens};

/// What each workspace keeps that is built.
pub fn building()
    ensures { (files : List (String Global)) (expansions : List Expansion) (w : WorkspaceValue) → built files expansions ≡ Ok w → IsBuilt w }
{}
