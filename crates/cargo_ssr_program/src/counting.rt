//! How many matches and edits a run comes to.

use crate::input::Input;
use ssr_changes::{FileChange, FoundPlace};
use ssr_reports::Summary;

/// How many changes are made in a file.
fn edit_count(change: &FileChange) -> usize {
    change.edit.iter().count()
}

/// The counts of what changes.
pub(crate) fn counts_of_changes(changes: &[FileChange], input: &Input) -> Summary {
    let mut counts = Summary {
        files: changes.len(),
        matches: 0,
        edits: 0,
        set_aside: 0,
        unread: 0,
        undecided: input.undecided,
        left_out: input.passed_over.left_out,
        not_searched: input.passed_over.not_searched.len(),
    };
    for change in changes {
        let edits = edit_count(change);
        counts.edits = counts.edits.saturating_add(edits);
        counts.set_aside = counts.set_aside.saturating_add(change.told.len());
        counts.unread = counts.unread.saturating_add(change.unread.len());
    }
    let left = counts.set_aside.saturating_add(counts.unread);
    counts.matches = counts.edits.saturating_add(left);
    counts
}

/// The counts of matches, which stand in the order of their files.
pub(crate) fn counts_of_places(places: &[FoundPlace], input: &Input) -> Summary {
    let mut files = 0usize;
    let mut last = None;
    for place in places {
        let file = place.range.file_id.0;
        if last != Some(file) {
            files = files.saturating_add(1);
            last = Some(file);
        }
    }
    Summary {
        files,
        matches: places.len(),
        edits: 0,
        set_aside: places.iter().filter(|place| place.holds_aside).count(),
        unread: 0,
        undecided: input.undecided,
        left_out: input.passed_over.left_out,
        not_searched: input.passed_over.not_searched.len(),
    }
}
