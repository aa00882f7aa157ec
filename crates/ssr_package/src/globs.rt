//! Patterns of names, and what isn't read in them.
ghost use Rattle.std.specs.Prelude.{◌≡◌, ◌<◌, ◌&&◌, ◌||◌, if◌then◌else◌, [], IfOk, drop, length};
ghost use Rattle.std.specs.Str.{chars};
ghost use Rattle.ssr_package.specs.Globs as spec;
ghost use Rattle.ssr_package.specs.Private.Globs.{IsRow};

use std::alloc::{AllocError, Global};

/// Whether a name fits a pattern: `*` stands for any text, also none, and `?` for one character.
pub(crate) fn fits(alloc: Global, pattern: &str, name: &str) -> Result<bool, AllocError>
    ensures { IfOk result (λ it_fits. it_fits ≡ spec.fits (chars pattern.now) (chars name.now)) }
{
    let pattern = characters(alloc, pattern)?;
    let name = characters(alloc, name)?;
    characters_fit(alloc, &pattern, &name)
}

/// The characters of a text.
fn characters(alloc: Global, text: &str) -> Result<Vec<char>, AllocError>
    ensures { IfOk result (λ all. all.items ≡ chars text.now) }
{
    text.chars().collect(alloc)
}

/// Whether the characters of a name fit those of a pattern. Of each end of the name, from the shortest on, it is noted which ends
/// of the pattern it fits. So the time is that of the pattern for each character.
fn characters_fit(alloc: Global, pattern: &[char], name: &[char]) -> Result<bool, AllocError>
    ensures { IfOk result (λ it_fits. it_fits ≡ spec.fits pattern.now name.now) }
{
    let mut row = row_of_nothing(alloc, pattern)?;
    let mut start = name.len();
    while start > 0 {
        start -= 1;
        row = row_of(alloc, pattern, &name[start..], &row)?;
    }
    Ok(row[pattern.len()])
}

/// Which ends of a pattern nothing fits.
fn row_of_nothing(alloc: Global, pattern: &[char]) -> Result<Vec<bool>, AllocError>
    ensures { IfOk result (λ row. IsRow pattern.now [] row.items) }
{
    let mut row = Vec::new(alloc);
    row.push(true)?;
    for n in 0..pattern.len() {
        let it_fits = nothing_fits_with(pattern[pattern.len() - 1 - n], row[n]);
        row.push(it_fits)?;
    }
    Ok(row)
}

/// Which ends of a pattern a name fits, from those that the name without its first character fits.
fn row_of(
    alloc: Global,
    pattern: &[char],
    name: &[char],
    below: &[bool],
) -> Result<Vec<bool>, AllocError>
    requires some { 0 < length name.now }
    requires below { IsRow pattern.now (drop 1 name.now) below.now }
    ensures { IfOk result (λ row. IsRow pattern.now name.now row.items) }
{
    let mut row = Vec::with_capacity(alloc, below.len())?;
    row.push(false)?;
    for n in 0..pattern.len() {
        let p = pattern[pattern.len() - 1 - n];
        let it_fits = fits_with(p, name[0], row[n], below[n + 1], below[n]);
        row.push(it_fits)?;
    }
    Ok(row)
}

/// Whether nothing fits a pattern, from its first character, and whether nothing fits the rest.
fn nothing_fits_with(p: char, rest: bool) -> bool
    ensures { result ≡ (spec.is_star p && rest) }
{
    p == '*' && rest
}

/// Whether a name fits a pattern, from the first characters of both, and whether the name fits the rest of the pattern, its rest the
/// pattern, and its rest the rest.
fn fits_with(p: char, c: char, name: bool, rest: bool, both: bool) -> bool
    ensures { result ≡ (if spec.is_star p then name || rest else spec.stands_for p c && both) }
{
    if p == '*' {
        name || rest
    } else {
        (p == '?' || p == c) && both
    }
}

/// Whether a path has a pattern in it.
pub(crate) fn is_pattern(path: &str) -> bool {
    path.contains('*') || path.contains('?')
}

/// What makes a path a pattern that isn't read, if something does.
pub(crate) fn unread_mark(path: &str) -> Option<&'static str> {
    if path.contains('[') { Some("[") } else { None }
}
