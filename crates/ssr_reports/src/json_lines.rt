//! Matches, what isn't searched, and the summary as lines of JSON.
ghost use Rattle.std.specs.Prelude.{◌≡◌, ◌∷◌, [], ◌++◌, IfOk, OnOk, flat_map, codes};
ghost use Rattle.json.specs.Lex.{tokens};
ghost use Rattle.json.specs.Print.{print};
ghost use Rattle.ssr_reports.specs.JsonLines.{Gains, number_field, text_field, new_field, null_field, flag_field, place_fields, range_fields, not_searched_tokens, placeholders_tokens, match_tokens, summary_tokens, unchanged_tokens, IsLineOf, held_tokens};

use crate::places::LinePlace;
use crate::summary::Summary;
use json::Writer;
use ssr_syntax_kinds::TextRange;
use std::alloc::{AllocError, Global};

/// What a placeholder holds: its name without `$`, and its range in the file with the text there.
#[derive(Clone, Copy, Debug)]
pub struct Held<'a> {
    pub name: &'a str,
    pub range: TextRange,
    pub text: &'a str,
}

/// A match: the number of its rule, from 0, its file, its range of bytes there with the place where it begins, the text in the
/// range, the new text if there is one, whether it holds a byte that is set aside, and its placeholders.
#[derive(Clone, Copy, Debug)]
pub struct MatchReport<'a> {
    pub rule: usize,
    pub file: &'a str,
    pub range: TextRange,
    pub place: LinePlace,
    pub old: &'a str,
    pub new: Option<&'a str>,
    pub set_aside: bool,
    pub placeholders: &'a [Held<'a>],
}

/// Bytes of a file that aren't searched, with the place where they begin.
#[derive(Clone, Copy, Debug)]
pub struct NotSearched<'a> {
    pub file: &'a str,
    pub range: TextRange,
    pub place: LinePlace,
}

/// A match as an object of JSON, and a line break. Its bytes are UTF-8.
pub fn match_json(alloc: Global, report: &MatchReport<'_>) -> Result<Vec<u8>, AllocError>
    ensures { IfOk result (IsLineOf (match_tokens report.now)) }
{
    let mut writer = Writer::new(Vec::new(alloc));
    push_match(&mut writer, report)?;
    ended(writer)
}

fn push_match(writer: &mut Writer, report: &MatchReport<'_>) -> Result<(), AllocError>
    ensures { OnOk result (Gains writer.old writer.new (match_tokens report.now)) }
{
    writer.begin_object()?;
    push_found(writer, report)?;
    push_change(writer, report)?;
    push_placeholders(writer, report.placeholders)?;
    writer.end_object()?;
    Ok(())
}

fn push_placeholders(writer: &mut Writer, placeholders: &[Held<'_>]) -> Result<(), AllocError>
    ensures { OnOk result (Gains writer.old writer.new (placeholders_tokens placeholders.now)) }
{
    writer.key("placeholders")?;
    writer.begin_array()?;
    push_all_held(writer, placeholders)?;
    writer.end_array()?;
    Ok(())
}

fn push_all_held(writer: &mut Writer, placeholders: &[Held<'_>]) -> Result<(), AllocError>
    ensures { OnOk result (Gains writer.old writer.new (flat_map held_tokens placeholders.now)) }
{
    for held in placeholders {
        push_held(writer, held)?;
    }
    Ok(())
}

/// Bytes that aren't searched as an object of JSON, and a line break.
pub fn not_searched_json(alloc: Global, report: &NotSearched<'_>) -> Result<Vec<u8>, AllocError>
    ensures { IfOk result (IsLineOf (not_searched_tokens report.now)) }
{
    let mut writer = Writer::new(Vec::new(alloc));
    push_not_searched(&mut writer, report)?;
    ended(writer)
}

fn push_not_searched(writer: &mut Writer, report: &NotSearched<'_>) -> Result<(), AllocError>
    ensures { OnOk result (Gains writer.old writer.new (not_searched_tokens report.now)) }
{
    writer.begin_object()?;
    writer.key("not_searched")?;
    writer.begin_object()?;
    push_range(writer, report.file, report.range, report.place)?;
    writer.end_object()?;
    writer.end_object()?;
    Ok(())
}

/// The summary as an object of JSON, and a line break.
pub fn summary_json(alloc: Global, summary: Summary) -> Result<Vec<u8>, AllocError>
    ensures { IfOk result (IsLineOf (summary_tokens summary)) }
{
    let mut writer = Writer::new(Vec::new(alloc));
    push_summary(&mut writer, summary)?;
    ended(writer)
}

fn push_summary(writer: &mut Writer, summary: Summary) -> Result<(), AllocError>
    ensures { OnOk result (Gains writer.old writer.new (summary_tokens summary)) }
{
    writer.begin_object()?;
    writer.key("summary")?;
    writer.begin_object()?;
    push_number(writer, "files", summary.files)?;
    push_number(writer, "matches", summary.matches)?;
    push_number(writer, "edits", summary.edits)?;
    push_number(writer, "set_aside", summary.set_aside)?;
    push_unchanged(writer, summary)?;
    push_number(writer, "left_out", summary.left_out)?;
    push_number(writer, "not_searched", summary.not_searched)?;
    writer.end_object()?;
    writer.end_object()?;
    Ok(())
}

/// Adds how many places aren't changed for other reasons than what is set aside.
fn push_unchanged(writer: &mut Writer, summary: Summary) -> Result<(), AllocError>
    ensures { OnOk result (Gains writer.old writer.new (unchanged_tokens summary)) }
{
    push_number(writer, "unread", summary.unread)?;
    push_number(writer, "undecided", summary.undecided)?;
    Ok(())
}

/// What is written, with a line break.
fn ended(writer: Writer) -> Result<Vec<u8>, AllocError>
    ensures line { IfOk result (λ line. line.items ≡ (writer.before ++ print writer.tokens) ++ 10 ∷ []) }
    ensures reads_back { tokens (print writer.tokens) ≡ writer.tokens }
{
    let mut line = writer.into_inner();
    line.push(b'\n')?;
    Ok(line)
}

/// Where a match stands.
fn push_found(writer: &mut Writer, report: &MatchReport<'_>) -> Result<(), AllocError>
    ensures { OnOk result (Gains writer.old writer.new (place_fields report.now)) }
{
    push_number(writer, "rule", report.rule)?;
    push_range(writer, report.file, report.range, report.place)?;
    Ok(())
}

/// Bytes of a file, and where they begin.
fn push_range(
    writer: &mut Writer,
    file: &str,
    range: TextRange,
    place: LinePlace,
) -> Result<(), AllocError>
    ensures { OnOk result (Gains writer.old writer.new (range_fields file.now range place)) }
{
    push_text(writer, "file", file)?;
    push_number(writer, "start", range.start as usize)?;
    push_number(writer, "end", range.end as usize)?;
    push_number(writer, "line", place.line)?;
    push_number(writer, "column", place.column)?;
    Ok(())
}

/// What a match is, and what it becomes.
fn push_change(writer: &mut Writer, report: &MatchReport<'_>) -> Result<(), AllocError>
    ensures { OnOk result (Gains writer.old writer.new (text_field (codes "old") report.now.old.now ++ (new_field report.now.new ++ flag_field (codes "set_aside") report.now.set_aside))) }
{
    push_text(writer, "old", report.old)?;
    push_new(writer, report.new)?;
    push_flag(writer, "set_aside", report.set_aside)?;
    Ok(())
}

/// The new text of a match, or null.
fn push_new(writer: &mut Writer, new: Option<&str>) -> Result<(), AllocError>
    ensures { OnOk result (Gains writer.old writer.new (new_field new.entry)) }
{
    match new {
        Some(new) => push_text(writer, "new", new),
        None => push_null(writer, "new"),
    }
}

/// What a placeholder holds.
fn push_held(writer: &mut Writer, held: &Held<'_>) -> Result<(), AllocError>
    ensures { OnOk result (Gains writer.old writer.new (held_tokens held.now)) }
{
    writer.begin_object()?;
    push_text(writer, "name", held.name)?;
    push_number(writer, "start", held.range.start as usize)?;
    push_number(writer, "end", held.range.end as usize)?;
    push_text(writer, "text", held.text)?;
    writer.end_object()?;
    Ok(())
}

fn push_null(writer: &mut Writer, name: &str) -> Result<(), AllocError>
    ensures { OnOk result (Gains writer.old writer.new (null_field name.now)) }
{
    writer.key(name)?;
    writer.null()
}

fn push_flag(writer: &mut Writer, name: &str, flag: bool) -> Result<(), AllocError>
    ensures { OnOk result (Gains writer.old writer.new (flag_field name.now flag)) }
{
    writer.key(name)?;
    writer.boolean(flag)
}

fn push_number(writer: &mut Writer, name: &str, number: usize) -> Result<(), AllocError>
    ensures { OnOk result (Gains writer.old writer.new (number_field name.now number)) }
{
    writer.key(name)?;
    writer.u64(number as u64)
}

fn push_text(writer: &mut Writer, name: &str, text: &str) -> Result<(), AllocError>
    ensures { OnOk result (Gains writer.old writer.new (text_field name.now text.now)) }
{
    writer.key(name)?;
    writer.string(text)
}
