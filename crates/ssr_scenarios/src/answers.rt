//! What is asked in scenarios.

use crate::counts::write_counts;
use crate::leads::write_leads;
use crate::lines::Line;
use crate::matches::{write_debug_info, write_held, write_places, write_texts};
use crate::nodes::write_nodes;
use crate::rows::{write_facts, write_rows};
use crate::rules::write_rule;
use crate::searches::Searches;
use crate::shapes::write_shapes;
use crate::texts::text_of;
use crate::tokens::write_tokens;
use crate::told::Told;
use crate::trees::{goal_of, write_tree};
use anyhow::Result;
use ide_ssr::{
    EditError, MatchDebugInfo, MatchFinder, SsrError, SsrMatches, SsrPattern, SsrRule,
    ssr_from_comment,
};
use ssr_base::{FileId, FileRange, Semantics, TextEdit, Workspace};
use ssr_facts::Facts;
use ssr_syntax_kinds::TextRange;
use std::alloc::{AllocError, Global};
use std::collections::BTreeMap;

/// A question: its word, and in which way trees are told.
#[derive(Clone, Copy)]
struct Question<'a> {
    word: &'a str,
    way: &'a str,
}

/// What the line asks, if it asks something.
pub(crate) fn answer(
    alloc: Global,
    facts: &Facts,
    searches: &mut Result<Searches<'_>, SsrError>,
    way: &str,
    line: &Line<'_>,
) -> Result<Option<String>> {
    if line.word == "fronts" {
        let (word, written) = line.rest.split_once(' ').unwrap_or((line.rest, ""));
        let text = text_of(alloc, written)?;
        let question = Question { word, way };
        return Ok(Some(fronts(alloc, facts, searches, question, text.as_str())?));
    }
    let question = Question {
        word: line.word,
        way,
    };
    let text = text_of(alloc, line.rest)?;
    asked(alloc, facts, searches, question, text.as_str())
}

/// What a question answers to each front of a text: a line where the answer changes, with how long the front is.
fn fronts(
    alloc: Global,
    facts: &Facts,
    searches: &mut Result<Searches<'_>, SsrError>,
    question: Question<'_>,
    text: &str,
) -> Result<String> {
    let mut out = Told::nothing(alloc);
    let mut last = String::new(alloc);
    for end in 0..=text.len() {
        if let Some(front) = text.get(..end) {
            let told = asked(alloc, facts, searches, question, front)?.unwrap_or(String::new(
                alloc,
            ));
            if end == 0 || told.as_str() != last.as_str() {
                write_front(&mut out, end, told.as_str().trim_end());
                last = told;
            }
        }
    }
    Ok(out.end()?)
}

/// How long a front is, and what a question answers to it.
fn write_front(out: &mut Told, end: usize, answer: &str) {
    out.shown(&end);
    out.text("..");
    if !answer.is_empty() {
        out.text(" ");
    }
    out.line(answer);
}

/// What a question answers to a text, if the word asks something.
fn asked(
    alloc: Global,
    facts: &Facts,
    searches: &mut Result<Searches<'_>, SsrError>,
    question: Question<'_>,
    text: &str,
) -> Result<Option<String>> {
    let mut out = Told::nothing(alloc);
    if write_answer(alloc, &mut out, facts, searches, question, text)? {
        Ok(Some(out.end()?))
    } else {
        Ok(None)
    }
}

/// What a question answers to a text. Says whether the word asks something.
fn write_answer(
    alloc: Global,
    out: &mut Told,
    facts: &Facts,
    searches: &mut Result<Searches<'_>, SsrError>,
    question: Question<'_>,
    text: &str,
) -> Result<bool> {
    let semantics = &facts.semantics;
    if let Some(goal) = goal_of(question.word) {
        write_tree(alloc, out, semantics, goal, question.way, text)?;
        return Ok(true);
    }
    match question.word {
        "lexes" => write_tokens(alloc, out, text),
        "kinds" | "parts" | "used" | "calls" | "eligible" => {
            write_rule(alloc, out, semantics, question.word, text);
        }
        "leads" => write_leads(alloc, out, facts, text),
        "shapes" => write_shapes(alloc, out, facts, text),
        "rows" => write_rows(alloc, out, text),
        "reads" => write_facts(alloc, out, text),
        "nodes" => write_nodes(alloc, out, facts),
        "counts" => write_counts(alloc, out, text)?,
        "comment" => write_comment(alloc, out, facts, text)?,
        _ => return of_search(alloc, out, &facts.workspace, searches, question.word, text),
    }
    Ok(true)
}

/// Where the comment at an offset of the first file stands, and the outermost matches of the rule that it says.
fn write_comment(alloc: Global, out: &mut Told, facts: &Facts, offset: &str) -> Result<()> {
    let start = offset.parse()?;
    let range = FileRange {
        file_id: FileId(0),
        range: TextRange::new(start, start),
    };
    let entry = ssr_from_comment(alloc, &facts.workspace, &facts.semantics, range)?;
    if let Some((finder, place)) = entry {
        out.shown(&place.start());
        out.text("..");
        out.shown(&place.end());
        out.text("\n");
        write_matches(alloc, out, &facts.workspace, "finds", finder.matches());
    }
    Ok(())
}

/// What a question asks of searches. Says whether the word asks that.
fn of_search(
    alloc: Global,
    out: &mut Told,
    workspace: &Workspace,
    searches: &mut Result<Searches<'_>, SsrError>,
    word: &str,
    text: &str,
) -> Result<bool> {
    match searches {
        Ok(searches) => of_searches(alloc, out, workspace, searches, word, text),
        Err(error) if word == "opens" => {
            write_error(out, error);
            Ok(true)
        }
        Err(_) => Ok(false),
    }
}

/// What a question asks of searches that there are. Says whether the word asks that.
fn of_searches(
    alloc: Global,
    out: &mut Told,
    workspace: &Workspace,
    searches: &mut Searches<'_>,
    word: &str,
    text: &str,
) -> Result<bool> {
    let finder = &searches.told;
    match word {
        "opens" => {}
        "rule" | "pattern" => write_added(alloc, out, searches, word, text)?,
        "edits" => write_edits(alloc, out, workspace, finder.edits())?,
        "finds" | "holds" | "places" => write_found(alloc, out, workspace, searches, word)?,
        "scans" => write_matches(alloc, out, workspace, word, finder.scan_matches()),
        "debug" => write_debug(
            out,
            workspace,
            finder.debug_where_text_equal(FileId(0), text),
        ),
        "debug-missing" => write_debug(
            out,
            workspace,
            finder.debug_where_text_equal(FileId(99), text),
        ),
        "flattened" => write_matches(
            alloc,
            out,
            workspace,
            "holds",
            flattened(alloc, finder.matches()),
        ),
        _ => return Ok(false),
    }
    Ok(true)
}

/// Adds a rule or a search pattern to both searches, and tells why it is refused, if it is.
fn write_added(
    alloc: Global,
    out: &mut Told,
    searches: &mut Searches<'_>,
    word: &str,
    text: &str,
) -> Result<()> {
    let told = refusal(alloc, &add(alloc, &mut searches.told, word, text))?;
    let careless = refusal(alloc, &add(alloc, &mut searches.careless, word, text))?;
    out.text(told.as_str());
    write_other(
        out,
        told.as_str(),
        "by a careless provider:",
        careless.as_str(),
    );
    Ok(())
}

/// What a word asks of the matches of a search that is led by usages; and of those of a scan and of a careless provider, where
/// these are others.
fn write_found(
    alloc: Global,
    out: &mut Told,
    workspace: &Workspace,
    searches: &Searches<'_>,
    word: &str,
) -> Result<()> {
    let Searches { told, careless } = searches;
    let led = found_text(alloc, workspace, word, told.matches())?;
    let scanned = found_text(alloc, workspace, word, told.scan_matches())?;
    let misled = found_text(alloc, workspace, word, careless.matches())?;
    let scanned_too = found_text(alloc, workspace, word, careless.scan_matches())?;
    let led = led.as_str();
    out.text(led);
    write_other(out, led, "a scan finds:", scanned.as_str());
    write_other(out, led, "led by a careless provider:", misled.as_str());
    write_other(
        out,
        led,
        "a scan by a careless provider finds:",
        scanned_too.as_str(),
    );
    Ok(())
}

/// What a word asks of matches, as a text.
fn found_text(
    alloc: Global,
    workspace: &Workspace,
    word: &str,
    found: Result<SsrMatches<'_>, AllocError>,
) -> Result<String, AllocError> {
    let mut out = Told::nothing(alloc);
    write_matches(alloc, &mut out, workspace, word, found);
    out.end()
}

/// Tells another answer than the first one, behind words that say whose it is.
fn write_other(out: &mut Told, first: &str, whose: &str, other: &str) {
    if other != first {
        out.line(whose);
        out.text(other);
    }
}

/// What is told at the nodes that a snippet shows, a line each: the range, the node by its tree and number, the rule, and whether
/// it matches.
fn write_debug(
    out: &mut Told,
    workspace: &Workspace,
    told: Result<Vec<MatchDebugInfo>, AllocError>,
) {
    let Some(told) = out.got(told) else {
        return;
    };
    for info in &told {
        write_debug_info(out, workspace, info);
    }
}

/// All matches in one list.
fn flattened(
    alloc: Global,
    found: Result<SsrMatches<'_>, AllocError>,
) -> Result<SsrMatches<'_>, AllocError> {
    found?.flattened(alloc)
}

/// Adds a rule or a search pattern, as the word says.
fn add<S: Semantics>(
    alloc: Global,
    finder: &mut MatchFinder<'_, S>,
    word: &str,
    text: &str,
) -> Result<(), SsrError> {
    if word == "rule" {
        finder.add_rule(SsrRule::parse(alloc, text)?)
    } else {
        finder.add_search_pattern(SsrPattern::parse(alloc, text)?)
    }
}

/// Why something is refused, if it is.
fn refusal(alloc: Global, added: &Result<(), SsrError>) -> Result<String, AllocError> {
    let mut out = Told::nothing(alloc);
    if let Err(error) = added {
        write_error(&mut out, error);
    }
    out.end()
}

fn write_error(out: &mut Told, error: &SsrError) {
    out.shown(error);
    out.text("\n");
}

/// What a word asks of matches.
fn write_matches(
    alloc: Global,
    out: &mut Told,
    workspace: &Workspace,
    word: &str,
    found: Result<SsrMatches<'_>, AllocError>,
) {
    if let Some(found) = out.got(found) {
        match word {
            "holds" => write_held(out, workspace, &found.matches),
            "places" => write_places(out, &found.matches),
            _ => write_texts(alloc, out, &found.matches),
        }
    }
}

/// The new texts of files, each behind its number, or why there are none.
fn write_edits(
    alloc: Global,
    out: &mut Told,
    workspace: &Workspace,
    edits: Result<BTreeMap<FileId, TextEdit>, EditError>,
) -> Result<()> {
    match edits {
        Ok(edits) => write_files(alloc, out, workspace, &edits),
        Err(error) => {
            out.debug(&error);
            out.text("\n");
            Ok(())
        }
    }
}

fn write_files(
    alloc: Global,
    out: &mut Told,
    workspace: &Workspace,
    edits: &BTreeMap<FileId, TextEdit>,
) -> Result<()> {
    for number in 0..workspace.file_count() {
        if let (Some(edit), Some(tree)) = (edits.get(&FileId(number)), workspace.tree(number)) {
            let text = edit.apply(alloc, tree.source())?;
            out.shown(&number);
            out.text(" ");
            out.line(text.as_str());
        }
    }
    Ok(())
}
