//! Measures of files that standard input names, and of facts files.

mod asked;
mod reads;
mod scopes;

use anyhow::Result;
use asked::write_asked;
use ide_ssr::{MatchFinder, SsrRule};
use reads::reading;
use scopes::semantics;
use ssr_base::Workspace;
use ssr_facts::{Facts, TableSemantics};
use std::alloc::Global;
use std::time::{CpuClock, Duration};
use std::{fs, io};

/// Takes the measure that the words ask for; whether they ask for one.
pub(crate) fn measure(rt: &HostRuntime, words: &[String]) -> Result<bool> {
    match words.split_first() {
        Some((first, rules)) if first.as_str() == "--times" => time_search(rt, rules)?,
        Some((first, _)) if first.as_str() == "--asked" => tell_asked(rt)?,
        Some((first, _)) if first.as_str() == "--reads" => tell_readings(rt)?,
        Some((first, rest)) if first.as_str() == "--facts" => time_facts(rt, rest)?,
        _ => return Ok(false),
    }
    Ok(true)
}

/// Tells which nodes of the files a provider is asked about.
fn tell_asked(rt: &HostRuntime) -> Result<()> {
    let alloc = rt.alloc();
    let workspace = Workspace::build(alloc, texts(rt)?, Vec::new(alloc))?;
    for number in 0..workspace.file_count() {
        if let Some(tree) = workspace.tree(number) {
            let mut lines = String::new(alloc);
            write_asked(&mut lines, tree, number)?;
            print!(rt; "{lines}")?;
        }
    }
    Ok(())
}

/// Tells of each file in which reach it is read, a line each.
fn tell_readings(rt: &HostRuntime) -> Result<()> {
    for path in rt.lines(rt.alloc()) {
        let text = fs::read_to_string(rt, path?.as_str())?;
        println!(rt; "{}", reading(rt.alloc(), text.as_str()))?;
    }
    Ok(())
}

/// Reads the facts file of the first word, and searches what it tells of for the rules behind that.
fn time_facts(rt: &HostRuntime, words: &[String]) -> Result<()> {
    let Some((path, rules)) = words.split_first() else {
        return Ok(());
    };
    let bytes = fs::read(rt, path.as_str())?;
    let start = rt.process_cpu_time()?;
    let facts = ssr_facts::read(rt.alloc(), &bytes)?;
    let reading = between(start, rt.process_cpu_time()?);
    let (files, size) = (facts.workspace.file_count(), bytes.len());
    println!(rt; "{files} files, {size} bytes of facts\nread in {reading} ns")?;
    if rules.is_empty() {
        Ok(())
    } else {
        time_rules(rt, &facts, rules)
    }
}

/// Searches what a facts file tells of.
fn time_rules(rt: &HostRuntime, facts: &Facts, words: &[String]) -> Result<()> {
    let start = rt.process_cpu_time()?;
    let count = match words.split_first() {
        Some((first, rules)) if first.as_str() == "--scan" => scanned(rt.alloc(), facts, rules)?,
        Some((first, rules)) if first.as_str() == "--edits" => edited(rt.alloc(), facts, rules)?,
        _ => matches(rt.alloc(), &facts.workspace, &facts.semantics, words)?,
    };
    let searching = between(start, rt.process_cpu_time()?);
    println!(rt; "{count} matches, searched in {searching} ns")?;
    Ok(())
}

/// Builds a workspace and searches it.
fn time_search(rt: &HostRuntime, rules: &[String]) -> Result<()> {
    let alloc = rt.alloc();
    let texts = texts(rt)?;
    let bytes = total(&texts);
    let start = rt.process_cpu_time()?;
    let workspace = Workspace::build(alloc, texts, Vec::new(alloc))?;
    let built = rt.process_cpu_time()?;
    let semantics = semantics(alloc, &workspace)?;
    let before = rt.process_cpu_time()?;
    let count = matches(alloc, &workspace, &semantics, rules)?;
    let searched = rt.process_cpu_time()?;
    let files = workspace.file_count();
    let (building, searching) = (between(start, built), between(before, searched));
    println!(rt; "{files} files, {bytes} bytes, {count} matches")?;
    println!(rt; "built in {building} ns, searched in {searching} ns")?;
    Ok(())
}

/// How many bytes texts have.
fn total(texts: &[String]) -> u64 {
    let mut bytes: u64 = 0;
    for text in texts {
        bytes = bytes.saturating_add(text.len() as u64);
    }
    bytes
}

/// The nanoseconds from one time to a later one.
fn between(earlier: Duration, later: Duration) -> u128 {
    later.saturating_sub(earlier).as_nanos()
}

/// The texts of the files that standard input names.
fn texts(rt: &HostRuntime) -> io::Result<Vec<String>> {
    let mut texts = Vec::new(rt.alloc());
    for path in rt.lines(rt.alloc()) {
        texts.push(fs::read_to_string(rt, path?.as_str())?)?;
    }
    Ok(texts)
}

/// A finder for rules.
fn finder<'a>(
    alloc: Global,
    workspace: &'a Workspace,
    semantics: &'a TableSemantics,
    rules: &[String],
) -> Result<MatchFinder<'a, TableSemantics>> {
    let mut finder = MatchFinder::at_first_file(alloc, workspace, semantics)?;
    for rule in rules {
        finder.add_rule(SsrRule::parse(alloc, rule.as_str())?)?;
    }
    Ok(finder)
}

/// How many outermost matches rules have.
fn matches(
    alloc: Global,
    workspace: &Workspace,
    semantics: &TableSemantics,
    rules: &[String],
) -> Result<usize> {
    Ok(
        finder(alloc, workspace, semantics, rules)?
            .matches()?
            .matches
            .len(),
    )
}

/// How many outermost matches rules have, found by trying every node.
fn scanned(alloc: Global, facts: &Facts, rules: &[String]) -> Result<usize> {
    let finder = finder(alloc, &facts.workspace, &facts.semantics, rules)?;
    Ok(finder.scan_matches()?.matches.len())
}

/// In how many files rules have an edit.
fn edited(alloc: Global, facts: &Facts, rules: &[String]) -> Result<usize> {
    Ok(
        finder(alloc, &facts.workspace, &facts.semantics, rules)?
            .edits()?
            .len(),
    )
}
