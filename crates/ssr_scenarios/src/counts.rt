//! How many fronts of a text get each answer.

use crate::lists::separator;
use crate::told::Told;
use crate::trees::{goal_of, write_reading};
use anyhow::Result;
use ide_ssr::SsrRule;
use std::alloc::{AllocError, Global};

/// As what fronts are read, by the words of the questions that ask that.
const READINGS: [&str; 7] = ["whole", "expr", "type", "item", "pat", "stmt", "rule"];

/// An answer, and how many fronts get it.
#[derive(Drop)]
struct AnswerCount {
    answer: String,
    fronts: usize,
}

/// How many fronts of a text get each answer, a line for each way to read it.
pub(crate) fn write_counts(alloc: Global, out: &mut Told, text: &str) -> Result<()> {
    for reading in READINGS {
        let counts = counts_of(alloc, reading, text)?;
        write_line(out, reading, &counts);
    }
    Ok(())
}

fn write_line(out: &mut Told, reading: &str, counts: &[AnswerCount]) {
    out.text(reading);
    for (number, count) in counts.iter().enumerate() {
        out.text(separator(number, ";"));
        out.text(" ");
        out.shown(&count.fronts);
        out.text(" ");
        out.text(count.answer.as_str());
    }
    out.text("\n");
}

/// The answers to the fronts of a text, in the order in which they come.
fn counts_of(alloc: Global, reading: &str, text: &str) -> Result<Vec<AnswerCount>> {
    let mut counts = Vec::new(alloc);
    for end in 0..=text.len() {
        if let Some(front) = text.get(..end) {
            count_one(&mut counts, answer_of(alloc, reading, front)?)?;
        }
    }
    Ok(counts)
}

/// Counts one more front with this answer.
fn count_one(counts: &mut Vec<AnswerCount>, answer: String) -> Result<(), AllocError> {
    for count in counts.iter_mut() {
        if count.answer.as_str() == answer.as_str() {
            count.fronts = count.fronts.saturating_add(1);
            return Ok(());
        }
    }
    counts.push(AnswerCount { answer, fronts: 1 })?;
    Ok(())
}

/// Whether a text is read so, or why not.
fn answer_of(alloc: Global, reading: &str, text: &str) -> Result<String> {
    let mut out = Told::nothing(alloc);
    match goal_of(reading) {
        Some(goal) => write_reading(alloc, &mut out, goal, text)?,
        None => write_parsing(alloc, &mut out, text),
    }
    Ok(out.end()?)
}

/// Whether a text is read as a rule, or why not.
fn write_parsing(alloc: Global, out: &mut Told, text: &str) {
    match SsrRule::parse(alloc, text) {
        Ok(_) => out.text("read"),
        Err(error) => out.shown(&error),
    }
}
