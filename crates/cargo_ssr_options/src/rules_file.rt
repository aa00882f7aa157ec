//! Files of rules: a paragraph is a rule, a line that begins with `#` a comment.
ghost use Rattle.std.specs.Prelude.{◌≡◌, IfOk, OnOk, map, not, string_bytes, nat_eq, codes};
ghost use Rattle.std.specs.List.{list_all, starts_with};
ghost use Rattle.std.specs.Str.Lines.{lines};
ghost use Rattle.cargo_ssr_options.specs.RulesFile.{is_blank, rules_in, rules_of_lines};
ghost use Rattle.cargo_ssr_options.specs.Private.RulesFile.{closed, with_line};

use std::alloc::{AllocError, Global};
use std::mem;

/// The rules of a text: its paragraphs without its comments, the lines of each joined by line breaks.
pub fn rules_of(alloc: Global, text: &str) -> Result<Vec<String>, AllocError>
    ensures { IfOk result (λ rules. map string_bytes rules.items ≡ rules_in text.now) }
{
    let lines = lines_of(alloc, text)?;
    paragraphs(alloc, &lines)
}

/// The numbers of the lines, from 1, on which the rules of a text begin.
pub fn rule_lines(alloc: Global, text: &str) -> Result<Vec<usize>, AllocError> {
    let mut numbers = Vec::new(alloc);
    let mut is_in_rule = false;
    for (index, line) in text.lines().enumerate() {
        if is_comment(line) {
            continue;
        }
        let is_blank = is_blank(line);
        if !is_blank && !is_in_rule {
            numbers.push(index + 1)?;
        }
        is_in_rule = !is_blank;
    }
    Ok(numbers)
}

/// The lines of a text.
fn lines_of(alloc: Global, text: &str) -> Result<Vec<&str>, AllocError>
    ensures { IfOk result (λ found. map (λ line. line.now) found.items ≡ lines text.now) }
{
    text.lines().collect(alloc)
}

/// The paragraphs of lines.
fn paragraphs(alloc: Global, lines: &[&str]) -> Result<Vec<String>, AllocError>
    ensures { IfOk result (λ rules. map string_bytes rules.items ≡ rules_of_lines (map (λ line. line.now) lines.now)) }
{
    let mut rules = Vec::new(alloc);
    let mut rule = String::new(alloc);
    for line in lines {
        if is_comment(line) {
            continue;
        }
        if is_blank(line) {
            close(&mut rules, mem::replace(&mut rule, String::new(alloc)))?;
        } else {
            push_line(&mut rule, line)?;
        }
    }
    close(&mut rules, rule)?;
    Ok(rules)
}

fn is_comment(line: &str) -> bool
    ensures { result ≡ starts_with nat_eq line.now (codes "#") }
{
    line.starts_with("#")
}

/// Whether a line has nothing but blanks and tabs.
fn is_blank(line: &str) -> bool
    ensures { result ≡ is_blank line.now }
{
    line.bytes().all(|byte| byte == b' ' || byte == b'\t')
}

/// Adds a rule, unless it is empty.
fn close(rules: &mut Vec<String>, rule: String) -> Result<(), AllocError>
    ensures { OnOk result (map string_bytes rules.new.items ≡ closed (map string_bytes rules.old.items) (string_bytes rule)) }
{
    if !rule.is_empty() {
        rules.push(rule)?;
    }
    Ok(())
}

/// Adds a line to a rule, behind a line break where it isn't the first one.
fn push_line(rule: &mut String, line: &str) -> Result<(), AllocError>
    ensures { OnOk result (string_bytes rule.new ≡ with_line (string_bytes rule.old) line.now) }
{
    if !rule.is_empty() {
        rule.push_str("\n")?;
    }
    rule.push_str(line)
}
