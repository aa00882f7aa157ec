//! Worked examples of what the libraries have in public, in the files of `data/`, which the words of the command name.
//!
//! A file has scenarios with empty lines between. The lines of a scenario say, by their first word, what there is, and what is
//! asked of it; the indented lines below a question are the answer that is wanted. Lines that begin with `#` are remarks.
//!
//! A text stands in a line as it is, or between two `, with the escapes `\n`, `\r`, `\t` and `\u{..}`. So may parts of a text, one
//! behind another; a part that comes three times has *3 behind it.
//!
//! What there is:
//!
//! | Word | What it says |
//! |---|---|
//! | `names KEYS` | keys of facts, from here on to the end of the file, where there are files |
//! | `file TEXT` | a further file; a path may stand as `«path is 3»`, where it stands for definition 3 |
//! | `call ROW` | a further macro call, with what it stands for, as facts tell it |
//! | `told FACTS` | what is told of snippets of the first file, as `path is 3; call calls 3,"ref"; expression has 7,8` |
//! | `keys KEYS` | further keys of facts |
//! | `facts TEXT` | all facts, in the place of those above |
//! | `context` | the search is that of the facts' position and ranges, and not one of all files |
//! | `shows WAY` | in which of the ways below trees are told, and not by the kinds of their nodes |
//!
//! What is asked of a search:
//!
//! | Word | What it asks |
//! |---|---|
//! | `opens` | whether there is such a search: nothing, or why not |
//! | `rule TEXT`, `pattern TEXT` | adds a rule or a search pattern, and asks whether that is accepted: nothing, or why not |
//! | `finds`, `scans` | the texts of the outermost matches. `finds`, `holds` and `places` also ask a scan, and a provider that tells all nodes as usages of each thing, and tell if these answer otherwise |
//! | `holds` | the same, with what each placeholder holds, how often it is dereferenced and how it is taken |
//! | `flattened` | all matches in one list, told likewise |
//! | `places` | where the outermost matches, their comments and what their placeholders hold stand |
//! | `edits` | the new texts of files, or why there are none |
//! | `comment OFFSET` | where the comment at the offset of the first file stands, and the outermost matches of the rule that it says: nothing, where there is none |
//! | `debug TEXT` | what is told of the rules at the nodes of the first file that the text shows: the range, the node, the rule, and whether it matches |
//! | `debug-missing TEXT` | the same of a file that there is not |
//! | `nodes` | the nodes of all trees, where each comes from, what stands above it, what it stands for as a macro call, and what facts tell of it |
//!
//! What is asked of a text:
//!
//! | Word | What it asks |
//! |---|---|
//! | `lexes TEXT` | its tokens, or its fault |
//! | `whole TEXT` | the tree of a file, or why there is none |
//! | `expr TEXT`, `type TEXT`, `item TEXT`, `pat TEXT`, `stmt TEXT` | the tree of a fragment likewise |
//! | `call-expr TEXT`, `call-items TEXT`, `call-stmts TEXT` | the tree of what a macro call stands for, if that is the tokens of the text |
//! | `told-expr ROWS`, `told-items ROWS`, `told-stmts ROWS` | the same of tokens as facts tell them |
//! | one of these words with `rust-` in front | the same in the whole reach of the grammar |
//! | `kinds TEXT` | the kinds of a rule, or of a search pattern, where the text has no delimiter, or why it is refused |
//! | `parts TEXT` | the placeholders of its first kind, its pattern and its template, and which nodes and tokens are placeholders |
//! | `used TEXT`, `calls TEXT`, `eligible TEXT` | the used paths of its first kind, of the template too, its qualified calls, or its eligible paths |
//! | `leads TEXT` | the path that leads the search for its first kind, how deep that stands in the pattern, and where its usages lead |
//! | `shapes TEXT` | the texts of the nodes of the first file that the first phase of matching accepts for its first kind |
//! | `rows TEXT` | the rows of a facts file, or why there are none |
//! | `reads TEXT` | whether it is a facts file: nothing, or why not |
//! | `fronts QUESTION TEXT` | what that question answers to each front of the text, a line for each run of equal answers |
//! | `counts TEXT` | how many fronts of the text, read as a file, each fragment and a rule, are read, and how many refused, for each reason |
//!
//! Ways to tell a tree:
//!
//! | Way | What is told |
//! |---|---|
//! | `ranges` | the nodes, each with its range |
//! | `tokens` | the kinds of its tokens |
//! | `source` | its source, and how many bytes of white space stand in front of that |
//! | `depth` | how many nodes stand above the deepest one |
//! | `fits` | as what it could have been read |
//! | `paths` | its used paths, where `a` and `b` are placeholders, or the first one that doesn't resolve |
//! | `key` | the key of its first path |
//!
//! The program tells how many answers of each file are as wanted, and each that isn't.
//!
//! It measures, too. Of these words the first three go with names of files on standard input, one a line; times are processor time,
//! in nanoseconds:
//!
//! | Words | What is told |
//! |---|---|
//! | `--times RULE..` | how many files, bytes and outermost matches there are, and the times of building and of searching; the rules have no paths |
//! | `--asked` | which nodes of the files a provider is asked about |
//! | `--reads` | in which reach each file is read: `stated`, `whole`, `another` where the two reaches make two trees of it, or `none` |
//! | `--facts FILE RULE..` | how many files and bytes a facts file has, and the time of reading it; where there are rules, also how many matches, and the time of searching. Behind `--scan` every node is tried; behind `--edits` the matches are rewritten, and files with an edit are counted |
#![tactic(auto)]

mod answers;
mod counts;
mod facts;
mod leads;
mod lines;
mod lists;
mod matches;
mod measuring;
mod nodes;
mod paths;
mod rows;
mod rules;
mod searches;
mod shapes;
mod strays;
mod texts;
mod tokens;
mod told;
mod trees;

use crate::answers::answer;
use crate::facts::facts_text;
use crate::lines::{Line, lines_of, rest_of};
use crate::measuring::measure;
use crate::searches::searches_of;
use crate::strays::strays_of;
use anyhow::Result;
use ssr_careless::Careless;
use ssr_facts::{Facts, TableSemantics, read};
use std::{env, fs};

fn main(rt: HostRuntime) -> Result<()> {
    let alloc = rt.alloc();
    let words: Vec<String> = env::args(&rt)?.skip(1).collect(alloc)?;
    if measure(&rt, &words)? {
        return Ok(());
    }
    for path in &words {
        let text = fs::read_to_string(&rt, path.as_str())?;
        let tally = try_all(&rt, text.as_str())?;
        let Tally { asked, wanted } = tally;
        println!(rt; "{path}: {wanted} of {asked} answers are as wanted")?;
    }
    Ok(())
}

/// How many answers were asked for, and how many of them were as wanted.
#[derive(Clone, Copy)]
struct Tally {
    asked: usize,
    wanted: usize,
}

impl Tally {
    fn with(self, other: Tally) -> Tally {
        Tally {
            asked: self.asked.saturating_add(other.asked),
            wanted: self.wanted.saturating_add(other.wanted),
        }
    }
}

const NOTHING: Tally = Tally {
    asked: 0,
    wanted: 0,
};

/// Tries the scenarios of a text.
fn try_all(rt: &HostRuntime, text: &str) -> Result<Tally> {
    let mut tally = NOTHING;
    let mut names = "";
    for block in text.split("\n\n") {
        let lines = lines_of(rt.alloc(), block)?;
        if let Some(told) = rest_of(&lines, "names") {
            names = told;
        }
        tally = tally.with(try_one(rt, names, &lines)?);
    }
    Ok(tally)
}

/// Tries a scenario, where there are these keys of facts.
fn try_one(rt: &HostRuntime, names: &str, lines: &[Line<'_>]) -> Result<Tally> {
    let alloc = rt.alloc();
    let text = facts_text(alloc, names, lines)?;
    let facts = read(alloc, text.as_str().as_bytes())?;
    let careless = Careless {
        told: &facts.semantics,
        strays: strays_of(alloc, &facts.workspace)?,
    };
    try_lines(rt, &facts, &careless, lines)
}

/// Tries what the lines of a scenario ask, where there are these facts, and a careless provider of them.
fn try_lines(
    rt: &HostRuntime,
    facts: &Facts,
    careless: &Careless<'_, TableSemantics>,
    lines: &[Line<'_>],
) -> Result<Tally> {
    let alloc = rt.alloc();
    let mut searches = searches_of(alloc, facts, careless, lines);
    let way = rest_of(lines, "shows").unwrap_or("");
    let mut tally = NOTHING;
    for line in lines {
        if let Some(answer) = answer(alloc, facts, &mut searches, way, line)? {
            tally = tally.with(compared(rt, line, answer.as_str())?);
        }
    }
    Ok(tally)
}

/// Tells of an answer that is another one than is wanted.
fn compared(rt: &HostRuntime, line: &Line<'_>, answer: &str) -> Result<Tally> {
    if line.wanted.as_str() == answer {
        return Ok(Tally {
            asked: 1,
            wanted: 1,
        });
    }
    println!(rt;
        "{} {}\n{}is answered by\n{answer}",
        line.word, line.rest, line.wanted
    )?;
    Ok(Tally {
        asked: 1,
        wanted: 0,
    })
}
