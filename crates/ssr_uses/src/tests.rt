//! Each use once, on values of which the answers are known.

use crate::{OneFunction, edits, edits_by_facts, findings, new_text, paths_spelled};
use ide_ssr::{EditError, EditedError, MatchFinder, SsrPattern, SsrRule};
use ssr_base::{FileId, Workspace};
use ssr_syntax::{SyntaxError, Tree, parse_file};
use std::alloc::Global;
use std::test::Fail;

/// A workspace of one file.
fn one_file(alloc: Global, text: &str) -> Result<Workspace, Fail> {
    let files = vec![in alloc; String::from_str(alloc, text)?]?;
    Ok(Workspace::build(alloc, files, Vec::new(alloc))?)
}

/// A provider that knows the function `area`, which all paths of a workspace's file stand for that are spelled so.
fn areas(alloc: Global, workspace: &Workspace) -> Result<OneFunction, Fail> {
    let uses = match workspace.tree(0) {
        Some(tree) => paths_spelled(alloc, tree, 0, "area")?,
        None => Vec::new(alloc),
    };
    let name = String::from_str(alloc, "area")?;
    Ok(OneFunction { name, uses })
}

#[test]
fn a_file_is_rewritten(rt: HostRuntime) -> Result<(), Fail> {
    let alloc = rt.alloc();
    for (rule, text, wanted) in [
        ("$a + $b ==>> $b + $a", "fn f() {1 + 2}", "fn f() {2 + 1}"),
        (
            "area($s) ==>> $s.area()",
            "fn f() {area(s) + volume(s)}",
            "fn f() {s.area() + volume(s)}",
        ),
    ] {
        let workspace = one_file(alloc, text)?;
        let semantics = areas(alloc, &workspace)?;
        let edits = edits(alloc, &workspace, &semantics, rule)?;
        let new = new_text(alloc, &workspace, &edits, FileId(0))?;
        assert_eq!(rt; new.as_ref().map(|new| new.as_str()), Some(wanted));
    }
    Ok(())
}

/// What the tree of a file of this number is with the edit made that a rule makes in a text.
fn edited_tree(
    alloc: Global,
    rule: &str,
    text: &str,
    file: u32,
) -> Result<Result<Option<Tree>, EditedError>, Fail> {
    let workspace = one_file(alloc, text)?;
    let semantics = areas(alloc, &workspace)?;
    let mut finder = MatchFinder::at_first_file(alloc, &workspace, &semantics)?;
    finder.add_rule(SsrRule::parse(alloc, rule)?)?;
    Ok(finder.edited_tree(FileId(file)))
}

#[test]
fn the_tree_with_an_edit_made_is_the_expected_one(rt: HostRuntime) -> Result<(), Fail> {
    let alloc = rt.alloc();
    for (rule, text, wanted) in [
        (
            "area($s) ==>> $s.width + 1",
            "fn f() {2 * area(s)}",
            "fn f() {2 * (s.width + 1)}",
        ),
        (
            "$a + $b ==>> $b + $a",
            "fn f() {1 + 2 /* two */ + 3}",
            "fn f() {3 + (2 + 1)/* two */}",
        ),
        ("area($s) ==>> $s.area()", "fn f() {1}", "fn f() {1}"),
    ] {
        let wanted = parse_file(alloc, wanted)?;
        let told = edited_tree(alloc, rule, text, 0)?;
        assert!(rt;
            matches!(&told, Ok(Some(tree)) if tree.is_same(&wanted)),
            "{text}"
        );
    }
    Ok(())
}

#[test]
fn why_there_is_no_edited_tree(rt: HostRuntime) -> Result<(), Fail> {
    let alloc = rt.alloc();
    for (rule, text, wanted) in [
        (
            "{ 1 } ==>> 2",
            "fn f() { 1 }",
            EditedError::Syntax(SyntaxError::NoTree),
        ),
        (
            "area($s); ==>> $s.area();",
            "fn f() {area(1 + 2);}",
            EditedError::Differs,
        ),
    ] {
        assert_eq!(rt;
            edited_tree(alloc, rule, text, 0)?.err(),
            Some(wanted),
            "{text}"
        );
    }
    let other = edited_tree(alloc, "$a + $b ==>> $b + $a", "fn f() {1 + 2}", 9)?;
    assert!(rt; matches!(other, Ok(None)));
    let workspace = one_file(alloc, "fn f() {1}")?;
    let semantics = areas(alloc, &workspace)?;
    let mut finder = MatchFinder::at_first_file(alloc, &workspace, &semantics)?;
    finder.add_search_pattern(SsrPattern::parse(alloc, "$a + 1")?)?;
    assert_eq!(rt;
        finder.edited_tree(FileId(0)).err(),
        Some(EditedError::Edit(EditError::NoTemplate))
    );
    Ok(())
}

#[test]
fn matches_are_listed(rt: HostRuntime) -> Result<(), Fail> {
    let alloc = rt.alloc();
    let workspace = one_file(alloc, "fn f() {1 + 2 + 3} fn g() {4 + 5}")?;
    let semantics = areas(alloc, &workspace)?;
    let mut finder = MatchFinder::at_first_file(alloc, &workspace, &semantics)?;
    finder.add_rule(SsrRule::parse(alloc, "$a + $b ==>> $b + $a")?)?;
    let findings = findings(alloc, &finder)?;
    assert_eq!(rt; findings.len(), 2);
    let second = &findings[1];
    assert_eq!(rt;
        (
            second.range.range.start,
            second.range.range.end,
            second.rule
        ),
        (27, 32, 0)
    );
    assert_eq!(rt; second.text.as_str(), "4 + 5");
    Ok(())
}

const FACTS: &str = r#"{"files":[{"name":"a.rs","text":"fn f() { old(1) }"}],"scopes":[[0,0,17]],
"defs":[{"kind":"function"},{"kind":"function"}],"paths":[[0,9,12,["def",0]]],
"names":[[0,["old"],["def",0]],[0,["new"],["def",1]]],"printed":[[0,1,"new"]]}"#;

#[test]
fn facts_are_asked(rt: HostRuntime) -> Result<(), Fail> {
    let alloc = rt.alloc();
    let edits = edits_by_facts(alloc, FACTS.as_bytes(), "old($a) ==>> new($a)")?;
    let workspace = one_file(alloc, "fn f() { old(1) }")?;
    let new = new_text(alloc, &workspace, &edits, FileId(0))?;
    assert_eq!(rt;
        new.as_ref().map(|new| new.as_str()),
        Some("fn f() { new(1) }")
    );
    Ok(())
}
