//! Texts kept short. No clause says that what is read of one tells anything, since nothing may be said of any.

use ssr_syntax::{Reach, fragment};
use ssr_syntax_kinds::Fragment;
use ssr_syntax_shorts::{MadeText, Part, Short, is_core, put_together};
use ssr_syntax_tree::{TokenNo, Tree};
use std::alloc::{AllocError, Global};
use std::test::Fail;

/// The tokens of a tree that are spelled `x`.
fn names(alloc: Global, tree: &Tree) -> Result<Vec<TokenNo>, AllocError> {
    let mut found = Vec::new(alloc);
    for number in 0..tree.token_count() {
        let token = TokenNo(number);
        if tree.token_text(token) == "x" {
            found.push(token)?;
        }
    }
    Ok(found)
}

const CORE: [&str; 12] = [
    "1",
    "a::b::c",
    "(x)",
    "-a * (x)",
    "a + b == (x) && *c",
    "&mut (x)",
    "f()",
    "f(x, (x), )",
    "a /* x */ .b(x)[x]?",
    "a.b.0",
    "a::f(x)",
    "(a + (x)).b",
];

const OTHER: [&str; 5] = ["x", "x + 1", "f(x.a)", "if a {}", "(x, x)"];

#[test]
fn core_texts(rt: HostRuntime) -> Result<(), Fail> {
    for text in CORE {
        let (tree, _) = fragment(rt.alloc(), Fragment::Expr, text)?;
        let names = names(rt.alloc(), &tree)?;
        assert!(rt; is_core(&tree, &names), "{text}");
    }
    Ok(())
}

#[test]
fn other_texts(rt: HostRuntime) -> Result<(), Fail> {
    for text in OTHER {
        let (tree, _) = fragment(rt.alloc(), Fragment::Expr, text)?;
        let names = names(rt.alloc(), &tree)?;
        assert!(rt; !is_core(&tree, &names), "{text}");
    }
    Ok(())
}

/// `f(c, (a + b).d)` with a name in the place of the sum, if that is read.
fn with_a_name(alloc: Global) -> Result<Option<Short>, AllocError> {
    let sum = Short::of(alloc, "a + b")?;
    let Some(tree) = sum.read(alloc, Reach::Stated, "a + b")? else {
        return Ok(None);
    };
    let mut short = Short::of(alloc, "f(c, ")?;
    short.push_in_parentheses(&tree)?;
    short.push_str(".d)")?;
    Ok(Some(short))
}

#[test]
fn a_short_text_is_read(rt: HostRuntime) -> Result<(), Fail> {
    let Some(short) = with_a_name(rt.alloc())? else {
        return Err(Fail::new("the sum isn't read"));
    };
    assert_eq!(rt; short.text(), "f(c, (x).d)");
    let Some(tree) = short.read(rt.alloc(), Reach::Stated, "f(c, (a + b).d)")? else {
        return Err(Fail::new("the call isn't read"));
    };
    assert!(rt; tree.depth() == 8 && tree.bytes() == 15);
    for (from, to, is_node) in [
        (0, 11, true),
        (5, 8, true),
        (5, 10, true),
        (5, 9, false),
        (2, 10, false),
    ] {
        assert!(rt; tree.is_node(from, to) == is_node, "{from}..{to}");
    }
    Ok(())
}

/// One more than what this short text stands for, if that is read.
fn one_more(alloc: Global, short: &Short, long: &str) -> Result<Option<Short>, AllocError> {
    let Some(tree) = short.read(alloc, Reach::Stated, long)? else {
        return Ok(None);
    };
    let mut sum = Short::of(alloc, "1 + ")?;
    sum.push_in_parentheses(&tree)?;
    Ok(Some(sum))
}

/// Whether so many sums in one another are read, each by what was read of the one inside.
fn is_chain_read(alloc: Global, count: usize) -> Result<bool, AllocError> {
    let mut long = String::from_str(alloc, "1")?;
    let mut short = Short::of(alloc, "1")?;
    for _ in 0..count {
        let Some(sum) = one_more(alloc, &short, long.as_str())? else {
            return Ok(false);
        };
        short = sum;
        long = format!(in alloc; "1 + ({long})")?;
    }
    Ok(short.read(alloc, Reach::Stated, long.as_str())?.is_some())
}

#[test]
fn chains_are_read_while_they_may_be(rt: HostRuntime) -> Result<(), Fail> {
    for (count, is_read) in [(400, true), (510, true), (600, false)] {
        assert!(rt; is_chain_read(rt.alloc(), count)? == is_read, "{count}");
    }
    Ok(())
}

/// What is made of a text that an operator follows.
fn doubled(alloc: Global, made: &MadeText) -> Result<Option<MadeText>, AllocError> {
    let mut plain = String::from_str(alloc, made.as_str())?;
    plain.push_str(" * 2 + 1")?;
    let parts = [Part::Made(made), Part::Words(" * 2 + 1")];
    put_together(alloc, Reach::Stated, &parts, plain.as_str())
}

#[test]
fn made_texts_are_put_together(rt: HostRuntime) -> Result<(), Fail> {
    let first = "one_operand + another_operand + a_third_operand";
    let mut made = MadeText::new(Reach::Stated, String::from_str(rt.alloc(), first)?);
    for _ in 0..4 {
        let Some(next) = doubled(rt.alloc(), &made)? else {
            assert!(rt; false, "nothing is told of {}", made.as_str());
            return Ok(());
        };
        made = next;
    }
    let text =
        "((((one_operand + another_operand + a_third_operand) * 2 + 1) * 2 + 1) * 2 + 1) * 2 + 1";
    assert!(rt; made.as_str() == text, "{}", made.as_str());
    Ok(())
}
