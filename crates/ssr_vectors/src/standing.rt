//! Whether what is written groups as what stood there did.

use ssr_base::TextEdit;
use ssr_standing::{agree, stands};
use ssr_syntax::parse_file;
use ssr_syntax_kinds::TextRange;
use std::test::Fail;

#[test]
fn trees_agree_around_two_places(rt: HostRuntime) -> Result<(), Fail> {
    let old = parse_file(rt.alloc(), "fn f() {g(1, 2)}")?;
    let olds = [TextRange::new(10, 11), TextRange::new(13, 14)];
    for (text, first_end, start, end, same) in [
        ("fn f() {g(3 + 4, 5)}", 15, 17, 18, true),
        // one argument more than is replaced
        ("fn f() {g(3, 4, 5)}", 11, 16, 17, false),
        // the second place has no part of the tree
        ("fn f() {g(3, /**/)}", 11, 13, 17, false),
    ] {
        let new = parse_file(rt.alloc(), text)?;
        let news = [TextRange::new(10, first_end), TextRange::new(start, end)];
        assert!(rt;
            agree(rt.alloc(), &old, &olds, &new, &news)? == same,
            "{text}"
        );
    }
    Ok(())
}

#[test]
fn an_edit_stands_that_groups_as_before(rt: HostRuntime) -> Result<(), Fail> {
    let tree = parse_file(rt.alloc(), "fn f() {2 * 7}")?;
    for (text, answer) in [
        ("3 * 4", false),
        ("(3 + 4)", true),
        ("g(3)", true),
        ("3 +", false),
    ] {
        let mut changes = Vec::new(rt.alloc());
        changes.push((TextRange::new(12, 13), String::from_str(rt.alloc(), text)?))?;
        let edit = TextEdit::new(changes);
        edit.apply(rt.alloc(), tree.source())?;
        assert!(rt; stands(rt.alloc(), &tree, &edit)? == answer, "{text}");
    }
    Ok(())
}
