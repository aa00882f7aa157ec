//! What a pattern iterator passes over.

use ide_ssr_token_trees::PatternIterator;
use ssr_syntax::parse_file;
use ssr_syntax_kinds::SyntaxKind;
use ssr_syntax_tree::{Element, NodeNo};
use std::test::Fail;

#[test]
fn a_pattern_iterator_passes_trivia_over(rt: HostRuntime) -> Result<(), Fail> {
    let tree = parse_file(rt.alloc(), "fn f() {x /* k */ + 1}")?;
    // behind the file, the function, its name and parameters, its block and the statements
    let sum = NodeNo(6);
    assert!(rt; tree.has(Element::Node(sum)));
    let mut wanted = [SyntaxKind::PATH_EXPR, SyntaxKind::PLUS, SyntaxKind::LITERAL].iter();
    for element in PatternIterator::new(&tree, sum) {
        assert!(rt; tree.has(element));
        let kind = match element {
            Element::Node(node) => tree.kind(node),
            Element::Token(token) => tree.token_kind(token),
        };
        assert_eq!(rt; wanted.next(), Some(&kind));
    }
    assert!(rt; wanted.next().is_none());
    Ok(())
}
