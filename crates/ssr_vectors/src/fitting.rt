//! Whether trees fit tokens that are handed in.

use ssr_syntax::{ExpToken, ExpansionKind, fits_tokens, parse_tokens};
use std::alloc::{AllocError, Global};
use std::test::Fail;

// One token of this text.
fn one_token(alloc: Global, text: &str) -> Result<Vec<ExpToken>, AllocError> {
    let mut tokens = Vec::new(alloc);
    tokens.push(ExpToken {
        text: String::from_str(alloc, text)?,
        joint: false,
        origin: None,
    })?;
    Ok(tokens)
}

#[test]
fn the_tree_of_tokens(rt: HostRuntime) -> Result<(), Fail> {
    let tokens = one_token(rt.alloc(), "1")?;
    let others = one_token(rt.alloc(), "2")?;
    let tree = parse_tokens(rt.alloc(), ExpansionKind::Expr, &tokens)?;
    for (kind, tokens, fits) in [
        (ExpansionKind::Expr, &tokens, true),
        (ExpansionKind::Stmts, &tokens, false),
        (ExpansionKind::Expr, &others, false),
    ] {
        assert!(rt; fits_tokens(rt.alloc(), kind, tokens, &tree)? == fits);
    }
    Ok(())
}
