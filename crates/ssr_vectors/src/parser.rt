//! The parser: what it takes of tokens, and what it refuses.

ghost use Rattle.std.specs.Prelude.{◌∷◌, []};

use ssr_syntax_forms::{END, Fault, Parser, Token, TokenSet};
use ssr_syntax_kinds::SyntaxKind;
use ssr_syntax_kinds::SyntaxKind::*;
use std::alloc::Global;
use std::test::Fail;

fn token(kind: SyntaxKind) -> Token {
    Token {
        kind,
        joined: kind,
        size: 1,
    }
}

#[derive(Clone, Copy)]
struct Ampersands;

impl TokenSet for Ampersands {
    ghost use Rattle.ssr_syntax_kinds.specs.declared.kinds.SyntaxKind.TheVariants as k;

    ghost kinds = { λ _. k.AMP ∷ k.AMP2 ∷ [] };

    fn contains(self, kind: SyntaxKind) -> bool {
        matches!(kind, AMP | AMP2)
    }
}

// `&&`
fn two_ampersands() -> [Token; 2] {
    let first = Token {
        kind: AMP,
        joined: AMP2,
        size: 2,
    };
    [first, token(AMP)]
}

// `a` and ` &&`, with white space around
const BEHIND_A_NAME: [SyntaxKind; 6] = [WHITESPACE, IDENT, WHITESPACE, AMP, AMP, WHITESPACE];

#[test]
fn a_joined_token_is_taken_whole(rt: HostRuntime) -> Result<(), Fail> {
    let [first, second] = two_ampersands();
    let tokens = [token(IDENT), first, second];
    let mut p = Parser::new(rt.alloc(), &tokens, &BEHIND_A_NAME)?;
    p.expect(IDENT)?;
    p.expect(AMP2)?;
    let joined = p.finish()?.joined;
    assert_eq!(rt; joined.len(), 1);
    assert!(rt; joined[0].number == 3 && joined[0].kind == AMP2 && joined[0].size == 2);
    Ok(())
}

#[test]
fn a_joined_token_is_taken_by_parts(rt: HostRuntime) -> Result<(), Fail> {
    let tokens = two_ampersands();
    let mut p = Parser::new(rt.alloc(), &tokens, &[AMP, AMP])?;
    p.expect_part(Ampersands)?;
    p.expect_part(Ampersands)?;
    let joined = p.finish()?.joined;
    assert!(rt; joined.is_empty());
    Ok(())
}

#[test]
fn nodes_begin_and_end_at_tokens_of_the_tree(rt: HostRuntime) -> Result<(), Fail> {
    let [first, second] = two_ampersands();
    let tokens = [token(IDENT), first, second];
    let mut p = Parser::new(rt.alloc(), &tokens, &BEHIND_A_NAME)?;
    let whole = p.start();
    p.expect(IDENT)?;
    let none = p.start();
    p.complete(&none, NAME)?;
    let inner = p.start();
    p.expect(AMP2)?;
    p.complete(&inner, REF_EXPR)?;
    p.complete(&whole, BIN_EXPR)?;
    let rows = p.finish()?.rows;
    assert_eq!(rt; rows.len(), 3);
    for (number, first, past, below) in [(0, 2, 2, 0), (1, 3, 4, 0), (2, 1, 4, 2)] {
        let row = rows.row(number);
        assert!(rt; row.first == first && row.past == past && row.below == below);
    }
    Ok(())
}

// Each of them is a token by itself.
fn tokens(alloc: Global, kinds: &[SyntaxKind]) -> Result<Vec<Token>, Fail> {
    let mut tokens = Vec::new(alloc);
    for kind in kinds {
        tokens.push(token(*kind))?;
    }
    Ok(tokens)
}

#[test]
fn items_of_a_list_stand_apart_by_commas(rt: HostRuntime) -> Result<(), Fail> {
    for (listed, fits) in [
        (&[][..], true),
        (&[INT_NUMBER][..], true),
        (&[INT_NUMBER, COMMA][..], true),
        (&[INT_NUMBER, COMMA, INT_NUMBER][..], true),
        (&[INT_NUMBER, INT_NUMBER][..], false),
        (&[COMMA][..], false),
    ] {
        let tokens = tokens(rt.alloc(), listed)?;
        let mut kinds = Vec::new(rt.alloc());
        kinds.extend_from_slice(listed)?;
        let mut p = Parser::new(rt.alloc(), &tokens, &kinds)?;
        let read = p.comma_list(INT_NUMBER, |p| p.expect(INT_NUMBER));
        let whole = read.is_ok() && p.finish().is_ok();
        assert_eq!(rt; whole, fits);
    }
    Ok(())
}

#[test]
fn what_may_stand_is_taken_if_it_does(rt: HostRuntime) -> Result<(), Fail> {
    let tokens = [token(MUT_KW), token(IDENT)];
    let mut p = Parser::new(rt.alloc(), &tokens, &[MUT_KW, IDENT])?;
    p.eat(MUT_KW)?;
    p.eat(MUT_KW)?;
    p.eat(IDENT)?;
    assert!(rt; p.finish().is_ok());
    Ok(())
}

#[test]
fn tokens_ahead_are_told_by_their_kinds(rt: HostRuntime) -> Result<(), Fail> {
    // `&& mut x :`
    let [first, second] = two_ampersands();
    let tokens = [first, second, token(MUT_KW), token(IDENT), token(COLON)];
    let kinds = [AMP, AMP, WHITESPACE, MUT_KW, WHITESPACE, IDENT, COLON];
    let p = Parser::new(rt.alloc(), &tokens, &kinds)?;
    assert!(rt; p.at_three(AMP2, MUT_KW, IDENT));
    assert!(rt; !p.at_three(AMP2, MUT_KW, COLON));
    assert!(rt; p.at_four(AMP2, MUT_KW, IDENT, COLON));
    assert!(rt; !p.at_four(AMP2, MUT_KW, IDENT, IDENT));
    let p = Parser::new(rt.alloc(), &tokens[3..], &kinds[5..])?;
    assert!(rt; p.at_three(IDENT, COLON, END));
    assert!(rt; p.at_four(IDENT, COLON, END, END));
    Ok(())
}

#[test]
fn a_loop_goes_on_while_two_tokens_are_next(rt: HostRuntime) -> Result<(), Fail> {
    let kinds = [IDENT, EQ, IDENT, EQ, IDENT];
    let tokens = tokens(rt.alloc(), &kinds)?;
    let mut p = Parser::new(rt.alloc(), &tokens, &kinds)?;
    p.repeated_two(IDENT, EQ, |p| {
        p.expect(IDENT)?;
        p.expect(EQ)
    })?;
    p.expect(IDENT)?;
    assert!(rt; p.finish().is_ok());
    let mut p = Parser::new(rt.alloc(), &tokens, &kinds)?;
    let idle = p.repeated_two(IDENT, EQ, |_p| Ok(()));
    assert_eq!(rt; idle, Err(Fault::NoTree));
    Ok(())
}

#[test]
fn a_comma_is_wanted_before_a_further_item(rt: HostRuntime) -> Result<(), Fail> {
    let kinds = [COMMA, IDENT];
    let tokens = tokens(rt.alloc(), &kinds)?;
    let mut p = Parser::new(rt.alloc(), &tokens, &kinds)?;
    p.comma(IDENT)?;
    p.comma(INT_NUMBER)?;
    assert_eq!(rt; p.comma(IDENT), Err(Fault::NoTree));
    Ok(())
}

#[test]
fn a_next_token_is_wanted_or_refused(rt: HostRuntime) -> Result<(), Fail> {
    let tokens = tokens(rt.alloc(), &[IDENT])?;
    let p = Parser::new(rt.alloc(), &tokens, &[IDENT])?;
    assert_eq!(rt; p.expect_at(IDENT), Ok(()));
    assert_eq!(rt; p.expect_at(EQ), Err(Fault::NoTree));
    assert_eq!(rt; p.refuse_at(EQ), Ok(()));
    assert_eq!(rt; p.refuse_at(IDENT), Err(Fault::NoTree));
    Ok(())
}

#[test]
fn tokens_since_a_mark_are_refused(rt: HostRuntime) -> Result<(), Fail> {
    let kinds = [MUT_KW, IDENT, EQ, COMMA];
    let tokens = tokens(rt.alloc(), &kinds)?;
    let mut p = Parser::new(rt.alloc(), &tokens, &kinds)?;
    p.expect(MUT_KW)?;
    let m = p.start();
    assert_eq!(rt; p.refuse_last(&m, IDENT), Ok(()));
    p.expect(IDENT)?;
    p.expect(EQ)?;
    for (kind, stands, is_last) in [
        (MUT_KW, false, false),
        (IDENT, true, false),
        (EQ, true, true),
        (COMMA, false, false),
    ] {
        assert_eq!(rt; p.refuse_since(&m, kind).is_err(), stands);
        assert_eq!(rt; p.refuse_last(&m, kind).is_err(), is_last);
    }
    Ok(())
}
