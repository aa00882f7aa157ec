//! The two sides of a rule text, and the elements of a side.
ghost use Rattle.std.specs.Prelude.{◌≡◌, ◌<◌, ◌≤◌, ◌^◌, ◌++◌, [], length, IfOk};
ghost use Rattle.ide_ssr_rules.specs.Elements.{new_placeholder, elements, side, names_of};
ghost use Rattle.ide_ssr_refusals.specs.Refusals.{AnswersBy};
ghost use Rattle.ide_ssr_rules.specs.Sides.{sides};

use crate::constraints::{Placeholder, read_placeholder};
use crate::elements::Element;
use crate::tokens::{Token, Tokens, lexed};
use ide_ssr_refusals::{Fault, Refusal, SsrError, Text};
use ide_ssr_resolved_rule::Names;
use ssr_syntax_lex::LexError;
use std::alloc::{AllocError, Global};

const DELIMITER: &str = "==>>";

/// The pattern and the template of a rule text, without the white space around them.
pub(crate) fn sides(alloc: Global, text: &str) -> Result<(&str, &str), SsrError>
    ensures { AnswersBy (λ parts. (parts.0.now, parts.1.now)) result (sides text.now) }
{
    let Some((pattern, template)) = text.split_once(DELIMITER) else {
        return Err(Refusal::NoDelimiter.told(alloc));
    };
    if template.contains(DELIMITER) {
        return Err(Refusal::SecondDelimiter.told(alloc));
    }
    Ok((pattern.trim(), template.trim()))
}

/// The placeholder behind a `$`, whose name may be none of the names before it.
fn new_placeholder<'a>(
    alloc: Global,
    names: &Names<'_>,
    tokens: &mut Tokens<'a>,
) -> Result<Placeholder<'a>, SsrError>
    ensures { AnswersBy (λ placeholder. (placeholder, tokens.new)) result (new_placeholder names.now tokens.old) }
{
    let placeholder = read_placeholder(alloc, tokens)?;
    let name = placeholder.name();
    if names.has(name) {
        return Err(Refusal::Repeated(Text(name)).told(alloc));
    }
    Ok(placeholder)
}

/// The tokens and placeholders that tokens are.
fn elements<'a>(alloc: Global, tokens: Vec<Token<'a>>) -> Result<Vec<Element<'a>>, SsrError>
    ensures value { AnswersBy (λ v. v.items) result (elements [] tokens.entry.items) }
    ensures few { IfOk result (λ v. length v.items ≤ length tokens.entry.items) }
{
    let mut elements = Vec::new(alloc);
    let mut names = Names::new(alloc);
    let mut tokens = Tokens::new(tokens);
    while let Some(token) = tokens.next() {
        if !token.is_dollar() {
            elements.push(Element::Token(token))?;
            continue;
        }
        let placeholder = new_placeholder(alloc, &names, &mut tokens)?;
        names = names.with(placeholder.name())?;
        elements.push(Element::Placeholder(placeholder))?;
    }
    Ok(elements)
}

/// The elements of a side.
pub(crate) fn side<'a>(alloc: Global, text: &'a str) -> Result<Vec<Element<'a>>, SsrError>
    ensures value { AnswersBy (λ v. v.items) result (side text.now) }
    ensures few { IfOk result (λ v. length v.items < 2 ^ 32) }
{
    match lexed(alloc, text) {
        Ok(tokens) => elements(alloc, tokens),
        Err(error) => match error {
            LexError::Memory => Err(SsrError::Memory),
            _ => Err(Refusal::LexerFault(Fault(error)).told(alloc)),
        },
    }
}

/// These names and those of a side's placeholders behind them.
pub(crate) fn with_names<'a>(
    names: Names<'a>,
    elements: &[Element<'a>],
) -> Result<Names<'a>, AllocError>
    ensures { IfOk result (λ all. all ≡ names.entry ++ names_of elements.now) }
{
    let mut names = names;
    for element in elements {
        if let Element::Placeholder(placeholder) = element {
            names = names.with(placeholder.name())?;
        }
    }
    Ok(names)
}
