//! Stand-ins: the identifiers that are read in the place of placeholders.
ghost use Rattle.std.specs.Prelude.{◌≡◌, List, ◌++◌, Some, false, IfOk, OnOk, bytes_eq, slice_get, string_bytes};
ghost use Rattle.std.specs.Option.{option_copied, option_map_or};
ghost use Rattle.std.specs.Str.{trim};
ghost use Rattle.ssr_syntax_tree.specs.Syntax.{Token, same_token};
ghost use Rattle.ide_ssr_rules.specs.Elements.{lexed};
ghost use Rattle.ide_ssr_resolved_rule.specs.StandIns.{stand_in_of};
ghost use Rattle.ide_ssr_rules.specs.StandIns.{read_as, code_of, first_name, first_glued, stand_in_text, spelled_stand_in};

use crate::elements::Element;
use crate::tokens::Token;
use ide_ssr_resolved_rule::{Names, STAND_IN_PREFIX, stand_in_name};
use ssr_syntax::FragmentText;
use std::alloc::{AllocError, Global};

/// Whether the text is the stand-in of a name.
pub(crate) fn is_stand_in_of(text: &str, name: &str) -> bool
    ensures { result ≡ bytes_eq text.now (stand_in_of name.now) }
{
    match stand_in_name(text) {
        Some(rest) => rest == name,
        None => false,
    }
}

impl<'a> Element<'a> {
    /// Adds the text that is read for the element.
    fn push_to(&self, code: &mut String) -> Result<(), AllocError>
        ensures { OnOk result (string_bytes code.new ≡ string_bytes code.old ++ (read_as self.now).text) }
    {
        match self {
            Element::Token(token) => code.push_str(token.text),
            Element::Placeholder(placeholder) => {
                code.push_str(STAND_IN_PREFIX)?;
                code.push_str(placeholder.name())
            }
        }
    }

    /// Whether the token is the one that is read for the element.
    fn is_read_as(&self, token: &Token<'_>) -> bool
        ensures { result ≡ same_token (read_as self.now) token.now }
    {
        match self {
            Element::Token(own) => own.kind.is(token.kind) && own.text == token.text,
            Element::Placeholder(placeholder) => {
                token.is_ident() && is_stand_in_of(token.text, placeholder.name())
            }
        }
    }

    /// Whether the token of this number is the one that is read for the element.
    fn is_read_at(&self, text: &FragmentText, number: usize) -> bool
        ensures { (tokens : List Token) → lexed (trim text.now) ≡ Some tokens
            → result ≡ option_map_or (same_token (read_as self.now)) (slice_get tokens number) false }
    {
        match text.token(number) {
            Some((kind, text)) => self.is_read_as(&Token { kind, text }),
            None => false,
        }
    }

    /// The text of an identifier that is spelled as a stand-in of one of the names.
    fn stand_in_text(&self, names: &Names<'_>) -> Option<&'a str>
        ensures { option_copied result ≡ stand_in_text names.now self.now }
    {
        let Element::Token(token) = self else {
            return None;
        };
        if token.is_ident() && names.has_stand_in(token.text) {
            Some(token.text)
        } else {
            None
        }
    }
}

/// A side's text with stand-ins.
pub(crate) fn code_of(alloc: Global, elements: &[Element<'_>]) -> Result<String, AllocError>
    ensures { IfOk result (λ code. string_bytes code ≡ code_of elements.now) }
{
    let mut code = String::new(alloc);
    for element in elements {
        element.push_to(&mut code)?;
    }
    Ok(code)
}

/// The name of the first placeholder; without one, the empty text.
pub(crate) fn first_name<'a>(elements: &[Element<'a>]) -> &'a str
    ensures { result.now ≡ first_name elements.now }
{
    for element in elements {
        let Element::Placeholder(placeholder) = element else {
            continue;
        };
        return placeholder.name();
    }
    ""
}

/// The first placeholder at or behind the first element that isn't read as its own token of the text.
pub(crate) fn first_glued<'a>(elements: &[Element<'a>], text: &FragmentText) -> Option<&'a str>
    ensures { (tokens : List Token) → lexed (trim text.now) ≡ Some tokens → option_copied result ≡ first_glued elements.now tokens }
{
    for (place, element) in elements.iter().enumerate() {
        if !element.is_read_at(text, place) {
            return Some(first_name(&elements[place..]));
        }
    }
    None
}

/// The first identifier that is spelled as a stand-in of one of the names.
pub(crate) fn spelled_stand_in<'a>(names: &Names<'_>, elements: &[Element<'a>]) -> Option<&'a str>
    ensures { option_copied result ≡ spelled_stand_in names.now elements.now }
{
    for element in elements {
        if let Some(text) = element.stand_in_text(names) {
            return Some(text);
        }
    }
    None
}
