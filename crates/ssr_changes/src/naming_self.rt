//! Which rule or search pattern names `self`.

use crate::finding::Form;
use crate::read_in::READ_IN;
use ide_ssr::{SsrError, SsrPattern, SsrRule};
use ide_ssr_rules::{ParsedKinds, ParsedRule, pattern_kinds, rule_kinds};
use ide_ssr_search::names_self;
use std::alloc::Global;

/// The number of the first rule or search pattern that names `self` as a value, if one does. It matches in the function around
/// the position alone.
pub fn first_with_self(alloc: Global, form: Form, texts: &[String]) -> Option<usize> {
    for (number, text) in texts.iter().enumerate() {
        // one that is refused names nothing
        let Ok(kinds) = kinds(alloc, form, text.as_str()) else {
            continue;
        };
        if kinds.iter().any(|kind| names_self(&kind.pattern)) {
            return Some(number);
        }
    }
    None
}

/// What a text is read as, kind by kind.
fn kinds(alloc: Global, form: Form, text: &str) -> Result<Vec<ParsedRule>, SsrError> {
    let (_, _, kinds) = parsed(alloc, form, text)?.into_parts();
    Ok(kinds)
}

/// What a text is read as.
pub(crate) fn parsed(alloc: Global, form: Form, text: &str) -> Result<ParsedKinds, SsrError> {
    match form {
        Form::Rules => Ok(rule_kinds(SsrRule::parse_of(alloc, READ_IN, text)?.once())),
        Form::Patterns => Ok(pattern_kinds(SsrPattern::parse_of(alloc, READ_IN, text)?)),
    }
}
