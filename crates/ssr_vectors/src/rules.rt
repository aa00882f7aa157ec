//! The errors of rules, and how a rule is shown.

use ide_ssr_refusals::SsrError;
use ide_ssr_refusals::laws::equality;
use ide_ssr_rules::SsrRule;
use std::test::Fail;

#[test]
fn want_of_memory_has_its_words(rt: HostRuntime) -> Result<(), Fail> {
    let told = SsrError::Memory.to_string(rt.alloc())?;
    assert_eq!(rt; told.as_str(), "out of memory");
    Ok(())
}

#[test]
fn errors_are_equal_where_their_messages_are(rt: HostRuntime) -> Result<(), Fail> {
    let alloc = rt.alloc();
    let error = SsrError::Message(String::from_str(alloc, "a")?);
    let same = SsrError::Message(String::from_str(alloc, "a")?);
    let other = SsrError::Message(String::from_str(alloc, "b")?);
    assert!(rt; equality(&error, &same));
    assert!(rt; !equality(&error, &other));
    assert!(rt; !equality(&error, &SsrError::Memory));
    assert!(rt; equality(&SsrError::Memory, &SsrError::Memory));
    Ok(())
}

#[test]
fn a_rule_is_shown_with_its_names(rt: HostRuntime) -> Result<(), Fail> {
    let alloc = rt.alloc();
    let rule = SsrRule::parse(alloc, "$a + $b ==>> $b")?;
    let shown = format!(in alloc; "{rule:?}")?;
    assert_eq!(rt;
        shown.as_str(),
        "SsrRule { parsed: ParsedKinds { names: [\"a\", \"b\"], kinds: 2 } }"
    );
    Ok(())
}
