//! What a node of a resolved rule stands for.

use ide_ssr_rules::{SsrRule, resolve_rule};
use ssr_base::{DefId, Res, ScopeId};
use ssr_facts::read;
use ssr_syntax_tree::NodeNo;
use std::test::Fail;

const FACTS: &str = r#"{"files":[{"name":"a.rs","text":""}],"scopes":[[0,0,0]],
"defs":[{"kind":"function"}],"names":[[0,["foo"],["def",0]],[0,["x"],["local",0]]]}"#;

#[test]
fn a_node_stands_for_what_its_path_does(rt: HostRuntime) -> Result<(), Fail> {
    let alloc = rt.alloc();
    let facts = read(alloc, FACTS.as_bytes())?;
    let rule = SsrRule::parse(alloc, "foo($a, x) ==>> 1")?;
    let kinds = resolve_rule(alloc, &facts.semantics, ScopeId(0), rule)?;
    let Some(kind) = kinds.first() else {
        return Err(Fail::new("no kinds"));
    };
    // CALL_EXPR, PATH_EXPR, PATH, and behind these the arguments
    assert_eq!(rt; kind.pattern_res(NodeNo(2)), Some(Res::Def(DefId(0))));
    assert_eq!(rt; kind.pattern_res(NodeNo(0)), None);
    assert_eq!(rt; kind.pattern_res(NodeNo(99)), None);
    Ok(())
}
