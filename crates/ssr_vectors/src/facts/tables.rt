//! What a provider answers that is told by tables.

use ssr_base::{DefId, DefInfo, DefKind, NodeId, Res, ScopeId, SelfKind, Semantics, TypeId};
use ssr_facts::{Definition, MemberKey, Method, NameKey, PrintedKey, TableSemantics, Tables};
use ssr_syntax_tree::NodeNo;
use std::alloc::{AllocError, Global};
use std::test::Fail;

fn node(number: u32) -> NodeId {
    NodeId {
        tree: 0,
        node: NodeNo(number),
    }
}

fn texts(alloc: Global, texts: &[&str]) -> Result<Vec<String>, AllocError> {
    let mut copies = Vec::new(alloc);
    for text in texts {
        copies.push(String::from_str(alloc, text)?)?;
    }
    Ok(copies)
}

fn name(alloc: Global, path: &[&str], def: u32) -> Result<(NameKey, Res), AllocError> {
    let key = NameKey {
        scope: ScopeId(0),
        path: texts(alloc, path)?,
    };
    Ok((key, Res::Def(DefId(def))))
}

fn member(alloc: Global, name: &str, def: u32) -> Result<(MemberKey, DefId), AllocError> {
    let key = MemberKey {
        scope: ScopeId(0),
        adt: DefId(0),
        name: String::from_str(alloc, name)?,
    };
    Ok((key, DefId(def)))
}

fn method(call: u32, def: u32, self_kind: SelfKind) -> (NodeId, Method) {
    let method = Method {
        def: DefId(def),
        self_kind,
    };
    (node(call), method)
}

fn printed(alloc: Global, text: &str) -> Result<(PrintedKey, String), AllocError> {
    let key = PrintedKey {
        scope: ScopeId(0),
        def: DefId(1),
    };
    Ok((key, String::from_str(alloc, text)?))
}

const STRUCT: Definition = Definition {
    info: DefInfo {
        kind: DefKind::Adt,
        assoc: false,
        takes_self: false,
    },
    adt_type: TypeId(7),
};

const METHOD: Definition = Definition {
    info: DefInfo {
        kind: DefKind::Function,
        assoc: true,
        takes_self: true,
    },
    adt_type: TypeId(0),
};

fn two<T: Drop>(alloc: Global, first: T, second: T) -> Result<Vec<T>, AllocError> {
    let mut rows = Vec::new(alloc);
    rows.push(first)?;
    rows.push(second)?;
    Ok(rows)
}

fn scopes(alloc: Global) -> Result<Vec<(NodeId, ScopeId)>, AllocError> {
    let rows = [
        (node(1), ScopeId(0)),
        (node(2), ScopeId(3)),
        (node(1), ScopeId(9)),
    ];
    Vec::from_slice(alloc, &rows)
}

fn paths(alloc: Global) -> Result<Vec<(NodeId, Res)>, AllocError> {
    let rows = [
        (node(5), Res::Def(DefId(1))),
        (node(2), Res::Local(1)),
        (node(3), Res::Def(DefId(1))),
        (node(2), Res::Def(DefId(1))),
    ];
    Vec::from_slice(alloc, &rows)
}

fn methods(alloc: Global) -> Result<Vec<(NodeId, Method)>, AllocError> {
    let rows = [
        method(8, 1, SelfKind::Mut),
        method(9, 0, SelfKind::Ref),
        method(9, 1, SelfKind::Mut),
    ];
    Vec::from_slice(alloc, &rows)
}

fn types(alloc: Global) -> Result<Vec<(NodeId, Vec<TypeId>)>, AllocError> {
    let types = Vec::from_slice(alloc, &[TypeId(7), TypeId(2)])?;
    two(alloc, (node(4), types), (node(4), Vec::new(alloc)))
}

// Definition 0 is a struct, and definition 1 a method of it. Each table of rows with a key has one that doesn't count.
fn told(alloc: Global) -> Result<TableSemantics, AllocError> {
    let names = two(
        alloc,
        name(alloc, &["a", "S"], 0)?,
        name(alloc, &["a", "S"], 1)?,
    )?;
    let members = two(alloc, member(alloc, "m", 1)?, member(alloc, "m", 0)?)?;
    let printed = two(alloc, printed(alloc, "a::S::m")?, printed(alloc, "m")?)?;
    let tables = Tables {
        definitions: two(alloc, STRUCT, METHOD)?,
        scopes: scopes(alloc)?,
        names,
        members,
        paths: paths(alloc)?,
        methods: methods(alloc)?,
        types: types(alloc)?,
        printed,
    };
    TableSemantics::new(alloc, tables)
}

#[test]
fn the_first_row_of_a_node_is_told(rt: HostRuntime) -> Result<(), Fail> {
    let alloc = rt.alloc();
    let told = told(alloc)?;
    assert_eq!(rt; told.scope(alloc, node(1))?, Some(ScopeId(0)));
    assert_eq!(rt; told.scope(alloc, node(2))?, Some(ScopeId(3)));
    assert_eq!(rt; told.resolve_path(alloc, node(2))?, Some(Res::Local(1)));
    assert_eq!(rt; told.resolve_method(alloc, node(9))?, Some(DefId(0)));
    assert_eq!(rt; told.self_kind(node(9)), SelfKind::Ref);
    let types = Vec::from_slice(alloc, &[TypeId(7), TypeId(2)])?;
    assert_eq!(rt; told.types(alloc, node(4))?, Some(types));
    Ok(())
}

#[test]
fn the_first_row_of_a_text_is_told(rt: HostRuntime) -> Result<(), Fail> {
    let alloc = rt.alloc();
    let told = told(alloc)?;
    let path = texts(alloc, &["a", "S"])?;
    assert_eq!(rt;
        told.lookup(alloc, ScopeId(0), &path)?,
        Some(Res::Def(DefId(0)))
    );
    assert_eq!(rt;
        told.member(alloc, ScopeId(0), DefId(0), "m")?,
        Some(DefId(1))
    );
    let printed = told.path_from(alloc, ScopeId(0), DefId(1))?;
    assert_eq!(rt; printed, Some(String::from_str(alloc, "a::S::m")?));
    Ok(())
}

#[test]
fn definitions_are_told_by_number(rt: HostRuntime) -> Result<(), Fail> {
    let alloc = rt.alloc();
    let told = told(alloc)?;
    assert_eq!(rt; told.info(DefId(1)), METHOD.info);
    assert_eq!(rt; told.adt_type(DefId(0)), TypeId(7));
    assert_eq!(rt; told.info(DefId(2)).kind, DefKind::Module);
    assert_eq!(rt; told.adt_type(DefId(2)), TypeId(0));
    Ok(())
}

#[test]
fn usages_are_paths_and_calls(rt: HostRuntime) -> Result<(), Fail> {
    let alloc = rt.alloc();
    let told = told(alloc)?;
    let usages = told.usages(alloc, Res::Def(DefId(1)))?;
    assert_eq!(rt;
        usages,
        Vec::from_slice(alloc, &[node(5), node(3), node(8)])?
    );
    let usages = told.usages(alloc, Res::Local(1))?;
    assert_eq!(rt; usages, Vec::from_slice(alloc, &[node(2), node(2)])?);
    let usages = told.usages(alloc, Res::Local(2))?;
    assert!(rt; usages.is_empty());
    Ok(())
}

#[test]
fn what_no_row_says_is_unknown(rt: HostRuntime) -> Result<(), Fail> {
    let alloc = rt.alloc();
    let told = told(alloc)?;
    assert_eq!(rt; told.scope(alloc, node(7))?, None);
    let path = texts(alloc, &["S"])?;
    assert_eq!(rt; told.lookup(alloc, ScopeId(1), &path)?, None);
    assert_eq!(rt; told.member(alloc, ScopeId(0), DefId(1), "m")?, None);
    assert_eq!(rt; told.resolve_path(alloc, node(7))?, None);
    assert_eq!(rt; told.resolve_method(alloc, node(5))?, None);
    assert_eq!(rt; told.self_kind(node(5)), SelfKind::Owned);
    assert_eq!(rt; told.types(alloc, node(5))?, None);
    assert_eq!(rt; told.path_from(alloc, ScopeId(0), DefId(0))?, None);
    Ok(())
}
