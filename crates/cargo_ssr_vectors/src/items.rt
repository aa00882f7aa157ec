//! What files declare, as the text of a table: a line for each module, name, import and item.

use ssr_base::Workspace;
use ssr_names_items::{
    CrateKind, Declaration, Edition, FileModule, Origin, SourceText, Sources, read_items, shown,
};
use ssr_syntax_kinds::TextRange;
use std::alloc::Global;
use std::test::Fail;

/// A file that is the root of a crate, and what it declares.
const FILES: [(&str, &str); 10] = [
    (
        "pub struct Unit; pub struct Pair(pub u8, u16); struct Fields { a: u8 } pub(crate) enum Level { Low }",
        "0 crate of 0
0 Type Unit: item 0, pub
0 Value Unit: item 0, pub
0 Type Pair: item 1, pub
0 Value Pair: item 1, in 0
0 Type Fields: item 2, in 0
0 Type Level: item 3, in 0
item Unit Struct Module
item Pair Struct Module
item Fields Struct Module
item Level Enum Module
item Low Variant Item(ItemNo(3))
",
    ),
    (
        "use a::{self, d::*, e as _}; pub use super::super::g; use ::h as i;",
        "0 crate of 0
0 Type a: import 0, in 0
0 Type g: import 3, pub
0 Value g: import 3, pub
0 Macro g: import 3, pub
0 Type i: import 4, in 0
0 Value i: import 4, in 0
0 Macro i: import 4, in 0
0 use a:: as a types
0 use a::d::*
0 use a::e:: as _
0 use super 2::g:: as g
0 use ::h:: as i
",
    ),
    (
        "trait Shape { fn area(&self); } impl Shape for Unit { fn area(&self) {} } impl Unit { fn new() {} }",
        "0 crate of 0
0 Type Shape: item 0, in 0
item Shape Trait Module
item area Function Item(ItemNo(0))
item area Function Impl(ImplNo(0))
item new Function Impl(ImplNo(1))
impl 0 true
impl 0 false
",
    ),
    (
        "#[cfg(unix)] mod inner { pub(super) fn f() { const C: u8 = 1; } }",
        "0 crate of 0
1 inner in 0 of 0
2 block in 1 of 0
0 Type inner: module 1, in 0, unsure
1 Value f: item 0, in 0, unsure
2 Value C: item 1, in 2, unsure
item f Function Module
item C Const Module
",
    ),
    (
        "macro_rules! plain { ($e:expr) => { $e }; } fn f() { plain!(other); println!(\"{}\", drop); }",
        "0 crate of 0
0 Macro plain: item 0, in 0
0 Value f: item 1, in 0
item plain Macro Module
item f Function Module
",
    ),
    (
        "macro_rules! all { () => { use std::io::*; }; } mod n { all!(); } mod i { include!(\"x.rs\"); }",
        "0 crate of 0
1 n in 0 of 0 open
2 i in 0 of 0 open
0 Macro all: item 0, in 0
0 Type n: module 1, in 0
0 Type i: module 2, in 0
1 Type io: unknown, pub, unsure
1 Value io: unknown, pub, unsure
1 Macro io: unknown, pub, unsure
item all Macro Module
",
    ),
    (
        "unread! { fn spelled(); Word }",
        "0 crate of 0
0 Value spelled: item 0, pub, unsure
0 Type Word: unknown, pub, unsure
0 Value Word: unknown, pub, unsure
0 Macro Word: unknown, pub, unsure
item spelled Function Module
",
    ),
    (
        "macro_rules! m { ($n:ident) => { other! { $n } }; } m!(drop);",
        "0 crate of 0
0 Macro m: item 0, in 0
0 Type n: unknown, pub, unsure
0 Value n: unknown, pub, unsure
0 Macro n: unknown, pub, unsure
0 Type drop: unknown, pub, unsure
0 Value drop: unknown, pub, unsure
0 Macro drop: unknown, pub, unsure
item m Macro Module
",
    ),
    (
        "#[macro_export] macro_rules! m { () => {}; } unread!(); other::m!(word);",
        "0 crate of 0 open
0 Macro m: item 0, pub
0 Type word: unknown, pub, unsure
0 Value word: unknown, pub, unsure
0 Macro word: unknown, pub, unsure
item m Macro Module
",
    ),
    (
        "#[rustversion::nightly] use a::b; #[test] fn t() {}",
        "0 crate of 0
0 Type b: import 0, in 0, unsure
0 Value b: import 0, in 0, unsure
0 Macro b: import 0, in 0, unsure
0 Value t: item 0, in 0, unsure
0 use a::b:: as b unsure
item t Function Module
",
    ),
];

/// A file, its text on the disk and its text as it is searched.
#[derive(Drop)]
struct File {
    name: &'static str,
    text: &'static str,
    searched: &'static str,
}

const fn plain(name: &'static str, text: &'static str) -> File {
    File {
        name,
        text,
        searched: text,
    }
}

const ROOT: FileModule<'static> = FileModule {
    file: "src/lib.rs",
    origin: Origin::Root {
        name: "own",
        edition: Some(Edition::Edition2021),
        kind: CrateKind::Library,
    },
};

/// What files declare.
fn declared(
    alloc: Global,
    files: &[File],
    aside: &[(TextRange, String)],
    modules: &[FileModule<'_>],
) -> Result<String, Fail> {
    let mut searched = Vec::new(alloc);
    let mut texts = Vec::new(alloc);
    for file in files {
        searched.push(String::from_str(alloc, file.searched)?)?;
        texts.push(SourceText {
            name: file.name,
            text: file.text,
            aside,
        })?;
    }
    let workspace = Workspace::build(alloc, searched, Vec::new(alloc))?;
    let sources = Sources {
        trees: workspace.trees(),
        files: &texts,
        modules,
    };
    let table = read_items(alloc, sources)?;
    Ok(shown(alloc, &table)?)
}

#[test]
fn a_file_declares_names(rt: HostRuntime) -> Result<(), Fail> {
    for (text, wanted) in FILES {
        let text = declared(rt.alloc(), &[plain("src/lib.rs", text)], &[], &[ROOT])?;
        assert_eq!(rt; text.as_str(), wanted);
    }
    Ok(())
}

/// A module of a file that a `mod` item of the root declares, in modules with these names.
const fn declared_in_root<'a>(
    file: &'a str,
    around: &'a [String],
    name: &'a str,
) -> FileModule<'a> {
    FileModule {
        file,
        origin: Origin::Declared(Declaration {
            declarer: 0,
            around,
            name,
        }),
    }
}

#[test]
fn mod_items_stand_for_files(rt: HostRuntime) -> Result<(), Fail> {
    let alloc = rt.alloc();
    let around = vec![in alloc; String::from_str(alloc, "a")?]?;
    let modules = [
        ROOT,
        declared_in_root("src/a/b.rs", around.as_slice(), "b"),
        declared_in_root("src/c.rs", &[], "c"),
        declared_in_root("src/c.rs", &[], "d"),
    ];
    let files = [
        plain(
            "src/lib.rs",
            "mod a { pub mod b; } #[macro_use] mod c; mod d; mod gone;",
        ),
        plain("src/a/b.rs", "pub(in crate::a) fn f() {}"),
        plain("src/c.rs", "macro_rules! m { () => {}; }"),
    ];
    let text = declared(alloc, &files, &[], &modules)?;
    assert_eq!(rt;
        text.as_str(),
        "0 crate of 0
1 a in 0 of 0
2 b in 1 of 1
3 c in 0 of 2
4 d in 0 of 2
5 gone in 0 of 0 open
0 Macro m: item 1, in 0
0 Type a: module 1, in 0
0 Type c: module 3, in 0
0 Type d: module 4, in 0
0 Type gone: module 5, in 0
1 Type b: module 2, pub
2 Value f: item 0, in 1
4 Macro m: item 2, in 4
item f Function Module
item m Macro Module
item m Macro Module
"
    );
    Ok(())
}

#[test]
fn what_is_set_aside_is_read(rt: HostRuntime) -> Result<(), Fail> {
    let alloc = rt.alloc();
    let files = [File {
        name: "src/lib.rs",
        text: "fn g() {} union Bits { a: u8 }",
        searched: "fn g() {}                     ",
    }];
    let aside = [(TextRange::new(10, 30), String::new(alloc))];
    let text = declared(alloc, &files, &aside, &[ROOT])?;
    assert_eq!(rt;
        text.as_str(),
        "0 crate of 0
0 Type Bits: unknown, pub, unsure
0 Value Bits: unknown, pub, unsure
0 Macro Bits: unknown, pub, unsure
0 Value g: item 0, in 0
item g Function Module
"
    );
    Ok(())
}

#[test]
fn what_is_set_aside_of_items_is_read(rt: HostRuntime) -> Result<(), Fail> {
    let alloc = rt.alloc();
    let files = [File {
        name: "src/lib.rs",
        text: "fn f<Job: A, I: B<Item: C>>() {} mod m { #![cfg(a)] fn g() {} }",
        searched: "fn f                       () {} mod m {            fn g() {} }",
    }];
    let parts = [
        (4, 27),
        (41, 42),
        (42, 43),
        (43, 44),
        (44, 47),
        (47, 48),
        (48, 49),
        (49, 50),
        (50, 51),
    ];
    let mut aside = Vec::new(alloc);
    for (start, end) in parts {
        aside.push((TextRange::new(start, end), String::new(alloc)))?;
    }
    let text = declared(alloc, &files, aside.as_slice(), &[ROOT])?;
    assert_eq!(rt;
        text.as_str(),
        "0 crate of 0
1 m in 0 of 0
0 Type Job: unknown, pub, unsure
0 Value Job: unknown, pub, unsure
0 Macro Job: unknown, pub, unsure
0 Type I: unknown, pub, unsure
0 Value I: unknown, pub, unsure
0 Macro I: unknown, pub, unsure
0 Type Item: unknown, pub, unsure
0 Value Item: unknown, pub, unsure
0 Macro Item: unknown, pub, unsure
0 Value f: item 0, in 0
0 Type m: module 1, in 0, unsure
1 Value g: item 1, in 1, unsure
item f Function Module
item g Function Module
"
    );
    Ok(())
}

#[test]
fn two_mod_items_are_one_module(rt: HostRuntime) -> Result<(), Fail> {
    let modules = [ROOT, declared_in_root("src/d.rs", &[], "d")];
    let files = [
        plain(
            "src/lib.rs",
            "#[cfg(a)] pub mod d; #[cfg(b)] mod d; #[path = \"e.rs\"] mod d;",
        ),
        plain("src/d.rs", "fn f() {}"),
    ];
    let text = declared(rt.alloc(), &files, &[], &modules)?;
    assert_eq!(rt;
        text.as_str(),
        "0 crate of 0
1 d in 0 of 1
2 d in 0 of 0 open
0 Type d: module 1, pub, unsure
0 Type d: module 1, in 0, unsure
0 Type d: module 2, in 0
1 Value f: item 0, in 1, unsure
item f Function Module
"
    );
    Ok(())
}
