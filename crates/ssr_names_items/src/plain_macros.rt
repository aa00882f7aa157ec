//! Macros whose names tell what they declare, where no file defines them.

/// Whether the standard library's macro of a name declares nothing where it is called.
pub(crate) fn is_plain(name: &str) -> bool {
    is_plain_print(name) || is_plain_test(name) || is_plain_text(name)
}

fn is_plain_print(name: &str) -> bool {
    matches!(
        name,
        "print" | "println" | "eprint" | "eprintln" | "write" | "writeln" | "format" | "format_args"
    )
}

fn is_plain_test(name: &str) -> bool {
    matches!(
        name,
        "assert"
            | "assert_eq"
            | "assert_ne"
            | "debug_assert"
            | "debug_assert_eq"
            | "debug_assert_ne"
    ) || matches!(
        name,
        "panic" | "todo" | "unimplemented" | "unreachable" | "matches" | "dbg" | "vec" | "try"
    )
}

fn is_plain_text(name: &str) -> bool {
    matches!(
        name,
        "compile_error" | "concat" | "env" | "option_env" | "stringify" | "cfg" | "include_str"
    ) || matches!(
        name,
        "include_bytes" | "line" | "column" | "file" | "module_path" | "global_asm"
    )
}

/// Whether a macro of this name makes tests of a file's documentation and declares nothing else, as that of the crate `doc_comment`.
pub(crate) fn tests_documents(name: &str) -> bool {
    name == "doctest"
}

/// Whether a macro of this name brings in what isn't spelled where it is called: a file, or what is made of one.
pub(crate) fn opens(name: &str) -> bool {
    matches!(name, "include" | "error_chain") || (name.starts_with("include_") && !is_plain(name))
}
