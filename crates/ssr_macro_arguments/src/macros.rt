//! The macros of the standard library whose arguments are expressions.

/// How the arguments of a macro are read.
#[derive(Clone, Copy)]
pub(crate) enum Form {
    /// So many values, a format string, and values that may have a name and `=` in front: `println!("{a}", a = 1)`.
    Formatted(usize),
    /// Values.
    Values,
    /// Values, or a value, `;` and how often it stands there.
    Elements,
    /// A value and a pattern.
    Matched,
}

/// How the arguments of the macro with this name are read.
pub(crate) fn form_of(name: &str) -> Option<Form> {
    match name {
        "print" | "println" | "eprint" | "eprintln" => Some(Form::Formatted(0)),
        "format" | "format_args" => Some(Form::Formatted(0)),
        "panic" | "todo" | "unimplemented" | "unreachable" => Some(Form::Formatted(0)),
        "write" | "writeln" | "assert" | "debug_assert" => Some(Form::Formatted(1)),
        "assert_eq" | "assert_ne" | "debug_assert_eq" | "debug_assert_ne" => {
            Some(Form::Formatted(2))
        }
        "dbg" => Some(Form::Values),
        "vec" => Some(Form::Elements),
        "matches" => Some(Form::Matched),
        _ => None,
    }
}

/// What stands in front of the name of a macro, where its path tells that it is the standard library's.
const FRONTS: [&str; 6] = [
    "std::",
    "core::",
    "alloc::",
    "::std::",
    "::core::",
    "::alloc::",
];

/// The name behind the path of the standard library, where that stands in front.
pub(crate) fn name_in_std(path: &str) -> Option<&str> {
    for front in FRONTS {
        if let Some(name) = path.strip_prefix(front) {
            return Some(name);
        }
    }
    None
}
