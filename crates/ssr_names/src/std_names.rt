//! What is known of the standard library: the names that are there without a `use`, paths that are one thing, and what some of
//! its modules bring in by `*`.

use ssr_names_items::{Edition, Namespace};

/// What a name of the prelude names.
#[derive(Clone, Copy, PartialEq, Eq)]
pub(crate) enum PreludeSort {
    Type,
    Function,
    /// A variant, which is a type and a value.
    Variant,
}

/// The edition from which on the prelude has a name.
#[derive(Clone, Copy, PartialEq, Eq)]
pub(crate) enum Since {
    Always,
    Edition2021,
    Edition2024,
}

/// A name of the prelude, and its path in the standard library.
#[derive(Clone, Copy)]
pub(crate) struct PreludeName {
    pub(crate) name: &'static str,
    pub(crate) sort: PreludeSort,
    pub(crate) module: &'static str,
    /// The enum of a variant.
    pub(crate) of: Option<&'static str>,
    pub(crate) since: Since,
}

impl PreludeName {
    /// Whether it is a name of a namespace.
    pub(crate) fn is_in(self, namespace: Namespace) -> bool {
        match namespace {
            Namespace::Type => self.sort != PreludeSort::Function,
            Namespace::Value => self.sort != PreludeSort::Type,
            Namespace::Macro => false,
        }
    }
}

/// The name of the prelude that is spelled so.
pub(crate) fn prelude_name(name: &str) -> Option<PreludeName> {
    PRELUDE.iter().find(|known| known.name == name).copied()
}

/// The names of the prelude.
pub(crate) const PRELUDE: [PreludeName; 45] = [
    PreludeName {
        name: "Send",
        sort: PreludeSort::Type,
        module: "marker",
        of: None,
        since: Since::Always,
    },
    PreludeName {
        name: "Sync",
        sort: PreludeSort::Type,
        module: "marker",
        of: None,
        since: Since::Always,
    },
    PreludeName {
        name: "Sized",
        sort: PreludeSort::Type,
        module: "marker",
        of: None,
        since: Since::Always,
    },
    PreludeName {
        name: "Copy",
        sort: PreludeSort::Type,
        module: "marker",
        of: None,
        since: Since::Always,
    },
    PreludeName {
        name: "Unpin",
        sort: PreludeSort::Type,
        module: "marker",
        of: None,
        since: Since::Always,
    },
    PreludeName {
        name: "Drop",
        sort: PreludeSort::Type,
        module: "ops",
        of: None,
        since: Since::Always,
    },
    PreludeName {
        name: "Fn",
        sort: PreludeSort::Type,
        module: "ops",
        of: None,
        since: Since::Always,
    },
    PreludeName {
        name: "FnMut",
        sort: PreludeSort::Type,
        module: "ops",
        of: None,
        since: Since::Always,
    },
    PreludeName {
        name: "FnOnce",
        sort: PreludeSort::Type,
        module: "ops",
        of: None,
        since: Since::Always,
    },
    PreludeName {
        name: "Box",
        sort: PreludeSort::Type,
        module: "boxed",
        of: None,
        since: Since::Always,
    },
    PreludeName {
        name: "ToOwned",
        sort: PreludeSort::Type,
        module: "borrow",
        of: None,
        since: Since::Always,
    },
    PreludeName {
        name: "Clone",
        sort: PreludeSort::Type,
        module: "clone",
        of: None,
        since: Since::Always,
    },
    PreludeName {
        name: "PartialEq",
        sort: PreludeSort::Type,
        module: "cmp",
        of: None,
        since: Since::Always,
    },
    PreludeName {
        name: "PartialOrd",
        sort: PreludeSort::Type,
        module: "cmp",
        of: None,
        since: Since::Always,
    },
    PreludeName {
        name: "Eq",
        sort: PreludeSort::Type,
        module: "cmp",
        of: None,
        since: Since::Always,
    },
    PreludeName {
        name: "Ord",
        sort: PreludeSort::Type,
        module: "cmp",
        of: None,
        since: Since::Always,
    },
    PreludeName {
        name: "AsRef",
        sort: PreludeSort::Type,
        module: "convert",
        of: None,
        since: Since::Always,
    },
    PreludeName {
        name: "AsMut",
        sort: PreludeSort::Type,
        module: "convert",
        of: None,
        since: Since::Always,
    },
    PreludeName {
        name: "Into",
        sort: PreludeSort::Type,
        module: "convert",
        of: None,
        since: Since::Always,
    },
    PreludeName {
        name: "From",
        sort: PreludeSort::Type,
        module: "convert",
        of: None,
        since: Since::Always,
    },
    PreludeName {
        name: "Default",
        sort: PreludeSort::Type,
        module: "default",
        of: None,
        since: Since::Always,
    },
    PreludeName {
        name: "Iterator",
        sort: PreludeSort::Type,
        module: "iter",
        of: None,
        since: Since::Always,
    },
    PreludeName {
        name: "Extend",
        sort: PreludeSort::Type,
        module: "iter",
        of: None,
        since: Since::Always,
    },
    PreludeName {
        name: "IntoIterator",
        sort: PreludeSort::Type,
        module: "iter",
        of: None,
        since: Since::Always,
    },
    PreludeName {
        name: "DoubleEndedIterator",
        sort: PreludeSort::Type,
        module: "iter",
        of: None,
        since: Since::Always,
    },
    PreludeName {
        name: "ExactSizeIterator",
        sort: PreludeSort::Type,
        module: "iter",
        of: None,
        since: Since::Always,
    },
    PreludeName {
        name: "Option",
        sort: PreludeSort::Type,
        module: "option",
        of: None,
        since: Since::Always,
    },
    PreludeName {
        name: "Result",
        sort: PreludeSort::Type,
        module: "result",
        of: None,
        since: Since::Always,
    },
    PreludeName {
        name: "String",
        sort: PreludeSort::Type,
        module: "string",
        of: None,
        since: Since::Always,
    },
    PreludeName {
        name: "ToString",
        sort: PreludeSort::Type,
        module: "string",
        of: None,
        since: Since::Always,
    },
    PreludeName {
        name: "Vec",
        sort: PreludeSort::Type,
        module: "vec",
        of: None,
        since: Since::Always,
    },
    PreludeName {
        name: "drop",
        sort: PreludeSort::Function,
        module: "mem",
        of: None,
        since: Since::Always,
    },
    PreludeName {
        name: "size_of",
        sort: PreludeSort::Function,
        module: "mem",
        of: None,
        since: Since::Always,
    },
    PreludeName {
        name: "size_of_val",
        sort: PreludeSort::Function,
        module: "mem",
        of: None,
        since: Since::Always,
    },
    PreludeName {
        name: "align_of",
        sort: PreludeSort::Function,
        module: "mem",
        of: None,
        since: Since::Always,
    },
    PreludeName {
        name: "align_of_val",
        sort: PreludeSort::Function,
        module: "mem",
        of: None,
        since: Since::Always,
    },
    PreludeName {
        name: "Some",
        sort: PreludeSort::Variant,
        module: "option",
        of: Some("Option"),
        since: Since::Always,
    },
    PreludeName {
        name: "None",
        sort: PreludeSort::Variant,
        module: "option",
        of: Some("Option"),
        since: Since::Always,
    },
    PreludeName {
        name: "Ok",
        sort: PreludeSort::Variant,
        module: "result",
        of: Some("Result"),
        since: Since::Always,
    },
    PreludeName {
        name: "Err",
        sort: PreludeSort::Variant,
        module: "result",
        of: Some("Result"),
        since: Since::Always,
    },
    PreludeName {
        name: "TryFrom",
        sort: PreludeSort::Type,
        module: "convert",
        of: None,
        since: Since::Edition2021,
    },
    PreludeName {
        name: "TryInto",
        sort: PreludeSort::Type,
        module: "convert",
        of: None,
        since: Since::Edition2021,
    },
    PreludeName {
        name: "FromIterator",
        sort: PreludeSort::Type,
        module: "iter",
        of: None,
        since: Since::Edition2021,
    },
    PreludeName {
        name: "Future",
        sort: PreludeSort::Type,
        module: "future",
        of: None,
        since: Since::Edition2024,
    },
    PreludeName {
        name: "IntoFuture",
        sort: PreludeSort::Type,
        module: "future",
        of: None,
        since: Since::Edition2024,
    },
];

/// Whether a name of the prelude is only there in compilers of late.
pub(crate) fn is_young(name: &str) -> bool {
    matches!(
        name,
        "size_of" | "size_of_val" | "align_of" | "align_of_val"
    )
}

/// Whether a name that is there without a `use` isn't there in a crate without the standard library.
pub(crate) fn is_of_alloc(name: &str) -> bool {
    matches!(
        name,
        "Box"
            | "ToOwned"
            | "String"
            | "ToString"
            | "Vec"
            | "vec"
            | "format"
            | "dbg"
            | "print"
            | "println"
            | "eprint"
            | "eprintln"
            | "thread_local"
    )
}

/// Whether a word is one of the language, so that as a name it has `r#` in front. The edition 2015 lacks some, and only the last
/// one has `gen`.
pub(crate) fn is_keyword(name: &str, edition: Option<Edition>) -> bool {
    match name {
        "async" | "await" | "dyn" | "try" => edition != Some(Edition::Edition2015),
        "gen" => edition.is_none() || edition == Some(Edition::Edition2024),
        _ => KEYWORDS.contains(&name),
    }
}

/// The words of each edition that may stand for a name with `r#` in front.
const KEYWORDS: [&str; 43] = [
    "abstract", "as", "become", "box", "break", "const", "continue", "do", "else", "enum",
    "extern", "false", "final", "fn", "for", "if", "impl", "in", "let", "loop", "macro", "match",
    "mod", "move", "mut", "override", "priv", "pub", "ref", "return", "static", "struct", "trait",
    "true", "type", "typeof", "unsafe", "unsized", "use", "virtual", "where", "while", "yield",
];

/// A second path of a thing of the standard library.
#[derive(Clone, Copy)]
pub(crate) struct SecondPath {
    pub(crate) modules: (&'static str, &'static str),
    pub(crate) name: &'static str,
    /// The module of the first path.
    pub(crate) first: &'static str,
}

/// The second paths.
pub(crate) const SECOND_PATHS: [SecondPath; 27] = [
    SecondPath {
        modules: ("collections", "hash_map"),
        name: "HashMap",
        first: "collections",
    },
    SecondPath {
        modules: ("collections", "hash_set"),
        name: "HashSet",
        first: "collections",
    },
    SecondPath {
        modules: ("collections", "btree_map"),
        name: "BTreeMap",
        first: "collections",
    },
    SecondPath {
        modules: ("collections", "btree_set"),
        name: "BTreeSet",
        first: "collections",
    },
    SecondPath {
        modules: ("collections", "vec_deque"),
        name: "VecDeque",
        first: "collections",
    },
    SecondPath {
        modules: ("collections", "binary_heap"),
        name: "BinaryHeap",
        first: "collections",
    },
    SecondPath {
        modules: ("collections", "linked_list"),
        name: "LinkedList",
        first: "collections",
    },
    SecondPath {
        modules: ("io", "prelude"),
        name: "Read",
        first: "io",
    },
    SecondPath {
        modules: ("io", "prelude"),
        name: "Write",
        first: "io",
    },
    SecondPath {
        modules: ("io", "prelude"),
        name: "BufRead",
        first: "io",
    },
    SecondPath {
        modules: ("io", "prelude"),
        name: "Seek",
        first: "io",
    },
    SecondPath {
        modules: ("os", "raw"),
        name: "c_char",
        first: "ffi",
    },
    SecondPath {
        modules: ("os", "raw"),
        name: "c_schar",
        first: "ffi",
    },
    SecondPath {
        modules: ("os", "raw"),
        name: "c_uchar",
        first: "ffi",
    },
    SecondPath {
        modules: ("os", "raw"),
        name: "c_short",
        first: "ffi",
    },
    SecondPath {
        modules: ("os", "raw"),
        name: "c_ushort",
        first: "ffi",
    },
    SecondPath {
        modules: ("os", "raw"),
        name: "c_int",
        first: "ffi",
    },
    SecondPath {
        modules: ("os", "raw"),
        name: "c_uint",
        first: "ffi",
    },
    SecondPath {
        modules: ("os", "raw"),
        name: "c_long",
        first: "ffi",
    },
    SecondPath {
        modules: ("os", "raw"),
        name: "c_ulong",
        first: "ffi",
    },
    SecondPath {
        modules: ("os", "raw"),
        name: "c_longlong",
        first: "ffi",
    },
    SecondPath {
        modules: ("os", "raw"),
        name: "c_ulonglong",
        first: "ffi",
    },
    SecondPath {
        modules: ("os", "raw"),
        name: "c_float",
        first: "ffi",
    },
    SecondPath {
        modules: ("os", "raw"),
        name: "c_double",
        first: "ffi",
    },
    SecondPath {
        modules: ("os", "raw"),
        name: "c_void",
        first: "ffi",
    },
    SecondPath {
        modules: ("collections", "hash_map"),
        name: "RandomState",
        first: "hash",
    },
    SecondPath {
        modules: ("collections", "hash_map"),
        name: "DefaultHasher",
        first: "hash",
    },
];

/// The names that `*` brings in of a module or an enum of the standard library, if they are known. The path is told by its
/// last two names.
pub(crate) fn brought_by_glob(parent: &str, name: &str) -> Option<&'static [&'static str]> {
    match (parent, name) {
        ("io", "prelude") => Some(&IO_PRELUDE[..]),
        ("cmp", "Ordering") => Some(&CMP_ORDERING[..]),
        ("ops", "Bound") => Some(&OPS_BOUND[..]),
        ("task", "Poll") => Some(&TASK_POLL[..]),
        ("sync", "atomic") => Some(&SYNC_ATOMIC[..]),
        ("std", "io") => Some(&IO[..]),
        ("std", "fmt") => Some(&FMT[..]),
        ("std", "collections") => Some(&COLLECTIONS[..]),
        _ => None,
    }
}

const IO_PRELUDE: [&str; 4] = ["BufRead", "Read", "Seek", "Write"];

const CMP_ORDERING: [&str; 3] = ["Less", "Equal", "Greater"];

const OPS_BOUND: [&str; 3] = ["Included", "Excluded", "Unbounded"];

const TASK_POLL: [&str; 2] = ["Ready", "Pending"];

const SYNC_ATOMIC: [&str; 29] = [
    "AtomicBool",
    "AtomicI8",
    "AtomicI16",
    "AtomicI32",
    "AtomicI64",
    "AtomicI128",
    "AtomicIsize",
    "AtomicPtr",
    "AtomicU8",
    "AtomicU16",
    "AtomicU32",
    "AtomicU64",
    "AtomicU128",
    "AtomicUsize",
    "Ordering",
    "fence",
    "compiler_fence",
    "spin_loop_hint",
    "ATOMIC_BOOL_INIT",
    "ATOMIC_I8_INIT",
    "ATOMIC_I16_INIT",
    "ATOMIC_I32_INIT",
    "ATOMIC_I64_INIT",
    "ATOMIC_ISIZE_INIT",
    "ATOMIC_U8_INIT",
    "ATOMIC_U16_INIT",
    "ATOMIC_U32_INIT",
    "ATOMIC_U64_INIT",
    "ATOMIC_USIZE_INIT",
];

const IO: [&str; 49] = [
    "BorrowedBuf",
    "BorrowedCursor",
    "BufRead",
    "BufReader",
    "BufWriter",
    "Bytes",
    "Chain",
    "Cursor",
    "Empty",
    "Error",
    "ErrorKind",
    "Initializer",
    "IntoInnerError",
    "IoSlice",
    "IoSliceMut",
    "IsTerminal",
    "LineWriter",
    "Lines",
    "PipeReader",
    "PipeWriter",
    "RawOsError",
    "Read",
    "Repeat",
    "Result",
    "Seek",
    "SeekFrom",
    "SimpleMessage",
    "Sink",
    "Split",
    "Stderr",
    "StderrLock",
    "Stdin",
    "StdinLock",
    "Stdout",
    "StdoutLock",
    "Take",
    "Write",
    "WriterPanicked",
    "const_error",
    "copy",
    "empty",
    "pipe",
    "prelude",
    "read_to_string",
    "repeat",
    "sink",
    "stderr",
    "stdin",
    "stdout",
];

const FMT: [&str; 27] = [
    "Alignment",
    "Arguments",
    "Binary",
    "Debug",
    "DebugAsHex",
    "DebugList",
    "DebugMap",
    "DebugSet",
    "DebugStruct",
    "DebugTuple",
    "Display",
    "Error",
    "Formatter",
    "FormattingOptions",
    "FromFn",
    "LowerExp",
    "LowerHex",
    "Octal",
    "Pointer",
    "Result",
    "Sign",
    "UpperExp",
    "UpperHex",
    "Write",
    "format",
    "from_fn",
    "write",
];

const COLLECTIONS: [&str; 17] = [
    "BTreeMap",
    "BTreeSet",
    "BinaryHeap",
    "Bound",
    "HashMap",
    "HashSet",
    "LinkedList",
    "TryReserveError",
    "TryReserveErrorKind",
    "VecDeque",
    "binary_heap",
    "btree_map",
    "btree_set",
    "hash_map",
    "hash_set",
    "linked_list",
    "vec_deque",
];

/// Whether a name is that of a builtin type.
pub(crate) fn is_builtin_type(name: &str) -> bool {
    BUILTIN_TYPES.contains(&name)
}

pub(crate) const BUILTIN_TYPES: [&str; 17] = [
    "u8", "u16", "u32", "u64", "u128", "usize", "i8", "i16", "i32", "i64", "i128", "isize", "f32",
    "f64", "bool", "char", "str",
];

/// Whether the module of the standard library that is named as a builtin type has something of this name.
pub(crate) fn is_in_type_module(name: &str) -> bool {
    IN_TYPE_MODULES.contains(&name)
}

const IN_TYPE_MODULES: [&str; 27] = [
    "MAX",
    "MIN",
    "EPSILON",
    "INFINITY",
    "NAN",
    "NEG_INFINITY",
    "MIN_POSITIVE",
    "DIGITS",
    "MANTISSA_DIGITS",
    "MAX_10_EXP",
    "MAX_EXP",
    "MIN_10_EXP",
    "MIN_EXP",
    "RADIX",
    "REPLACEMENT_CHARACTER",
    "UNICODE_VERSION",
    "consts",
    "from_u32",
    "from_digit",
    "decode_utf16",
    "from_utf8",
    "from_utf8_mut",
    "from_utf8_unchecked",
    "Chars",
    "Bytes",
    "FromStr",
    "Utf8Error",
];

/// Whether the standard library has a macro of this name.
pub(crate) fn is_std_macro(name: &str) -> bool {
    MACROS.contains(&name)
}

const MACROS: [&str; 39] = [
    "assert",
    "assert_eq",
    "assert_ne",
    "cfg",
    "column",
    "compile_error",
    "concat",
    "concat_bytes",
    "concat_idents",
    "dbg",
    "debug_assert",
    "debug_assert_eq",
    "debug_assert_ne",
    "env",
    "eprint",
    "eprintln",
    "file",
    "format",
    "format_args",
    "include",
    "include_bytes",
    "include_str",
    "is_x86_feature_detected",
    "line",
    "matches",
    "module_path",
    "option_env",
    "panic",
    "print",
    "println",
    "stringify",
    "thread_local",
    "todo",
    "try",
    "unimplemented",
    "unreachable",
    "vec",
    "write",
    "writeln",
];

/// Whether a crate is known to have no macro that the standard library has too.
pub(crate) fn has_no_std_macros(name: &str) -> bool {
    HARMLESS_CRATES.contains(&name)
}

const HARMLESS_CRATES: [&str; 18] = [
    "alloc",
    "bitflags",
    "cfg_if",
    "core",
    "criterion",
    "error_chain",
    "failure",
    "failure_derive",
    "lazy_static",
    "log",
    "maplit",
    "quick_error",
    "quickcheck",
    "scopeguard",
    "serde",
    "serde_derive",
    "serde_json",
    "std",
];

/// Whether a crate is the standard library, or a part of it.
pub(crate) fn is_std(name: &str) -> bool {
    matches!(name, "std" | "core" | "alloc")
}
