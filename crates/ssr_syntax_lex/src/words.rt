//! Keywords and punctuation.

ghost use Rattle.std.specs.Prelude.{◌≡◌};
ghost use Rattle.ssr_syntax_lex.specs.Words as spec;
ghost use Rattle.ssr_syntax_lex.specs.Private.Steps.{beginning};
ghost use Rattle.ssr_syntax_lex.specs.Characters.{the_char};

use ssr_syntax_kinds::SyntaxKind;

/// The kind of a word: a keyword's, that of `_`, or an identifier's. The first letter decides which few words it is
/// compared with.
pub(crate) fn word_kind(word: &str) -> SyntaxKind
    ensures { result ≡ spec.word_kind word.now }
{
    match word.as_bytes().first() {
        None => SyntaxKind::IDENT,
        Some(..=b'`') => kind_before_a(word),
        Some(b'a'..=b'b') => kind_from_a(word),
        Some(b'c'..=b'd') => kind_from_c(word),
        Some(b'e'..=b'h') => kind_from_e(word),
        Some(b'i'..=b'l') => kind_from_i(word),
        Some(b'm'..=b'q') => kind_from_m(word),
        Some(b'r'..=b's') => kind_from_r(word),
        Some(b't') => kind_from_t(word),
        Some(b'u'..) => kind_from_u(word),
    }
}

fn kind_before_a(word: &str) -> SyntaxKind
    ensures { result ≡ spec.kind_in (beginning 0 (the_char "`") spec.word_kinds) word.now }
{
    match word {
        "_" => SyntaxKind::UNDERSCORE,
        "Self" => SyntaxKind::SELF_TYPE_KW,
        _ => SyntaxKind::IDENT,
    }
}

fn kind_from_a(word: &str) -> SyntaxKind
    ensures { result ≡ spec.kind_in (beginning (the_char "a") (the_char "b") spec.word_kinds) word.now }
{
    match word {
        "as" => SyntaxKind::AS_KW,
        "async" => SyntaxKind::ASYNC_KW,
        "await" => SyntaxKind::AWAIT_KW,
        "break" => SyntaxKind::BREAK_KW,
        "abstract" => SyntaxKind::ABSTRACT_KW,
        "become" => SyntaxKind::BECOME_KW,
        "box" => SyntaxKind::BOX_KW,
        _ => SyntaxKind::IDENT,
    }
}

fn kind_from_c(word: &str) -> SyntaxKind
    ensures { result ≡ spec.kind_in (beginning (the_char "c") (the_char "d") spec.word_kinds) word.now }
{
    match word {
        "const" => SyntaxKind::CONST_KW,
        "continue" => SyntaxKind::CONTINUE_KW,
        "crate" => SyntaxKind::CRATE_KW,
        "dyn" => SyntaxKind::DYN_KW,
        "do" => SyntaxKind::DO_KW,
        _ => SyntaxKind::IDENT,
    }
}

fn kind_from_e(word: &str) -> SyntaxKind
    ensures { result ≡ spec.kind_in (beginning (the_char "e") (the_char "h") spec.word_kinds) word.now }
{
    match word {
        "else" => SyntaxKind::ELSE_KW,
        "enum" => SyntaxKind::ENUM_KW,
        "extern" => SyntaxKind::EXTERN_KW,
        "false" => SyntaxKind::FALSE_KW,
        "fn" => SyntaxKind::FN_KW,
        "for" => SyntaxKind::FOR_KW,
        "final" => SyntaxKind::FINAL_KW,
        _ => SyntaxKind::IDENT,
    }
}

fn kind_from_i(word: &str) -> SyntaxKind
    ensures { result ≡ spec.kind_in (beginning (the_char "i") (the_char "l") spec.word_kinds) word.now }
{
    match word {
        "if" => SyntaxKind::IF_KW,
        "impl" => SyntaxKind::IMPL_KW,
        "in" => SyntaxKind::IN_KW,
        "let" => SyntaxKind::LET_KW,
        "loop" => SyntaxKind::LOOP_KW,
        _ => SyntaxKind::IDENT,
    }
}

fn kind_from_m(word: &str) -> SyntaxKind
    ensures { result ≡ spec.kind_in (beginning (the_char "m") (the_char "q") spec.word_kinds) word.now }
{
    match word {
        "match" => SyntaxKind::MATCH_KW,
        "mod" => SyntaxKind::MOD_KW,
        "move" => SyntaxKind::MOVE_KW,
        "mut" => SyntaxKind::MUT_KW,
        "pub" => SyntaxKind::PUB_KW,
        "macro" => SyntaxKind::MACRO_KW,
        "override" => SyntaxKind::OVERRIDE_KW,
        "priv" => SyntaxKind::PRIV_KW,
        _ => SyntaxKind::IDENT,
    }
}

fn kind_from_r(word: &str) -> SyntaxKind
    ensures { result ≡ spec.kind_in (beginning (the_char "r") (the_char "s") spec.word_kinds) word.now }
{
    match word {
        "ref" => SyntaxKind::REF_KW,
        "return" => SyntaxKind::RETURN_KW,
        "self" => SyntaxKind::SELF_KW,
        "static" => SyntaxKind::STATIC_KW,
        "struct" => SyntaxKind::STRUCT_KW,
        "super" => SyntaxKind::SUPER_KW,
        _ => SyntaxKind::IDENT,
    }
}

fn kind_from_t(word: &str) -> SyntaxKind
    ensures { result ≡ spec.kind_in (beginning (the_char "t") (the_char "t") spec.word_kinds) word.now }
{
    match word {
        "trait" => SyntaxKind::TRAIT_KW,
        "true" => SyntaxKind::TRUE_KW,
        "type" => SyntaxKind::TYPE_KW,
        "try" => SyntaxKind::TRY_KW,
        "typeof" => SyntaxKind::TYPEOF_KW,
        _ => SyntaxKind::IDENT,
    }
}

fn kind_from_u(word: &str) -> SyntaxKind
    ensures { result ≡ spec.kind_in (beginning (the_char "u") 255 spec.word_kinds) word.now }
{
    match word {
        "unsafe" => SyntaxKind::UNSAFE_KW,
        "use" => SyntaxKind::USE_KW,
        "where" => SyntaxKind::WHERE_KW,
        "while" => SyntaxKind::WHILE_KW,
        "unsized" => SyntaxKind::UNSIZED_KW,
        "virtual" => SyntaxKind::VIRTUAL_KW,
        "yield" => SyntaxKind::YIELD_KW,
        _ => SyntaxKind::IDENT,
    }
}

/// The kind of a punctuation character.
#[tactic(auto, unfolding(crate::specs::Words::mark_kind))]
pub(crate) fn mark_kind(c: char) -> Option<SyntaxKind>
    ensures { result ≡ spec.mark_kind c }
{
    let kind = match c {
        ';' => SyntaxKind::SEMICOLON,
        ',' => SyntaxKind::COMMA,
        '(' => SyntaxKind::L_PAREN,
        ')' => SyntaxKind::R_PAREN,
        '{' => SyntaxKind::L_CURLY,
        '}' => SyntaxKind::R_CURLY,
        '[' => SyntaxKind::L_BRACK,
        ']' => SyntaxKind::R_BRACK,
        '<' => SyntaxKind::L_ANGLE,
        '>' => SyntaxKind::R_ANGLE,
        '@' => SyntaxKind::AT,
        '#' => SyntaxKind::POUND,
        '~' => SyntaxKind::TILDE,
        '?' => SyntaxKind::QUESTION,
        '$' => SyntaxKind::DOLLAR,
        '&' => SyntaxKind::AMP,
        '+' => SyntaxKind::PLUS,
        '*' => SyntaxKind::STAR,
        '/' => SyntaxKind::SLASH,
        '^' => SyntaxKind::CARET,
        '%' => SyntaxKind::PERCENT,
        '.' => SyntaxKind::DOT,
        ':' => SyntaxKind::COLON,
        '=' => SyntaxKind::EQ,
        '!' => SyntaxKind::BANG,
        '-' => SyntaxKind::MINUS,
        '|' => SyntaxKind::PIPE,
        _ => return None,
    };
    Some(kind)
}

/// Whether this is a kind of punctuation.
#[tactic(auto, using(crate::proofs::WordLaws::mark_places))]
pub(crate) fn is_punctuation(kind: SyntaxKind) -> bool
    ensures { result ≡ spec.is_punctuation kind }
{
    // These kinds stand side by side.
    let place = kind as u8;
    SyntaxKind::SEMICOLON as u8 <= place && place <= SyntaxKind::PIPE as u8
}
