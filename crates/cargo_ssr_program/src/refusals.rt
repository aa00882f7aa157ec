//! What is told of a rule's path that doesn't resolve.

use crate::ending_paths::endings;
use crate::failure::Failure;
use crate::input::Input;
use crate::telling::searched_for;
use cargo_ssr_options::Options;
use ssr_base::DefKind;
use ssr_changes::{Form, Sought, asked_paths};
use ssr_names::Names;
use std::alloc::{AllocError, Global};

/// What a message begins with that tells a path that doesn't resolve.
const UNRESOLVED: &str = "Failed to resolve path `";

/// What is told behind a refusal: of a path that doesn't resolve what it could stand for, and where names are looked up.
pub(crate) fn refusal_hint(
    alloc: Global,
    input: &Input,
    options: &Options,
    message: &str,
) -> Result<String, AllocError> {
    let Some(known) = &input.known else {
        return Ok(String::new(alloc));
    };
    let Some(rest) = message.strip_prefix(UNRESOLVED) else {
        return Ok(String::new(alloc));
    };
    let path = rest.strip_suffix('`').unwrap_or(rest);
    let file = input.position.file_id.0;
    let place = looked_up(alloc, input, options)?;
    let table = known.table(alloc, &input.files)?;
    match endings(alloc, &table, file, last_name(path))? {
        Some(words) => format!(in alloc; "\n{words}; {place}"),
        None => format!(in alloc; "\n{place}"),
    }
}

/// The last name of a path.
fn last_name(path: &str) -> &str {
    let front = match path.split_once('<') {
        Some((front, _)) => front.strip_suffix("::").unwrap_or(front),
        None => path,
    };
    match front.rsplit_once("::") {
        Some((_, last)) => last.trim(),
        None => front.trim(),
    }
}

/// Where the names of rules are looked up.
fn looked_up(alloc: Global, input: &Input, options: &Options) -> Result<String, AllocError> {
    let file = input.position.file_id.0 as usize;
    if options.place.is_some() || file >= input.files.file_count() {
        return String::from_str(alloc, "names are looked up where --in says");
    }
    let name = input.files.name(file);
    format!(in alloc; "names are looked up in {name}, or where --in says")
}

/// Why a rule or a pattern is refused of which a path stands for different things at its places, if one does.
pub(crate) fn two_meanings(
    alloc: Global,
    names: &Names,
    options: &Options,
) -> Result<Option<Failure>, AllocError> {
    let (form, texts) = searched_for(options);
    for number in 0..texts.len() {
        let sought = Sought {
            form,
            texts: &texts[number..number + 1],
        };
        for path in &asked_paths(alloc, sought)? {
            let kinds = names.kinds_of(alloc, &path.key)?;
            if kinds.len() > 1 {
                let why = meanings_words(alloc, &path.key, &kinds)?;
                return Ok(Some(refused(alloc, form, number, why)?));
            }
        }
    }
    Ok(None)
}

/// The failure of a run of which a rule or a pattern is refused.
pub(crate) fn refused(
    alloc: Global,
    form: Form,
    number: usize,
    why: String,
) -> Result<Failure, AllocError> {
    match form {
        Form::Rules => Ok(Failure::Rule(number, why)),
        Form::Patterns => Ok(Failure::Told(format!(in alloc; "pattern {number}: {why}")?)),
    }
}

/// That a path stands for things of these kinds: `P is a function and a module`.
fn meanings_words(alloc: Global, key: &[String], kinds: &[DefKind]) -> Result<String, AllocError> {
    let path = key.join(alloc, "::")?;
    let mut words = Vec::with_capacity(alloc, kinds.len())?;
    for kind in kinds {
        words.push(kind_word(*kind))?;
    }
    let list = words.as_slice().join(alloc, " and ")?;
    format!(in alloc; "{UNRESOLVED}{path}`: {path} is {list}")
}

/// What a definition is called.
fn kind_word(kind: DefKind) -> &'static str {
    match kind {
        DefKind::Module => "a module",
        DefKind::Function => "a function",
        DefKind::Adt => "a type",
        DefKind::Variant => "a variant",
        DefKind::Const => "a constant",
        DefKind::Static => "a static",
        DefKind::Trait => "a trait",
        DefKind::TypeAlias => "a type alias",
        DefKind::BuiltinType => "a builtin type",
        DefKind::Macro => "a macro",
    }
}
