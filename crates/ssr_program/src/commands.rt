//! What the words of the command ask for.
ghost use Rattle.std.specs.Prelude.{◌≡◌, map, string_bytes, option_map};
ghost use Rattle.ssr_program.specs.Commands.{command_of, facts_path as path_of};

/// What is read.
#[derive(Clone, Copy, Debug, PartialEq, Eq)]
pub(crate) enum Form {
    /// A file.
    File,
    /// The facts of a workspace.
    Facts,
}

/// The path of the facts file that these words name: the second word, if the first one is `--facts` and a rule stands behind
/// it.
pub fn facts_path(words: &[String]) -> Option<&str>
    ensures { option_map (λ path. path.now) result ≡ path_of (map string_bytes words.now) }
{
    match words {
        [word, path, _, ..] if word.as_str() == "--facts" => Some(path.as_str()),
        _ => None,
    }
}

/// The form that these words ask for, and the rules; none if the words are wrong.
pub(crate) fn command(words: Option<&[String]>) -> Option<(Form, &[String])>
    ensures { option_map (λ command. (command.0, map string_bytes command.1.now)) result ≡ command_of (option_map (λ words. map string_bytes words.now) words.entry) }
{
    let words = words?;
    if words.is_empty() {
        return None;
    }
    if words[0].as_str() != "--facts" {
        return Some((Form::File, words));
    }
    if words.len() < 3 {
        return None;
    }
    Some((Form::Facts, &words[2..]))
}
