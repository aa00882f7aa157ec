//! Format strings, which are no values of their own.
ghost use Rattle.std.specs.Prelude.{◌≡◌, ◌≤◌, ◌++◌, length, take, drop};
ghost use Rattle.ssr_macro_arguments.specs.Forms.{first_length, lone_string_length, without_string, searched};

use crate::arguments::ArgumentToken;
use crate::forms::front_length;
use crate::macros::Form;
use ssr_syntax_kinds::SyntaxKind;

/// How many tokens the first argument takes, with the comma behind it.
fn first_length(arguments: &[ArgumentToken]) -> usize
    ensures value { result ≡ first_length arguments.now }
    ensures within { result ≤ length arguments.now }
{
    let front = front_length(SyntaxKind::COMMA, arguments);
    if front < arguments.len() {
        front + 1
    } else {
        front
    }
}

/// How many tokens stand in front of the argument behind so many others; all, where there are fewer.
fn argument_place(before: usize, arguments: &[ArgumentToken]) -> usize
    ensures within { result ≤ length arguments.now }
    ensures place { take result arguments.now ++ without_string 0 (drop result arguments.now) ≡ without_string before arguments.now }
{
    let mut place = 0;
    for _ in 0..before {
        place += first_length(&arguments[place..]);
    }
    place
}

/// How many tokens the first argument takes, with the comma behind it, where it is one string; else none.
fn lone_string_length(arguments: &[ArgumentToken]) -> usize
    ensures value { result ≡ lone_string_length arguments.now }
    ensures within { result ≤ length arguments.now }
{
    match arguments {
        [string] => {
            if string.kind.is(SyntaxKind::STRING) {
                1
            } else {
                0
            }
        }
        [string, comma, ..] => {
            if string.kind.is(SyntaxKind::STRING) && comma.kind.is(SyntaxKind::COMMA) {
                2
            } else {
                0
            }
        }
        [] => 0,
    }
}

/// The arguments without the one behind so many others, where that is one string.
fn without_string(before: usize, arguments: Vec<ArgumentToken>) -> Vec<ArgumentToken>
    ensures { result.items ≡ without_string before arguments.items }
{
    let mut left = arguments;
    let place = argument_place(before, &left);
    for _ in 0..lone_string_length(&left[place..]) {
        left.remove(place);
    }
    left
}

/// The arguments that are searched: a format string isn't.
pub(crate) fn searched(form: Form, arguments: Vec<ArgumentToken>) -> Vec<ArgumentToken>
    ensures { result.items ≡ searched form arguments.items }
{
    match form {
        Form::Formatted(before) => without_string(before, arguments),
        Form::Values | Form::Elements | Form::Matched => arguments,
    }
}
