//! Variables of a rule, as a user writes them.
ghost use Rattle.std.specs.Prelude.{◌++◌, Some, codes, string_bytes};

use std::fmt;

/// The name of a placeholder, without its `$`.
#[derive(Debug, PartialEq, Eq, Drop)]
pub struct Var(pub String);

impl fmt::Display for Var {
    ghost output = { λ var. Some (codes "$" ++ string_bytes var.0) };

    fn fmt<W: fmt::Write>(&self, f: &mut fmt::Formatter<W>) -> fmt::Result {
        let name = self.0.as_str();
        write!(f, "${name}")
    }
}
