//! What a text that is no whole file is read as.

/// What a text is read as.
#[derive(Debug, Clone, Copy, PartialEq, Eq)]
pub enum Fragment {
    /// An expression.
    Expr,
    /// A type.
    Ty,
    /// An item, as it stands in a file.
    Item,
    /// A pattern.
    Pat,
    /// A statement, whose `;` may lack.
    Stmt,
}
