//! What the parser is asked for.

/// What is to be read: a nonterminal of the grammar, whose production is its form.
#[derive(Clone, Copy)]
pub enum Goal {
    /// A whole file.
    File,
    /// Any expression.
    Expr(ExprPlace),
    /// An expression that may be LET_EXPR, or have it below `&&`.
    Condition(ExprPlace),
    /// An expression whose operators between operands, outside brackets, are of so many ranks, the tightest.
    Operand(ExprPlace, Rank),
    /// An expression without a cast or an operator between operands, outside brackets.
    Unary(ExprPlace),
    /// Any type.
    Ty,
    /// A path as a type.
    PathType,
    /// Generic arguments in angle brackets.
    GenericArgs,
    /// `for` and lifetimes in angle brackets, which all of Rust has.
    ForBinder,
    /// Tokens in brackets.
    TokenTree,
    /// A pattern.
    Pat(PatPlace),
    /// Statements in braces.
    StmtList,
    /// A statement alone.
    Stmt,
    /// An arm of `match`.
    Arm,
    /// IF_EXPR.
    If,
    /// An item.
    Item(ItemPlace),
    /// What USE names.
    UseTree,
    /// The items that a macro call stands for.
    Items,
    /// The statements that a macro call stands for.
    Stmts,
}

/// Where an expression stands.
#[derive(Clone, Copy)]
pub enum ExprPlace {
    Anywhere,
    /// A brace behind it opens a block: outside brackets it holds no RECORD_EXPR, RETURN_EXPR, BREAK_EXPR or CLOSURE_EXPR,
    /// and no range whose right operand begins with a brace.
    BeforeBlock,
}

/// Where a path stands: what its generic arguments look like hangs on it.
#[derive(Clone, Copy)]
pub enum PathPlace {
    InExpr,
    InType,
    /// In USE, in a VISIBILITY, and as the name of a macro: it has none.
    NamesAlone,
}

/// Where a pattern stands.
#[derive(Clone, Copy)]
pub enum PatPlace {
    TopLevel,
    /// It is no OR_PAT.
    NoBar,
    /// It is neither OR_PAT nor RANGE_PAT.
    BehindAmp,
}

/// Where a statement, or what is read like one, stands: how it ends hangs on it.
#[derive(Clone, Copy)]
pub enum StmtPlace {
    /// In a list of statements.
    BlockStmt,
    /// Alone: its `;` may lack.
    LoneStmt,
    /// The expression is the body of a MATCH_ARM.
    ArmBody,
    /// In the statements that a macro call stands for, which no braces close.
    MacroStmt,
}

/// Where an item stands.
#[derive(Clone, Copy)]
pub enum ItemPlace {
    /// In a file or a MODULE.
    InModule,
    /// Among statements, where a MACRO_CALL is no item.
    AsStmt,
    InImpl,
    InTrait,
    /// In an EXTERN_BLOCK, which all of Rust has.
    InExtern,
}

/// How tightly an operator binds, its precedence or binding power: 0 is the tightest.
pub type Rank = u8;
