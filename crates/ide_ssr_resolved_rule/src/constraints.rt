//! The constraints of a placeholder, and which nodes meet them.
ghost use Rattle.std.specs.Prelude.{◌≡◌, IfOk, not};
ghost use Rattle.ssr_syntax_kinds.specs.declared.kinds.SyntaxKind.{SyntaxKind as Kind};
ghost use Rattle.ide_ssr_resolved_rule.specs.Constraints.{contrary, holds_at, are_met};

use ssr_syntax_kinds::SyntaxKind;
use std::alloc::{AllocError, Global};
use std::marker::Model;

/// What a placeholder asks of the node that it stands for. A `not` turns one into the other.
#[derive(Clone, Copy)]
pub enum Constraint {
    /// The node is a literal.
    Literal,
    /// The node is no literal.
    NoLiteral,
}

impl Constraint {
    /// What holds where the constraint doesn't.
    pub fn contrary(self) -> Constraint
        ensures value { result ≡ contrary self }
        ensures opposite { (kind : Kind) → holds_at kind result ≡ not (holds_at kind self) }
    {
        match self {
            Constraint::Literal => Constraint::NoLiteral,
            Constraint::NoLiteral => Constraint::Literal,
        }
    }

    /// Whether the constraint holds at a node of a kind.
    fn holds_at(self, kind: SyntaxKind) -> bool
        ensures { result ≡ holds_at kind self }
    {
        match self {
            Constraint::Literal => kind.is(SyntaxKind::LITERAL),
            Constraint::NoLiteral => !kind.is(SyntaxKind::LITERAL),
        }
    }
}

/// The constraints of a placeholder, in the order in which they are written.
#[derive(Drop)]
pub struct ConstraintSet(Vec<Constraint>);

impl Model for ConstraintSet {
    ghost use Rattle.std.specs.Prelude.{List};
    ghost use Rattle.ide_ssr_resolved_rule.specs.declared.constraints.Constraint.{Constraint as One};

    ghost Value = { List One };

    ghost view = { λ set. set.0.items };
}

impl ConstraintSet {
    /// The set of these constraints.
    pub fn of(alloc: Global, constraints: &[Constraint]) -> Result<ConstraintSet, AllocError>
        ensures { IfOk result (λ set. set ≡ constraints.now) }
    {
        Ok(ConstraintSet(Vec::from_slice(alloc, constraints)?))
    }

    /// The constraints of the set, once more.
    pub fn copied(&self, alloc: Global) -> Result<ConstraintSet, AllocError>
        ensures { IfOk result (λ set. set ≡ self.now) }
    {
        ConstraintSet::of(alloc, self.0.as_slice())
    }

    /// Whether a node of a kind meets all constraints of the set.
    pub fn are_met(&self, kind: SyntaxKind) -> bool
        ensures { result ≡ are_met self.now kind }
    {
        self.0.iter().all(|constraint| constraint.holds_at(kind))
    }
}
