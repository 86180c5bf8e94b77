//! Operators and their levels, and what is a word of its own.
//!
//! | level | form                       | left | right |
//! |-------|----------------------------|------|-------|
//! | 0     | `a if c else b`            | 1    | 0     |
//! | 1     | `or`                       | 1    | 2     |
//! | 2     | `and`                      | 2    | 3     |
//! | 3     | `not`                      |      | 3     |
//! | 4     | comparisons                | 5    | 5     |
//! | 5     | `+` `-`                    | 5    | 6     |
//! | 6     | `*` `//` `%`               | 6    | 7     |
//! | 7     | `-` in front               |      | 7     |
//! | 8     | atoms and attributes       |      |       |

ghost use Rattle.std.specs.Prelude.{◌≡◌};
ghost use Rattle.formula_parse.specs.Grammar.{group_of, prefix_level};
ghost use Rattle.formula_parse.specs.Standing.{has_op};
ghost use Rattle.formula_parse.specs.Levels.{group_level, group_left, group_right};

/// Which formulas are read.
#[derive(Clone, Copy)]
pub enum Dialect {
    /// The formulas of columns.
    Formula,
    /// The formulas of access rules: no conditional, `//`, `$`, call, lookup or attribute, but what
    /// a rule asks of the user and of the row.
    Rule,
}

/// An operator between two operands.
#[derive(Clone, Copy, Debug)]
pub enum BinaryOp {
    Or,
    And,
    Equal,
    NotEqual,
    Less,
    AtMost,
    More,
    AtLeast,
    In,
    NotIn,
    Is,
    IsNot,
    Add,
    Subtract,
    Multiply,
    Divide,
    Remainder,
}

/// An operator in front of its operand.
#[derive(Clone, Copy, Debug)]
pub enum PrefixOp {
    Not,
    Negate,
}

/// A word that is a formula of its own.
#[derive(Clone, Copy, Debug)]
pub enum Constant {
    /// `True`
    True,
    /// `False`
    False,
    /// `None`
    None,
    /// `rec`
    Rec,
}

/// Which rows a lookup gives.
#[derive(Clone, Copy)]
pub enum LookupKind {
    /// `lookupRecords`: all rows that match.
    Records,
    /// `lookupOne`: the first row that matches.
    One,
}

impl BinaryOp {
    /// The level of a formula with this operator.
    pub(crate) fn level(self) -> u8
        ensures { result ≡ group_level (group_of self) }
    {
        match self {
            BinaryOp::Or => 1,
            BinaryOp::And => 2,
            BinaryOp::Add | BinaryOp::Subtract => 5,
            BinaryOp::Multiply | BinaryOp::Divide | BinaryOp::Remainder => 6,
            _ => 4,
        }
    }

    /// The least level of what stands at its left.
    pub(crate) fn left(self) -> u8
        ensures { result ≡ group_left (group_of self) }
    {
        match self {
            BinaryOp::Or => 1,
            BinaryOp::And => 2,
            BinaryOp::Multiply | BinaryOp::Divide | BinaryOp::Remainder => 6,
            _ => 5,
        }
    }

    /// The least level of what stands at its right.
    pub(crate) fn right(self) -> u8
        ensures { result ≡ group_right (group_of self) }
    {
        match self {
            BinaryOp::Or => 2,
            BinaryOp::And => 3,
            BinaryOp::Add | BinaryOp::Subtract => 6,
            BinaryOp::Multiply | BinaryOp::Divide | BinaryOp::Remainder => 7,
            _ => 5,
        }
    }
}

impl Dialect {
    /// Whether its formulas have the operator.
    pub(crate) fn has(self, op: BinaryOp) -> bool
        ensures { result ≡ has_op self op }
    {
        match self {
            Dialect::Formula => true,
            Dialect::Rule => !matches!(&op, BinaryOp::Divide),
        }
    }
}

impl PrefixOp {
    /// The level of a formula with this operator, and of what stands behind it.
    pub(crate) fn level(self) -> u8
        ensures { result ≡ prefix_level self }
    {
        match self {
            PrefixOp::Not => 3,
            PrefixOp::Negate => 7,
        }
    }
}
