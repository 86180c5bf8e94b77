//! The trees of formulas.

ghost use Rattle.std.specs.Prelude.{◌≡◌, ℕ, List, [], ◌∷◌, ◌++◌, Bool, true, IfOk, OnOk, OnErr, IsTrue, ◌↔◌};
ghost use Rattle.formula_parse.specs.Tree.{height_of, heights, from_list, key_heights, keys_from};
ghost use Rattle.formula_parse.specs.Standing.{level_of};
ghost use Rattle.formula_parse.specs.Seen.{tree_of, keys_of};

use crate::operator::{BinaryOp, Constant, LookupKind, PrefixOp};
use crate::rule::RuleAtom;
use cell_types::{CellText, Name};
use std::alloc::{AllocError, AllocFailed, Global};
use std::marker::Model;

/// A formula. Contracts see its tree.
#[cycle(formula)]
#[derive(Drop)]
pub struct Formula {
    node: Box<Node>,
    height: u16,
}

/// What a formula is, and what it is made of.
#[cycle(formula)]
#[derive(Drop)]
pub enum Node {
    /// Decimal digits.
    Number(u64),
    /// A string, with its escapes read.
    Text(CellText),
    /// `True`, `False`, `None` or `rec`.
    Constant(Constant),
    /// `$NAME`.
    Dollar(Name),
    /// Two formulas with an operator between them.
    Binary(BinaryOp, Formula, Formula),
    /// A formula with an operator in front of it.
    Prefix(PrefixOp, Formula),
    /// `VALUE if CONDITION else OTHER`, in this order.
    Conditional(Formula, Formula, Formula),
    /// `(FORMULA)`.
    Parentheses(Formula),
    /// `[ITEM, ITEM]`.
    List(ArgumentList),
    /// `FUNCTION(ARGUMENT, ARGUMENT)`.
    Call(Name, ArgumentList),
    /// `FORMULA.NAME`.
    Attribute(Formula, Name),
    /// `TABLE.all`.
    All(Name),
    /// `TABLE.lookupRecords(NAME=VALUE)` or `TABLE.lookupOne(NAME=VALUE)`.
    Lookup(LookupKind, Name, LookupKeyList),
    /// What only rule formulas ask for.
    Rule(RuleAtom),
}

/// Formulas in order: the items of a list, or the arguments of a call.
#[cycle(formula)]
#[derive(Drop)]
pub struct ArgumentList {
    items: Vec<Formula>,
}

/// A key of a lookup: the name of a column, and the value that is looked up.
#[cycle(formula)]
#[derive(Drop)]
pub struct LookupKey {
    pub name: Name,
    pub value: Formula,
}

/// The keys of a lookup in order. Contracts see pairs of a name and a tree.
#[cycle(formula)]
#[derive(Drop)]
pub struct LookupKeyList {
    keys: Vec<LookupKey>,
}

impl Model for Formula {
    ghost use Rattle.std.specs.Prelude.{◌≡◌};
    ghost use Rattle.formula_parse.specs.Tree.{Tree, height_of};
    ghost use Rattle.formula_parse.specs.TreeSize.{tree_size};
    ghost use Rattle.formula_parse.specs.TreeCode.{coded_tree};

    ghost Value = { Tree };

    ghost coded = { coded_tree };

    ghost use Rattle.formula_parse.specs.Seen.{tree_of};

    ghost view = { λ f. tree_of f.node.value };

    ghost invariant = { λ f. f.height ≡ height_of (tree_of f.node.value) };

    ghost size = { tree_size };

    ghost use Rattle.std.proofs.Common.{arith};
    ghost use Rattle.formula_parse.specs.TreeFalls.{tree_falls};

    ghost size_decreases = { λ f h. omega (arith, tree_falls f.node.value) };
}

impl Model for ArgumentList {
    ghost use Rattle.std.specs.Prelude.{List};
    ghost use Rattle.formula_parse.specs.Tree.{Tree};
    ghost use Rattle.formula_parse.specs.TreeSize.{list_size};
    ghost use Rattle.formula_parse.specs.TreeCode.{coded_trees};

    ghost Value = { List Tree };

    ghost coded = { coded_trees };

    ghost view = { λ l. l.items.items };

    ghost size = { list_size };

    ghost use Rattle.std.proofs.Common.{arith};
    ghost use Rattle.formula_parse.specs.TreeFalls.{most_le-list_size};

    ghost size_decreases = { λ l h. omega (arith, most_le-list_size l.items.items) };
}

impl Model for LookupKeyList {
    ghost use Rattle.std.specs.Prelude.{List, ℕ};
    ghost use Rattle.formula_parse.specs.Tree.{Tree};
    ghost use Rattle.formula_parse.specs.TreeSize.{key_list_size};
    ghost use Rattle.formula_parse.specs.TreeCode.{coded_keys};

    ghost Value = { List (List ℕ × Tree) };

    ghost coded = { coded_keys };

    ghost use Rattle.formula_parse.specs.Seen.{keys_of};

    ghost view = { λ l. keys_of l.keys.items };

    ghost size = { key_list_size };

    ghost use Rattle.std.proofs.Common.{arith};
    ghost use Rattle.formula_parse.specs.TreeFalls.{keys_fall};

    ghost size_decreases = { λ l h. omega (arith, keys_fall l.keys.items) };
}

/// How many constructs stand within one another at most.
pub const MAX_HEIGHT: u16 = 256;

impl Formula {
    // The tree with this at its root, which has that height.
    pub(crate) fn of(alloc: Global, node: Node, height: u16) -> Result<Self, AllocError>
        requires { height ≡ height_of (tree_of node) }
        ensures { IfOk result (λ f. f ≡ tree_of node) }
    {
        let node = Box::new(alloc, node)?;
        Ok(Formula { node, height })
    }

    /// What the formula is, and what it is made of.
    pub fn node(&self) -> &Node
        ensures { tree_of result.now ≡ self.now }
    {
        &self.node
    }

    /// How many constructs stand within one another.
    pub fn height(&self) -> u16
        ensures { result ≡ height_of self.now }
    {
        self.height
    }

    // The level at which the grammar has it.
    pub(crate) fn level(&self) -> u8
        ensures { result ≡ level_of self.now }
    {
        match self.node() {
            Node::Binary(op, _, _) => op.level(),
            Node::Prefix(op, _) => op.level(),
            Node::Conditional(_, _, _) => 0,
            _ => 8,
        }
    }
}

impl ArgumentList {
    /// The list of no formulas.
    ///
    /// Memory: none.
    pub fn new(alloc: Global) -> Self
        ensures { result ≡ [] }
    {
        let items = Vec::new(alloc);
        ArgumentList { items }
    }

    // The list with one more at its end.
    pub(crate) fn with(self, formula: Formula) -> Result<Self, AllocError>
        ensures { IfOk result (λ made. made ≡ self ++ formula ∷ []) }
    {
        let mut items = self.items;
        items.push(formula)?;
        Ok(ArgumentList { items })
    }

    /// Whether there are no formulas.
    pub fn is_empty(&self) -> bool
        ensures { IsTrue result ↔ (self.now ≡ []) }
    {
        self.items.is_empty()
    }

    /// The greatest height among the formulas, and 0 where there are none.
    pub fn height(&self) -> u16
        ensures { result ≡ heights (from_list self.now) }
    {
        let mut most = 0;
        for formula in &self.items {
            most = most.max(formula.height());
        }
        most
    }

    /// The formulas as a slice.
    pub fn as_slice(&self) -> &[Formula]
        ensures { result.now ≡ self.now }
    {
        &self.items
    }
}

impl LookupKeyList {
    /// The list of no keys.
    ///
    /// Memory: none.
    pub fn new(alloc: Global) -> Self
        ensures { result ≡ [] }
    {
        let keys = Vec::new(alloc);
        LookupKeyList { keys }
    }

    /// Adds a key at the end.
    ///
    /// Errors: out of memory; it hands the key back; the list is then as it was.
    pub fn push(&mut self, key: LookupKey) -> Result<(), AllocFailed<LookupKey>>
        ensures ok { OnOk result (self.new ≡ self.old ++ (key.name, key.value) ∷ []) }
        ensures err { OnErr result (self.new ≡ self.old) }
    {
        self.keys.push(key)
    }

    /// The greatest height among the values, and 0 where there are none.
    pub fn height(&self) -> u16
        ensures { result ≡ key_heights (keys_from self.now) }
    {
        let mut most = 0;
        for key in &self.keys {
            most = most.max(key.value.height());
        }
        most
    }

    /// The keys as a slice.
    pub fn as_slice(&self) -> &[LookupKey]
        ensures { keys_of result.now ≡ self.now }
    {
        &self.keys
    }
}
