//! Closing what binds closer than what comes: where trees are built.

ghost use Rattle.std.specs.Prelude.{◌≡◌, ℕ, ◌+◌, ◌≤◌, List, [], ◌∷◌, ◌++◌, Bool, true, Option, Some, None};
ghost use Rattle.formula_parse.specs.Tree.{Tree, height_of};
ghost use Rattle.formula_parse.specs.Seen.{tree_of};
ghost use Rattle.formula_parse.specs.Machine.{after, kept, is_last, filled, reduce, infix_step, else_step, prefix_step};
ghost use Rattle.formula_parse.specs.Operands.{if_step};
ghost use Rattle.formula_lex.specs.Lexed.{Gives};
ghost use Rattle.formula_parse.specs.declared.frame.Frame.{Frame};
ghost use Rattle.formula_parse.specs.declared.frame.Mode.TheVariants as modes;
ghost use Rattle.formula_parse.specs.declared.operator.Dialect.TheVariants as dialects;

use crate::fault::refused;
use crate::frame::{Frame, Mode, Stack};
use crate::operator::{BinaryOp, Dialect, PrefixOp};
use crate::tree::{Formula, MAX_HEIGHT, Node};
use formula_lex::Stop;
use std::alloc::Global;

/// The formula with this at its root, where it is not too high.
pub(crate) fn kept(alloc: Global, node: Node, below: u16) -> Result<Formula, Stop>
    requires { height_of (tree_of node) ≡ below + 1 }
    ensures { Gives (λ f. f) result (kept (tree_of node)) }
{
    if below >= MAX_HEIGHT {
        drop(node);
        return Err(Stop::Bad);
    }
    Ok(Formula::of(alloc, node, below + 1)?)
}

/// The formula with this at its root, where it is not too high; an operator may come behind it.
pub(crate) fn operand_of(alloc: Global, node: Node, below: u16) -> Result<Mode, Stop>
    requires { height_of (tree_of node) ≡ below + 1 }
    ensures { (fs : List Frame) → Gives (λ m. (fs, m)) result (after fs (tree_of node)) }
{
    Ok(Mode::Operator(kept(alloc, node, below)?))
}

// The frame with the formula in it.
fn filled(alloc: Global, frame: Frame, tree: Formula) -> Result<Formula, Stop>
    requires { is_last frame ≡ true }
    ensures { Gives (λ f. f) result (kept (filled frame tree)) }
{
    match frame {
        Frame::Left(left, op) => {
            let below = left.height().max(tree.height());
            kept(alloc, Node::Binary(op, left, tree), below)
        }
        Frame::Prefix(op) => {
            let below = tree.height();
            kept(alloc, Node::Prefix(op, tree), below)
        }
        Frame::Otherwise(value, condition) => {
            let below = value.height().max(condition.height().max(tree.height()));
            kept(alloc, Node::Conditional(value, condition, tree), below)
        }
        _ => unreachable!(),
    }
}

/// Closes each frame that ends with its formula and whose level is from `level` on.
pub(crate) fn reduce(
    alloc: Global,
    level: u8,
    frames: &mut Stack,
    tree: Formula,
) -> Result<Formula, Stop>
    ensures { Gives (λ t. (frames.new, t)) result (reduce level frames.old tree) }
{
    let mut tree = tree;
    while let Some(frame) = frames.take_closing(level) {
        tree = filled(alloc, frame, tree)?;
    }
    Ok(tree)
}

/// Opens what is left of an operator, once what binds closer is closed.
pub(crate) fn open_left(
    alloc: Global,
    dialect: Dialect,
    op: BinaryOp,
    frames: &mut Stack,
    tree: Formula,
) -> Result<(), Stop>
    ensures { Gives (λ _. (frames.new, modes.Operand)) result
        (infix_step dialect op frames.old tree) }
{
    let left = reduce(alloc, op.level() + 1, frames, tree)?;
    if dialect.has(op) && frames.room() <= op.level() && op.left() <= left.level() {
        return Ok(frames.push(Frame::Left(left, op))?);
    }
    Err(Stop::Bad)
}

/// An operator between operands behind a formula.
pub(crate) fn infix(
    alloc: Global,
    dialect: Dialect,
    op: BinaryOp,
    frames: &mut Stack,
    tree: Formula,
) -> Result<Mode, Stop>
    ensures { Gives (λ m. (frames.new, m)) result (infix_step dialect op frames.old tree) }
{
    open_left(alloc, dialect, op, frames, tree)?;
    Ok(Mode::Operand)
}

/// An operator in front of an operand.
pub(crate) fn open_prefix(op: PrefixOp, frames: &mut Stack) -> Result<Mode, Stop>
    ensures { Gives (λ m. (frames.new, m)) result (prefix_step op frames.old) }
{
    if frames.room() <= op.level() {
        return frames.open(Frame::Prefix(op));
    }
    Err(Stop::Bad)
}

/// `if` behind a formula.
pub(crate) fn open_condition(alloc: Global, frames: &mut Stack, tree: Formula) -> Result<Mode, Stop>
    ensures { Gives (λ m. (frames.new, m)) result (if_step dialects.Formula frames.old tree) }
{
    let value = reduce(alloc, 1, frames, tree)?;
    if frames.room() == 0 && 1 <= value.level() {
        return frames.open(Frame::Condition(value));
    }
    Err(Stop::Bad)
}

/// `else` behind a formula that nothing else closes.
pub(crate) fn open_otherwise(frames: &mut Stack, tree: Formula) -> Result<Mode, Stop>
    ensures { Gives (λ m. (frames.new, m)) result (else_step frames.old tree) }
{
    match frames.pop() {
        Some(Frame::Condition(value)) => {
            if 1 <= tree.level() {
                return frames.open(Frame::Otherwise(value, tree));
            }
            Err(Stop::Bad)
        }
        other => refused((other, tree)),
    }
}
