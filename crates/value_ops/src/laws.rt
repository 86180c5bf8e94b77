//! A law over all operators.

ghost use Rattle.value_ops.specs.Raising.{RaisingLaw};

/// No operator gives an error as a value, and none raises the error of a circular cell.
pub fn raising_law()
    ensures { RaisingLaw }
{}
