//! The functions of formulas.

ghost use Rattle.std.specs.Prelude.{◌≡◌};
ghost use Rattle.formula_eval.specs.Function.{function_of};

/// A function of formulas.
#[derive(Clone, Copy)]
pub(crate) enum Function {
    If,
    IfError,
    Sum,
    Min,
    Max,
    Len,
    Abs,
    Str,
    Bool,
}

/// The function of that name.
#[tactic(auto, unfolding(crate::specs::Function::function_of))]
pub(crate) fn function_of(name: &str) -> Option<Function>
    ensures { result ≡ function_of name.now }
{
    match name {
        "IF" => Some(Function::If),
        "IFERROR" => Some(Function::IfError),
        "SUM" => Some(Function::Sum),
        "MIN" => Some(Function::Min),
        "MAX" => Some(Function::Max),
        "len" => Some(Function::Len),
        "abs" => Some(Function::Abs),
        "str" => Some(Function::Str),
        "bool" => Some(Function::Bool),
        _ => None,
    }
}
