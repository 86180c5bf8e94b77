//! The steps by which columns refer to a table under its new id.

ghost use Rattle.std.specs.Prelude.{◌≡◌, ◌++◌, map, IfOk};
ghost use Rattle.user_actions.specs.References.{info_to, led_to, type_to};

use crate::referrers::Referrer;
use cell_types::{ColType, Name};
use doc_model::{ColInfo, DocAction, Step, StepList};
use std::alloc::AllocError;

// A type of references to the table.
fn type_to(new: &Name, ty: &ColType) -> Result<ColType, AllocError>
    ensures { IfOk result (λ t. t ≡ type_to new.now ty.now) }
{
    match ty {
        ColType::Ref(_) => Ok(ColType::Ref(new.clone()?)),
        ColType::RefList(_) => Ok(ColType::RefList(new.clone()?)),
        _ => ty.clone(),
    }
}

fn info_to(new: &Name, info: &ColInfo) -> Result<ColInfo, AllocError>
    ensures { IfOk result (λ i. i ≡ info_to new.now info.now) }
{
    Ok(ColInfo {
        ty: type_to(new, &info.ty)?,
        is_formula: info.is_formula,
        formula: info.formula.clone()?,
    })
}

// The column refers to the table under its new id.
fn led_to(new: &Name, one: &Referrer) -> Result<Step, AllocError>
    ensures { IfOk result (λ s. s ≡ led_to new.now one.now) }
{
    let action = DocAction::ModifyColumn {
        table: one.table.clone()?,
        column: one.column.id.clone()?,
        info: info_to(new, &one.column.info)?,
    };
    Ok(Step {
        action,
        direct: false,
    })
}

/// Adds the steps by which columns refer to a table under its new id.
pub(crate) fn add_led(
    new: &Name,
    known: &[Referrer],
    steps: &mut StepList,
) -> Result<(), AllocError>
    ensures { IfOk result (λ _. steps.new ≡ steps.old ++ map (led_to new.now) known.now) }
{
    for one in known {
        steps.push(led_to(new, one)?)?;
    }
    Ok(())
}
