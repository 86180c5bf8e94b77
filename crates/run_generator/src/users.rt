//! The two users of a generated run.
ghost use Rattle.std.specs.Prelude.{◌≡◌, ◌∷◌, [], Some, IfOk};
ghost use Rattle.run_generator.specs.Script.{users};

use cell_types::CellText;
use doc_model::{User, UserList};
use std::alloc::{AllocError, Global};

fn user(alloc: Global, token: &str, access: &str, email: &str, id: i64) -> Result<User, AllocError>
    ensures { IfOk result (λ u. u ≡ record {
      token = token.now;
      access = Some access.now;
      email = email.now;
      name = token.now;
      id = id;
    }) }
{
    Ok(User {
        token: CellText::copy_of(alloc, token)?,
        access: Some(CellText::copy_of(alloc, access)?),
        email: CellText::copy_of(alloc, email)?,
        name: CellText::copy_of(alloc, token)?,
        id,
    })
}

/// An owner and an editor.
pub fn generated_users(alloc: Global) -> Result<UserList, AllocError>
    ensures { IfOk result (λ us. us ≡ users) }
{
    let mut users = UserList::new(alloc);
    users.push(user(alloc, "g1", "owners", "g1@x.org", 1)?)?;
    users.push(user(alloc, "g2", "editors", "g2@x.org", 2)?)?;
    Ok(users)
}
