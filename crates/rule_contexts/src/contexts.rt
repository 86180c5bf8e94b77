//! The rules of a document, with what they know of a user.

ghost use Rattle.std.specs.Prelude.{◌≡◌, IfOk};
ghost use Rattle.user_attrs.specs.Attributes.{attributes_of};
ghost use Rattle.rule_contexts.specs.Context.{context, context_over};

use acl_rules::{Ctx, load};
use doc_model::{DocReader, DocTables, User};
use evaluated_doc::Doc;
use std::alloc::{AllocError, Global};
use user_attrs::{AttributeRule, load_attributes, user_info};

/// The rules of a document, and what they know of a user by another one, which is to be the first
/// with its cells evaluated; these are the attributes that the rules say.
///
/// Errors: out of memory.
/// Memory: the rules, the user and a row for each attribute. Cost: sorting the rules, reading their
/// texts, and for each attribute a walk over the rows of its table.
pub fn context_over<B: DocReader, E: DocReader>(
    alloc: Global,
    base: &B,
    evaluated: &E,
    attributes: &[AttributeRule],
    user: &User,
) -> Result<Ctx, AllocError>
    requires { attributes.now ≡ attributes_of (B.document base.now) }
    ensures { IfOk result
        (λ x. x ≡ context_over user.now (B.document base.now) (E.document evaluated.now)) }
{
    let user = user_info(alloc, attributes, user, evaluated)?;
    match load(alloc, base) {
        Ok(book) => Ok(Ctx { book, user }),
        Err(error) => {
            drop(user);
            Err(error)
        }
    }
}

/// The rules of a document, and what they know of a user by its evaluated cells, where these are
/// the attributes that they say.
///
/// Errors, memory and cost: those of `context_over`.
pub fn context_with<D: DocTables>(
    alloc: Global,
    doc: &Doc<D>,
    attributes: &[AttributeRule],
    user: &User,
) -> Result<Ctx, AllocError>
    requires { attributes.now ≡ attributes_of (D.document doc.now) }
    ensures ok { IfOk result (λ x. x ≡ context user.now (D.document doc.now)) }
{
    context_over(alloc, doc.tables(), doc, attributes, user)
}

/// The rules of a document, and what they know of a user by its evaluated cells.
///
/// Errors: out of memory.
/// Memory and cost: those of `context_with`, and of reading the attributes.
pub fn context_of<D: DocTables>(alloc: Global, doc: &Doc<D>, user: &User) -> Result<Ctx, AllocError>
    ensures ok { IfOk result (λ x. x ≡ context user.now (D.document doc.now)) }
{
    let attributes = load_attributes(alloc, doc.tables())?;
    context_with(alloc, doc, attributes.as_slice(), user)
}
