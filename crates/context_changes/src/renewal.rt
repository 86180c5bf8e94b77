//! What is known of the rules after a bundle: the same, the same with users looked up anew, or all
//! made anew.

ghost use Rattle.std.specs.Prelude.{◌≡◌, ◌↔◌, IfOk, IsTrue};
ghost use Rattle.doc_model.specs.Document.{Document};
ghost use Rattle.user_attrs.specs.Attributes.{attributes_of};
ghost use Rattle.rule_contexts.specs.Context.{context};
ghost use Rattle.context_changes.specs.Known.{AreKnown, found_context};
ghost use Rattle.context_changes.specs.Renewal.{AreAllSame, IsRenewal, users_now, with_user_at, with_users_now};

use crate::known::{FoundContext, KnownContexts};
use acl_formula::UserInfo;
use acl_rules::Ctx;
use agreeing_contexts::{UserField, are_same_in};
use doc_model::{DocTables, User};
use evaluated_doc::Doc;
use rule_contexts::context_with;
use std::alloc::{AllocError, Global};
use user_attrs::{AttributeRule, user_info};

/// What a bundle changed of what is known of the rules.
#[derive(Drop)]
pub enum Renewal {
    /// Nothing.
    Same,
    /// What the rules know of the users, in the order of the contexts.
    Users(Vec<UserInfo>),
    /// The rules.
    All(KnownContexts),
}

// What rules that say these attributes know of the users of these contexts.
fn users_now<D: DocTables>(
    alloc: Global,
    doc: &Doc<D>,
    attributes: &[AttributeRule],
    contexts: &[Ctx],
) -> Result<Vec<UserInfo>, AllocError>
    requires { attributes.now ≡ attributes_of (D.document doc.now) }
    ensures { IfOk result (λ l. l.items ≡ users_now (D.document doc.now) contexts.now) }
{
    let mut users = Vec::with_capacity(alloc, contexts.len())?;
    for ctx in contexts {
        users.push(user_info(alloc, attributes, &ctx.user.user, doc)?)?;
    }
    Ok(users)
}

// Whether rules that ask for these fields get the same now of the user of each context.
fn are_all_same(fields: &[UserField], contexts: &[Ctx], users: &[UserInfo]) -> bool
    ensures { IsTrue result ↔ AreAllSame fields.now contexts.now users.now }
{
    for (ctx, user) in contexts.iter().zip(users) {
        if !are_same_in(fields, &ctx.user, user) {
            return false;
        }
    }
    true
}

// Puts a user in the place of the one of the context at a place, where there is one.
fn put_user(contexts: &mut [Ctx], place: usize, user: UserInfo)
    ensures { contexts.new ≡ with_user_at contexts.old place user }
{
    if place < contexts.len() {
        contexts[place].user = user;
    }
}

// Puts these in the place of the users of contexts, the last one first.
fn put_users(contexts: &mut [Ctx], users: Vec<UserInfo>)
    ensures { contexts.new ≡ with_users_now contexts.old users.items }
{
    let mut users = users;
    while let Some(user) = users.pop() {
        put_user(contexts, users.len(), user);
    }
}

impl KnownContexts {
    /// What the rules know now of the users who have a context, in their order, where the rules are
    /// the same.
    ///
    /// Errors: out of memory. Cost: for each of these users that of `user_info`.
    pub fn users_now<D: DocTables>(
        &self,
        alloc: Global,
        doc: &Doc<D>,
    ) -> Result<Vec<UserInfo>, AllocError>
        requires { self.now.attributes ≡ attributes_of (D.document doc.now) }
        ensures { IfOk result (λ l. l.items
            ≡ users_now (D.document doc.now) self.now.contexts.items) }
    {
        users_now(
            alloc,
            doc,
            self.attributes.as_slice(),
            self.contexts.as_slice(),
        )
    }

    /// Whether what the rules mention is the same of each of these users as it was.
    ///
    /// Memory: none. Cost: the fields that the rules mention, for each user.
    pub fn agrees_with(&self, users: &[UserInfo]) -> bool
        ensures { IsTrue result
            ↔ AreAllSame self.now.fields self.now.contexts.items users.now }
    {
        are_all_same(self.fields.as_slice(), self.contexts.as_slice(), users)
    }

    /// The user's context after a bundle: one that is kept, or one that is made.
    ///
    /// Errors: out of memory. Memory: none where it is kept.
    pub fn found_after<'a, D: DocTables>(
        &'a self,
        alloc: Global,
        doc: &Doc<D>,
        next: &'a Renewal,
        user: &User,
    ) -> Result<FoundContext<'a>, AllocError>
        requires { IsRenewal (D.document doc.now) self.now next.now }
        ensures { IfOk result (λ f. found_context f ≡ context user.now (D.document doc.now)) }
    {
        match next {
            Renewal::Same => self.found(alloc, doc, user),
            Renewal::All(next) => next.found(alloc, doc, user),
            Renewal::Users(_) => {
                let made = context_with(alloc, doc, self.attributes.as_slice(), user)?;
                Ok(FoundContext::Made(made))
            }
        }
    }

    /// Takes what is new.
    ///
    /// Memory: none.
    pub fn renew(&mut self, next: Renewal)
        ensures { (s : Document) → IsRenewal s self.old next → AreKnown s self.new }
    {
        match next {
            Renewal::Same => {}
            Renewal::Users(users) => put_users(self.contexts.as_mut_slice(), users),
            Renewal::All(next) => *self = next,
        }
    }
}
