//! Contexts of users that are kept while nothing changes what is in force for them.

ghost use Rattle.std.specs.Prelude.{◌≡◌, map, true, IfOk, IfSome, OnOk};
ghost use Rattle.doc_model.specs.declared.user.User.{User};
ghost use Rattle.doc_model.specs.Document.{Document};
ghost use Rattle.user_attrs.specs.Attributes.{attributes_of};
ghost use Rattle.rule_contexts.specs.Context.{context};
ghost use Rattle.context_changes.specs.Known.{AreKnown, IsPlaceOf, StandsAt, found_context, is_known, place_in, user_in};

use crate::users::same_user;
use acl_rules::Ctx;
use agreeing_contexts::{UserFieldList, load_fields};
use doc_model::{DocTables, User};
use evaluated_doc::Doc;
use rule_contexts::context_with;
use std::alloc::{AllocError, Global};
use user_attrs::{AttributeRule, AttributeRules, load_attributes};

/// What is known of the rules of a document: the attributes that they say, the fields of these that
/// they mention, and what is in force for some users.
#[derive(Drop)]
pub struct KnownContexts {
    pub attributes: AttributeRules,
    pub fields: UserFieldList,
    pub contexts: Vec<Ctx>,
}

/// The context of a user: one that is kept, or one that was made.
#[derive(Drop)]
pub enum FoundContext<'a> {
    Kept(&'a Ctx),
    Made(Ctx),
}

impl FoundContext<'_> {
    /// The context.
    pub fn context(&self) -> &Ctx
        ensures { result.now ≡ found_context self.now }
    {
        match self {
            FoundContext::Kept(ctx) => *ctx,
            FoundContext::Made(ctx) => ctx,
        }
    }
}

fn place_in(contexts: &[Ctx], user: &User) -> Option<usize>
    ensures { result ≡ place_in contexts.now user.now }
{
    contexts
        .iter()
        .position(|ctx| same_user(user, &ctx.user.user))
}

/// The first place where the context of the user stands.
///
/// Memory: none. Cost: the contexts before it.
pub fn known_place(contexts: &[Ctx], user: &User) -> Option<usize>
    ensures value { result ≡ place_in contexts.now user.now }
    ensures there { IfSome result (IsPlaceOf contexts.now user.now) }
{
    place_in(contexts, user)
}

// What is in force for the users of these contexts in the document now.
fn made_anew<D: DocTables>(
    alloc: Global,
    doc: &Doc<D>,
    attributes: &[AttributeRule],
    contexts: &[Ctx],
) -> Result<Vec<Ctx>, AllocError>
    requires { attributes.now ≡ attributes_of (D.document doc.now) }
    ensures { IfOk result (λ l. l.items
        ≡ map (λ x. context (user_in x) (D.document doc.now)) contexts.now) }
{
    let mut made = Vec::with_capacity(alloc, contexts.len())?;
    for ctx in contexts {
        made.push(context_with(alloc, doc, attributes, &ctx.user.user)?)?;
    }
    Ok(made)
}

impl KnownContexts {
    /// The attributes that the rules of the document say and what they mention, and no context yet.
    ///
    /// Errors: out of memory.
    pub fn load<D: DocTables>(alloc: Global, doc: &Doc<D>) -> Result<Self, AllocError>
        ensures { IfOk result (AreKnown (D.document doc.now)) }
    {
        let attributes = load_attributes(alloc, doc.tables())?;
        let fields = load_fields(alloc, doc.tables())?;
        Ok(KnownContexts {
            attributes,
            fields,
            contexts: Vec::new(alloc),
        })
    }

    /// What is known of the document now, with a context for each user who has one, in their order.
    ///
    /// Errors: out of memory. Cost: that of `context_with`, for each of these users.
    pub fn anew<D: DocTables>(&self, alloc: Global, doc: &Doc<D>) -> Result<Self, AllocError>
        ensures known { IfOk result (AreKnown (D.document doc.now)) }
        ensures contexts { IfOk result (λ k. k.contexts.items
            ≡ map (λ x. context (user_in x) (D.document doc.now)) self.now.contexts.items) }
    {
        let attributes = load_attributes(alloc, doc.tables())?;
        let fields = load_fields(alloc, doc.tables())?;
        let contexts = made_anew(alloc, doc, attributes.as_slice(), self.contexts.as_slice())?;
        Ok(KnownContexts {
            attributes,
            fields,
            contexts,
        })
    }

    /// Where the user's context stands; it is made where there is none yet.
    ///
    /// Errors: out of memory; what is known is then as it was.
    pub fn place_for<D: DocTables>(
        &mut self,
        alloc: Global,
        doc: &Doc<D>,
        user: &User,
    ) -> Result<usize, AllocError>
        requires { AreKnown (D.document doc.now) self.old }
        ensures known { AreKnown (D.document doc.now) self.new }
        ensures place { IfOk result (λ place. StandsAt self.new.contexts.items place
            (context user.now (D.document doc.now))) }
        ensures there { OnOk result (is_known self.new.contexts.items user.now ≡ true) }
        ensures keeps { OnOk result ((other : User) → is_known self.old.contexts.items other ≡ true
            → is_known self.new.contexts.items other ≡ true) }
    {
        if let Some(place) = known_place(self.contexts.as_slice(), user) {
            return Ok(place);
        }
        let ctx = context_with(alloc, doc, self.attributes.as_slice(), user)?;
        let place = self.contexts.len();
        self.contexts.push(ctx)?;
        Ok(place)
    }

    /// The user's context: the one that is kept, or one that is made where there is none.
    ///
    /// Errors: out of memory. Memory: none where it is kept.
    pub fn found<'a, D: DocTables>(
        &'a self,
        alloc: Global,
        doc: &Doc<D>,
        user: &User,
    ) -> Result<FoundContext<'a>, AllocError>
        requires { AreKnown (D.document doc.now) self.now }
        ensures { IfOk result (λ f. found_context f ≡ context user.now (D.document doc.now)) }
    {
        if let Some(place) = known_place(self.contexts.as_slice(), user) {
            return Ok(FoundContext::Kept(&self.contexts[place]));
        }
        let made = context_with(alloc, doc, self.attributes.as_slice(), user)?;
        Ok(FoundContext::Made(made))
    }

    /// Forgets the contexts where they are more than that many.
    pub fn keep_at_most(&mut self, most: usize)
        ensures { (s : Document) → AreKnown s self.old → AreKnown s self.new }
    {
        if self.contexts.len() > most {
            self.contexts.clear();
        }
    }
}
