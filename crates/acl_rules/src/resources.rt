//! What each rule is about, found by table.

ghost use Rattle.std.specs.Prelude.{◌≡◌, ◌++◌, [], ◌∷◌, ℕ, List, None, Some, IfOk, OnOk, MatchOption, cond, bytes_eq, slice_get};
ghost use Rattle.acl_rules.specs.Chain.{is_on, is_of, of_document};
ghost use Rattle.acl_rules.specs.Places.{places_of, places_in};

use crate::resource::{Part, Resource, is_of};
use std::alloc::{AllocError, Global};
use std::collections::BTreeMap;
use std::marker::Model;

/// The places of rules by the table that they are about.
type PlacesByTable = BTreeMap<String, Vec<usize>>;

/// What each rule of a book is about, in the order of the rules, with the places of those that
/// are about a table, and of those that are about the document.
#[derive(Drop)]
pub(crate) struct Resources {
    list: Vec<Option<Resource>>,
    by_table: PlacesByTable,
    on_document: Vec<usize>,
}

impl Model for Resources {
    ghost use Rattle.std.specs.Prelude.{◌≡◌, List, ℕ, Option};
    ghost use Rattle.acl_rules.specs.declared.resource.Resource.{Resource};
    ghost use Rattle.acl_rules.specs.Chain.{is_on, is_of, of_document};
    ghost use Rattle.acl_rules.specs.Places.{places_of, places_in};

    ghost Value = { List (Option Resource) };

    ghost view = { λ r. r.list.items };

    ghost invariant = { λ r.
        ((table : List ℕ) → places_in r.by_table table ≡ places_of (is_on table) r.list.items)
        × (r.on_document.items ≡ places_of (is_of of_document) r.list.items) };
}

impl Resources {
    pub fn new(alloc: Global, list: Vec<Option<Resource>>) -> Result<Self, AllocError>
        ensures { IfOk result (λ r. r ≡ list.items) }
    {
        let by_table = table_places(alloc, list.as_slice())?;
        let on_document = document_places(alloc, list.as_slice())?;
        Ok(Resources {
            list,
            by_table,
            on_document,
        })
    }

    pub fn as_slice(&self) -> &[Option<Resource>]
        ensures { result.now ≡ self.now }
    {
        self.list.as_slice()
    }

    /// Where the rules stand that are about the table or columns of it.
    ///
    /// Memory: none. Cost: the logarithm of the tables that have rules.
    pub fn places_on(&self, table: &str) -> &[usize]
        ensures { result.now ≡ places_of (is_on table.now) self.now }
    {
        places_among(&self.by_table, table)
    }

    /// Where the rules stand that are about the document.
    ///
    /// Memory: none.
    pub fn places_on_document(&self) -> &[usize]
        ensures { result.now ≡ places_of (is_of of_document) self.now }
    {
        self.on_document.as_slice()
    }
}

// The places that are noted for a table.
fn places_among<'a>(places: &'a PlacesByTable, table: &str) -> &'a [usize]
    ensures { result.now ≡ places_in places.now table.now }
{
    match places.get(table) {
        Some(places) => places.as_slice(),
        None => &[],
    }
}

// Notes a place behind those of the table.
fn note_place(
    alloc: Global,
    places: &mut PlacesByTable,
    table: &str,
    place: usize,
) -> Result<(), AllocError>
    ensures { OnOk result ((other : List ℕ) → places_in places.new other
        ≡ cond (bytes_eq table.now other)
        (places_in places.old other ++ place ∷ []) (places_in places.old other)) }
{
    if let Some(noted) = places.get_mut(table) {
        noted.push(place)?;
        return Ok(());
    }
    let mut noted = Vec::new(alloc);
    noted.push(place)?;
    let key = String::from_str(alloc, table)?;
    places.insert(key, noted)?;
    Ok(())
}

fn note_resource(
    alloc: Global,
    places: &mut PlacesByTable,
    resource: &Option<Resource>,
    place: usize,
) -> Result<(), AllocError>
    ensures { OnOk result ((table : List ℕ) → places_in places.new table
        ≡ cond (is_on table resource.now)
        (places_in places.old table ++ place ∷ []) (places_in places.old table)) }
{
    match resource {
        Some(Resource::Table(table, _)) => note_place(alloc, places, table.as_str(), place),
        _ => Ok(()),
    }
}

fn note_document(
    places: &mut Vec<usize>,
    resource: &Option<Resource>,
    place: usize,
) -> Result<(), AllocError>
    ensures { OnOk result (places.new.items ≡ cond (is_of of_document resource.now)
        (places.old.items ++ place ∷ []) places.old.items) }
{
    if is_of(Part::Document, resource) {
        places.push(place)?;
    }
    Ok(())
}

fn table_places(alloc: Global, resources: &[Option<Resource>]) -> Result<PlacesByTable, AllocError>
    ensures { IfOk result (λ places. (table : List ℕ) →
        places_in places table ≡ places_of (is_on table) resources.now) }
{
    let mut places = BTreeMap::new(alloc);
    for (place, resource) in resources.iter().enumerate() {
        note_resource(alloc, &mut places, resource, place)?;
    }
    Ok(places)
}

fn document_places(alloc: Global, resources: &[Option<Resource>]) -> Result<Vec<usize>, AllocError>
    ensures { IfOk result (λ places.
        places.items ≡ places_of (is_of of_document) resources.now) }
{
    let mut places = Vec::new(alloc);
    for (place, resource) in resources.iter().enumerate() {
        note_document(&mut places, resource, place)?;
    }
    Ok(places)
}
