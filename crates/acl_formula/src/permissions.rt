//! Permissions, and the texts that say which are allowed and denied.

ghost use Rattle.std.specs.Prelude.{◌≡◌, ℕ, Option, Some, None, option_map};
ghost use Rattle.acl_formula.specs.Permissions.{has_perm, with_perm, perm_of, with_letter, letter, sign, stepped, ended, said_from, are_apart, permissions_of, no_flags, all_flags, says_nothing};
ghost use Rattle.acl_formula.specs.declared.permissions.Place.TheVariants as place;

/// What may be done: create, read, update and delete rows, and change the schema.
#[derive(Clone, Copy, Debug, PartialEq, Eq)]
pub enum Perm {
    C,
    R,
    U,
    D,
    S,
}

/// Which permissions are in a set.
#[derive(Clone, Copy, Debug)]
pub struct PermFlags {
    pub create: bool,
    pub read: bool,
    pub update: bool,
    pub delete: bool,
    pub schema: bool,
}

/// What a permission text says: which permissions it allows, and which it denies.
#[derive(Clone, Copy, Debug)]
pub struct PermSet {
    pub allowed: PermFlags,
    pub denied: PermFlags,
}

// Where a permission text stands.
#[derive(Clone, Copy)]
pub(crate) enum Place {
    Start,
    BehindSign(bool),
    BehindLetter(bool),
}

impl PermFlags {
    /// Whether the permission is in the set.
    pub fn has(&self, perm: Perm) -> bool
        ensures { result ≡ has_perm perm self.now }
    {
        match perm {
            Perm::C => self.create,
            Perm::R => self.read,
            Perm::U => self.update,
            Perm::D => self.delete,
            Perm::S => self.schema,
        }
    }

    fn with(self, perm: Perm) -> Self
        ensures { result ≡ with_perm perm self }
    {
        let mut flags = self;
        match perm {
            Perm::C => flags.create = true,
            Perm::R => flags.read = true,
            Perm::U => flags.update = true,
            Perm::D => flags.delete = true,
            Perm::S => flags.schema = true,
        }
        flags
    }
}

const NONE: PermFlags = PermFlags {
    create: false,
    read: false,
    update: false,
    delete: false,
    schema: false,
};

const ALL: PermFlags = PermFlags {
    create: true,
    read: true,
    update: true,
    delete: true,
    schema: true,
};

fn perm_of(letter: u8) -> Option<Perm>
    ensures { result ≡ perm_of letter }
{
    match letter {
        b'C' => Some(Perm::C),
        b'R' => Some(Perm::R),
        b'U' => Some(Perm::U),
        b'D' => Some(Perm::D),
        b'S' => Some(Perm::S),
        _ => None,
    }
}

fn with_letter(plus: bool, perm: Perm, said: PermSet) -> PermSet
    ensures { result ≡ with_letter plus perm said }
{
    if plus {
        PermSet {
            allowed: said.allowed.with(perm),
            denied: said.denied,
        }
    } else {
        PermSet {
            allowed: said.allowed,
            denied: said.denied.with(perm),
        }
    }
}

fn letter(place: Place, perm: Option<Perm>, said: PermSet) -> Option<(Place, PermSet)>
    ensures { result ≡ letter place perm said }
{
    let Some(perm) = perm else {
        return None;
    };
    match place {
        Place::Start => None,
        Place::BehindSign(plus) => Some((Place::BehindLetter(plus), with_letter(plus, perm, said))),
        Place::BehindLetter(plus) => Some((
            Place::BehindLetter(plus),
            with_letter(plus, perm, said),
        )),
    }
}

fn sign(plus: bool, place: Place, said: PermSet) -> Option<(Place, PermSet)>
    ensures { result ≡ sign plus place said }
{
    match place {
        Place::BehindSign(_) => None,
        _ => Some((Place::BehindSign(plus), said)),
    }
}

fn stepped(c: u8, place: Place, said: PermSet) -> Option<(Place, PermSet)>
    ensures { result ≡ stepped c place said }
{
    match c {
        b'+' => sign(true, place, said),
        b'-' => sign(false, place, said),
        _ => letter(place, perm_of(c), said),
    }
}

fn ended(place: Place, said: PermSet) -> Option<PermSet>
    ensures { result ≡ ended place said }
{
    match place {
        Place::BehindLetter(_) => Some(said),
        _ => None,
    }
}

fn said_in(text: &str) -> Option<PermSet>
    ensures { result ≡ said_from place.Start says_nothing text.now }
{
    let mut place = Place::Start;
    let mut said = PermSet {
        allowed: NONE,
        denied: NONE,
    };
    for c in text.as_bytes() {
        match stepped(*c, place, said) {
            Some((next, more)) => {
                place = next;
                said = more;
            }
            None => return None,
        }
    }
    ended(place, said)
}

fn are_apart(said: &PermSet) -> bool
    ensures { result ≡ are_apart said.now }
{
    !(said.allowed.create && said.denied.create)
        && !(said.allowed.read && said.denied.read)
        && !(said.allowed.update && said.denied.update)
        && !(said.allowed.delete && said.denied.delete)
        && !(said.allowed.schema && said.denied.schema)
}

/// Reads a permission text.
///
/// Memory: none.
#[tactic(auto, unfolding(crate::specs::Permissions::permissions_of))]
pub fn read_permissions(text: &str) -> Option<PermSet>
    ensures { result ≡ permissions_of text.now }
{
    match text {
        "" => Some(PermSet {
            allowed: NONE,
            denied: NONE,
        }),
        "all" => Some(PermSet {
            allowed: ALL,
            denied: NONE,
        }),
        "none" => Some(PermSet {
            allowed: NONE,
            denied: ALL,
        }),
        _ => match said_in(text) {
            Some(said) if are_apart(&said) => Some(said),
            _ => None,
        },
    }
}
