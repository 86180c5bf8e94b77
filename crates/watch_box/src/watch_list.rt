//! A list of watchers, each with its number and its session.
ghost use Rattle.std.specs.Prelude.{◌≡◌, ◌<◌, ◌+◌, ◌++◌, [], ◌∷◌, ℕ, List, true, false, length, IfErr, OnOk, OnErr, if◌then◌else◌, option_map};
ghost use Rattle.std.specs.List.{find, position};
ghost use Rattle.io_edges.specs.Causes.{HasCause};
ghost use Rattle.watch_box.specs.Taking.{Takes, RefusesFrom};
ghost use Rattle.watch_box.specs.Watching.{WatcherState, Stays, IsDropped, Tells, TookLine, RefusedLine, has_number, line_for, without};

use crate::watcher::Watcher;
use cell_types::Name;
use std::alloc::Global;
use std::marker::Model;

/// A watcher of the lines of a session. It is seen as its number, its session, and what it tells.
#[derive(Drop)]
struct Watched<W: Watcher> {
    number: u32,
    session: Name,
    watcher: W,
}

impl<W: Watcher> Model for Watched<W> {
    ghost use Rattle.watch_box.specs.Watching.{WatcherState};

    ghost Value = { WatcherState };

    ghost view = { λ w. record {
      number = w.number;
      session = w.session;
      telling = record {
        taken = W.taken w.watcher;
        refused_from = W.refused_from w.watcher;
        faults = W.faults w.watcher;
      };
    } };
}

/// A watcher that was not attached, for want of memory.
#[derive(Drop)]
pub struct Unattached<W: Watcher> {
    pub watcher: W,
}

/// Watchers, in the order in which they came. They are seen as what each of them tells.
#[derive(Drop)]
pub struct WatchList<W: Watcher> {
    watched: Vec<Watched<W>>,
}

impl<W: Watcher> Model for WatchList<W> {
    ghost use Rattle.std.specs.Prelude.{List};
    ghost use Rattle.watch_box.specs.Watching.{WatcherState};

    ghost Value = { List WatcherState };

    ghost view = { λ l. l.watched.items };
}

fn place_of<W: Watcher>(watched: &[Watched<W>], number: u32) -> Option<usize>
    ensures { result ≡ position (has_number number) watched.now }
{
    watched.iter().position(|one| one.number == number)
}

// Gives a watcher the line, and says whether it took it.
fn takes<W: Watcher>(watched: &mut Watched<W>, line: &[u8]) -> bool
    ensures took { result ≡ true → TookLine line.now watched.old watched.new }
    ensures refused { result ≡ false → RefusedLine line.now watched.old }
{
    watched.watcher.take(line).is_ok()
}

impl<W: Watcher> WatchList<W> {
    /// A list of no watchers.
    ///
    /// Memory: none.
    pub fn new(alloc: Global) -> Self
        ensures { result ≡ [] }
    {
        WatchList {
            watched: Vec::new(alloc),
        }
    }

    /// Puts a watcher of that session behind the others.
    ///
    /// Errors: `Unattached`, for want of memory. The list is then as it was, and the watcher comes
    /// back.
    pub fn push(&mut self, number: u32, session: Name, watcher: W) -> Result<(), Unattached<W>>
        ensures ok { OnOk result (self.new ≡ self.old ++ record {
          number = number;
          session = session;
          telling = record {
            taken = W.taken watcher;
            refused_from = W.refused_from watcher;
            faults = W.faults watcher;
          };
        } ∷ []) }
        ensures err { OnErr result (self.new ≡ self.old) }
        ensures back { IfErr result (λ u. u.watcher ≡ watcher) }
    {
        if self.watched.reserve(1).is_err() {
            return Err(Unattached { watcher });
        }
        let watched = Watched {
            number,
            session,
            watcher,
        };
        match self.watched.push(watched) {
            Ok(()) => Ok(()),
            // There is room.
            Err(refused) => Err(Unattached {
                watcher: refused.value.watcher,
            }),
        }
    }

    /// How many watchers there are.
    pub fn len(&self) -> usize
        ensures { result ≡ length self.now }
    {
        self.watched.len()
    }

    /// The session of the watcher at that place.
    pub fn session_at(&self, place: usize) -> &Name
        requires { place < length self.now }
        ensures { (front back : List WatcherState) (w : WatcherState)
            → self.now ≡ front ++ w ∷ back → length front ≡ place → result.now ≡ w.session }
    {
        &self.watched[place].session
    }

    /// Gives a line to the watcher at that place, and says whether it stays. Where it fails it is
    /// dropped then and there.
    ///
    /// Memory: none.
    pub fn tell_at(&mut self, place: usize, line: &[u8]) -> bool
        requires { place < length self.old }
        ensures count { length self.old ≡ length self.new + (if result then 0 else 1) }
        ensures stays { result ≡ true → (front back : List WatcherState) (w : WatcherState)
            → self.old ≡ front ++ w ∷ back → length front ≡ place
            → (now : WatcherState) × TookLine line.now w now
            × (self.new ≡ front ++ now ∷ back) }
        ensures dropped { result ≡ false → (front back : List WatcherState) (w : WatcherState)
            → self.old ≡ front ++ w ∷ back → length front ≡ place
            → RefusedLine line.now w × (self.new ≡ front ++ back) }
    {
        let stays = takes(&mut self.watched[place], line);
        if !stays {
            self.watched.remove(place);
        }
        stays
    }

    /// Gives a line to each watcher of that session. One that fails is dropped then and there; the
    /// others keep their numbers.
    ///
    /// Memory: none.
    pub fn tell(&mut self, session: &Name, line: &[u8])
        ensures { Tells (line_for session.now line.now) self.old self.new }
    {
        let mut place = 0;
        while place < self.watched.len() {
            if self.hears_at(place, session, line) {
                place += 1;
            }
        }
    }

    // Gives the line to the watcher at that place, if it is of the session, and says whether it
    // stays.
    fn hears_at(&mut self, place: usize, session: &Name, line: &[u8]) -> bool
        requires { place < length self.old }
        ensures count { length self.old ≡ length self.new + (if result then 0 else 1) }
        ensures stays { result ≡ true → (front back : List WatcherState) (w : WatcherState)
            → self.old ≡ front ++ w ∷ back → length front ≡ place
            → (now : WatcherState) × Stays (line_for session.now line.now w.session) w now
            × (self.new ≡ front ++ now ∷ back) }
        ensures dropped { result ≡ false → (front back : List WatcherState) (w : WatcherState)
            → self.old ≡ front ++ w ∷ back → length front ≡ place
            → IsDropped (line_for session.now line.now w.session) w
            × (self.new ≡ front ++ back) }
    {
        if self.session_at(place) != session {
            return true;
        }
        self.tell_at(place, line)
    }

    /// Takes the watcher of that number out, as it is.
    ///
    /// Memory: none.
    pub fn take_out(&mut self, number: u32) -> Option<W>
        ensures found { option_map (λ b. record {
          taken = W.taken b;
          refused_from = W.refused_from b;
          faults = W.faults b;
        }) result ≡ option_map (λ (w : WatcherState). w.telling)
            (find (has_number number) self.old) }
        ensures rest { self.new ≡ without number self.old }
    {
        match place_of(self.watched.as_slice(), number) {
            Some(place) => Some(self.watched.remove(place).watcher),
            None => None,
        }
    }
}
