//! Where connections come from.
ghost use Rattle.std.specs.Prelude.{◌≡◌, true, false};
ghost use Rattle.io_edges.specs.Causes.{HasCause};
ghost use Rattle.io_edges.specs.Ports.{Gives, PortState, TakesBack};

use crate::{Failed, Link, SessionEnd};
use std::marker::Send;

/// A connection that came back, and how it ended.
#[derive(Drop)]
pub struct Returned<C> {
    pub conn: C,
    pub end: SessionEnd,
}

/// Where connections come from, one after the other: the next one is handed out where the last one
/// has come back.
pub trait Port: Drop {
    /// A connection.
    type Conn: Link + Send;

    /// What is told of the port.
    ghost state: { Self → PortState Self.Conn };

    /// Waits for the next connection. `None` where none will come.
    ///
    /// Errors: `Failed`, where the count rose. The connections are then as before.
    fn next(&mut self) -> Result<Option<Self::Conn>, Failed>
        requires { (Self.state self.old).lent ≡ false }
        ensures gives { Gives (Self.state self.old) (Self.state self.new) result }
        ensures cause { HasCause (Self.state self.old).faults (Self.state self.new).faults result };

    /// Takes the connection back, with how it ended.
    ///
    /// Memory: none.
    fn done(&mut self, conn: Self::Conn, end: SessionEnd)
        requires { (Self.state self.old).lent ≡ true }
        ensures { TakesBack (Self.state self.old) (Self.state self.new) conn end };
}
