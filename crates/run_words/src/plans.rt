//! What the words of a command line ask for, in the shape that it will have for all commands.
use cell_types::Name;

/// What words ask for.
#[derive(Drop)]
pub enum Plan {
    /// A replay of the input's lines; the name of its kept document, and of a watched session.
    Replay {
        doc: Option<Name>,
        watch: Option<Name>,
    },
    /// Lanes that serve connections, from that port on.
    Serve {
        lanes: u32,
        port: u16,
        conns: u32,
        doc: Option<Name>,
        watch: Option<Name>,
    },
    /// A generated script of that size.
    Gen {
        n: u32,
    },
    /// What each user of the input may learn from verdicts; the name of the kept document.
    Audit {
        doc: Option<Name>,
    },
}

/// Why words give no plan.
#[derive(Clone, Copy, Debug, PartialEq, Eq)]
pub enum PlanFault {
    /// The words are of no form.
    Usage,
    NoMemory,
}
