//! The options of a command as they are read.
ghost use Rattle.std.specs.Prelude.{◌≡◌, ◌<◌, ◌≤◌, true};
ghost use Rattle.std.specs.Option.{ForSome};
ghost use Rattle.cell_types.specs.NameRule.{is_name};

/// An option: of a command that opens a document, or of a server alone.
#[derive(Clone, Copy)]
pub(crate) enum WordOption {
    Doc,
    Watch,
    Lanes,
    Port,
    Conns,
}

/// What the options so far say.
#[derive(Clone, Copy)]
pub(crate) struct Options<'a> {
    pub doc: Option<&'a str>,
    pub watch: Option<&'a str>,
    pub lanes: Option<u32>,
    pub port: Option<u16>,
    pub conns: Option<u32>,
    ghost named: { ForSome doc (λ t. is_name t.now ≡ true) },
    ghost watched: { ForSome watch (λ t. is_name t.now ≡ true) },
    ghost few: { ForSome lanes (λ n. (0 < n) × (n ≤ 64)) },
}

/// What `audit` was asked for.
#[derive(Clone, Copy)]
pub(crate) struct AuditWords<'a> {
    pub doc: Option<&'a str>,
    ghost named: { ForSome doc (λ t. is_name t.now ≡ true) },
}

/// What `serve` was asked for.
#[derive(Clone, Copy)]
pub(crate) struct ServeWords<'a> {
    pub lanes: u32,
    pub port: u16,
    pub conns: u32,
    pub doc: Option<&'a str>,
    pub watch: Option<&'a str>,
    ghost named: { ForSome doc (λ t. is_name t.now ≡ true) },
    ghost watched: { ForSome watch (λ t. is_name t.now ≡ true) },
    ghost few: { (0 < lanes) × (lanes ≤ 64) },
}
