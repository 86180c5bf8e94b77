//! Verdicts that show nothing of a view.

ghost use Rattle.std.specs.Prelude.{◌≡◌};
ghost use Rattle.bundle_judge.specs.BareVerdicts.{verdict_of};

use doc_model::{LimitKind, Refusal, RetValueList, RuleRef, Verdict};

/// A verdict that shows nothing of a view: what it says is the session's own.
#[derive(Drop)]
pub enum BareVerdict {
    Done,
    Bundle {
        number: u64,
        values: RetValueList,
    },
    Undone {
        number: u64,
    },
    Refused {
        refusal: Refusal,
        action: Option<u32>,
    },
    Limited {
        what: LimitKind,
        bound: u64,
        action: Option<u32>,
    },
    Unresolved {
        count: u32,
    },
    Denied {
        action: u32,
        rule: RuleRef,
    },
}

impl BareVerdict {
    /// The verdict as it is written.
    pub fn into_verdict(self) -> Verdict
        ensures { result ≡ verdict_of self }
    {
        match self {
            BareVerdict::Done => Verdict::Done,
            BareVerdict::Bundle { number, values } => Verdict::Bundle { number, values },
            BareVerdict::Undone { number } => Verdict::Undone { number },
            BareVerdict::Refused { refusal, action } => Verdict::Refused { refusal, action },
            BareVerdict::Limited {
                what,
                bound,
                action,
            } => Verdict::Limited {
                what,
                bound,
                action,
            },
            BareVerdict::Unresolved { count } => Verdict::Unresolved { count },
            BareVerdict::Denied { action, rule } => Verdict::Denied { action, rule },
        }
    }
}
