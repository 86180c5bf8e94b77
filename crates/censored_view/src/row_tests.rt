//! Formulas of rules that decide whether rows of a table may be read, chosen once for all rows.

ghost use Rattle.std.specs.Prelude.{◌≡◌, None, Some, not};
ghost use Rattle.censored_view.specs.RowTests.{answer_of, is_match, is_matched, tests_say};

use acl_formula::{RowReader, RuleTree, RuleTruth, UserInfo, eval_rule};

/// The formula of a rule about reading, with whether its rule denies.
#[derive(Clone, Copy)]
pub struct RowTest<'a> {
    pub formula: &'a RuleTree,
    pub denies: bool,
}

/// Formulas that are asked in their order: the first that matches a row answers for it. Where none
/// matches, there may be an answer for all rows.
#[derive(Drop)]
pub struct RowTests<'a> {
    pub user: &'a UserInfo,
    pub tests: Vec<RowTest<'a>>,
    pub otherwise: Option<bool>,
}

// A formula that fails matches where its rule denies.
fn is_match(denies: bool, truth: RuleTruth) -> bool
    ensures { result ≡ is_match denies truth }
{
    match truth {
        RuleTruth::True => true,
        RuleTruth::False => false,
        RuleTruth::Fails => denies,
    }
}

// No row, where one of this kind may be given.
fn no_row<'a, W>(_row: &'a W) -> Option<&'a W>
    ensures { result ≡ None }
{
    None
}

// Not inlined: the place for a large formula is paid for at entry, and tables whose rows are all
// answered alike need none.
#[inline(never)]
fn is_matched<W: RowReader>(test: &RowTest<'_>, user: &UserInfo, row: &W) -> bool
    ensures { result ≡ is_matched user.now (W.told row.now) test.now }
{
    let truth = eval_rule(test.formula, user, Some(row), no_row(row));
    is_match(test.denies, truth)
}

fn tests_say<W: RowReader>(tests: &[RowTest<'_>], user: &UserInfo, row: &W) -> Option<bool>
    ensures { result ≡ tests_say user.now (W.told row.now) tests.now }
{
    for test in tests {
        if is_matched(test, user, row) {
            return Some(!test.denies);
        }
    }
    None
}

impl RowTests<'_> {
    /// What is answered for the row.
    ///
    /// Memory: none. Cost: the formulas up to the first that matches.
    pub fn answer<W: RowReader>(&self, row: &W) -> Option<bool>
        ensures { result ≡ answer_of self.now (W.told row.now) }
    {
        match tests_say(self.tests.as_slice(), self.user, row) {
            Some(answer) => Some(answer),
            None => self.otherwise,
        }
    }
}
