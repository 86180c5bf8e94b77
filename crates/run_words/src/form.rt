//! Which words are of a form. No memory is taken.
ghost use Rattle.std.specs.Prelude.{◌≡◌, ◌<◌, ◌≤◌, IfSome, is_some, map, option_map, string_bytes};
ghost use Rattle.run_words.specs.ServeWords.{serve_of};
ghost use Rattle.run_words.specs.Words.{audit_of, gen_of, is_audit, is_replay, lanes_of, plan_of, replay_in, rows_of};
ghost use Rattle.run_words.specs.OptionViews.{audit_in};

use crate::option_words::AuditWords;
use crate::options::{number_up_to, options_said};
use crate::serve_form::serve_words;

/// How many rows a generated script may have.
const MAX_ROWS: u32 = 20_000;

/// Whether the words are of the form of a replay.
pub(crate) fn is_replay_form(words: &[String]) -> bool
    ensures { result ≡ is_some (replay_in (map string_bytes words.now)) }
{
    match words {
        [word, options @ ..] => {
            word.as_str() == "replay" && options_said(false, options).is_some()
        }
        [] => false,
    }
}

/// Whether the words ask for a replay.
///
/// Memory: none.
pub fn asks_for_replay(words: &[String]) -> bool
    ensures { result ≡ is_replay (plan_of (map string_bytes words.now)) }
{
    is_replay_form(words)
}

// How many lanes are asked for by the words behind `serve`.
fn lanes_behind(options: &[String]) -> Option<u32>
    ensures lanes { result ≡ lanes_of (serve_of (map string_bytes options.now)) }
    ensures few { IfSome result (λ n. (0 < n) × (n ≤ 64)) }
{
    match serve_words(options) {
        Some(words) => Some(words.lanes),
        None => None,
    }
}

/// How many lanes of a server the words ask for, where they ask for one.
///
/// Memory: none.
pub fn lanes_asked(words: &[String]) -> Option<u32>
    ensures lanes { result ≡ lanes_of (plan_of (map string_bytes words.now)) }
    ensures few { IfSome result (λ n. (0 < n) × (n ≤ 64)) }
{
    match words {
        [word, options @ ..] if word.as_str() == "serve" => lanes_behind(options),
        _ => None,
    }
}

/// Of how many rows a script is asked for by the words behind `gen`.
pub(crate) fn rows_behind(options: &[String]) -> Option<u32>
    ensures rows { result ≡ rows_of (gen_of (map string_bytes options.now)) }
    ensures few { IfSome result (λ n. (0 < n) × (n ≤ 20000)) }
{
    match options {
        [text] => number_up_to(MAX_ROWS, text.as_str()),
        _ => None,
    }
}

/// Of how many rows a generated script the words ask for, where they ask for one.
///
/// Memory: none.
pub fn rows_asked(words: &[String]) -> Option<u32>
    ensures rows { result ≡ rows_of (plan_of (map string_bytes words.now)) }
    ensures few { IfSome result (λ n. (0 < n) × (n ≤ 20000)) }
{
    match words {
        [word, options @ ..] if word.as_str() == "gen" => rows_behind(options),
        _ => None,
    }
}

/// What `audit` is asked for by the words behind it.
pub(crate) fn audit_words<'a>(options: &'a [String]) -> Option<AuditWords<'a>>
    ensures { option_map audit_in result ≡ audit_of (map string_bytes options.entry.now) }
{
    match options_said(false, options) {
        Some(found) if found.watch.is_none() => Some(AuditWords { doc: found.doc }),
        _ => None,
    }
}

// Whether the words behind `audit` are of its form.
fn is_audit_form(options: &[String]) -> bool
    ensures { result ≡ is_audit (audit_of (map string_bytes options.now)) }
{
    audit_words(options).is_some()
}

/// Whether the words ask for an audit.
///
/// Memory: none.
pub fn asks_for_audit(words: &[String]) -> bool
    ensures { result ≡ is_audit (plan_of (map string_bytes words.now)) }
{
    match words {
        [word, options @ ..] if word.as_str() == "audit" => is_audit_form(options),
        _ => false,
    }
}
