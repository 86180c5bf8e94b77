//! The options behind a command, in any order. No memory is taken.
ghost use Rattle.std.specs.Prelude.{◌≡◌, ◌<◌, ◌≤◌, IfSome, map, option_map, string_bytes};
ghost use Rattle.run_words.specs.Options.{begins_with_zero, joined_option, number_up_to, nothing_found, option_named, options_in, server_option, with_apart, with_joined, with_option};
ghost use Rattle.run_words.specs.OptionViews.{found_of};

use crate::option_words::{Options, WordOption};
use cell_types::decimal_value;
use name_rules::is_name;

/// How many lanes there may be.
const MAX_LANES: u32 = 64;

/// The last port there is.
const LAST_PORT: u32 = 65_535;

/// How many connections a port may hand out in a run.
const MAX_CONNECTIONS: u32 = 1_000_000;

fn begins_with_zero(text: &[u8]) -> bool
    ensures { result ≡ begins_with_zero text.now }
{
    match text {
        [first, ..] => *first == b'0',
        [] => false,
    }
}

/// The number from 1 to a bound that decimal digits say, with no zero before them.
pub(crate) fn number_up_to(most: u32, text: &str) -> Option<u32>
    ensures value { result ≡ number_up_to most text.now }
    ensures few { IfSome result (λ n. (0 < n) × (n ≤ most)) }
{
    if begins_with_zero(text.as_bytes()) {
        return None;
    }
    match decimal_value(text) {
        Some(number) if 1 <= number && number <= most as i64 => Some(number as u32),
        _ => None,
    }
}

fn server_option(word: &str) -> Option<WordOption>
    ensures { result ≡ server_option word.now }
{
    match word {
        "--lanes" => Some(WordOption::Lanes),
        "--port" => Some(WordOption::Port),
        "--conns" => Some(WordOption::Conns),
        _ => None,
    }
}

fn option_named(is_server: bool, word: &str) -> Option<WordOption>
    ensures { result ≡ option_named is_server word.now }
{
    match word {
        "--doc" => Some(WordOption::Doc),
        "--watch" => Some(WordOption::Watch),
        _ if is_server => server_option(word),
        _ => None,
    }
}

// An option and its text in one word.
fn joined_option(is_server: bool, word: &str) -> Option<(WordOption, &str)>
    ensures { option_map (λ p. (p.0, p.1.now)) result ≡ joined_option is_server word.now }
{
    match word.split_once('=') {
        Some((name, text)) => match option_named(is_server, name) {
            Some(option) => Some((option, text)),
            None => None,
        },
        None => None,
    }
}

// What the options say with one more, which is given for the first time.
fn with_option<'a>(found: Options<'a>, option: WordOption, text: &'a str) -> Option<Options<'a>>
    ensures { option_map found_of result
        ≡ with_option (found_of found.entry) option text.entry.now }
{
    let mut found = found;
    match option {
        WordOption::Doc if found.doc.is_none() && is_name(text) => found.doc = Some(text),
        WordOption::Watch if found.watch.is_none() && is_name(text) => found.watch = Some(text),
        WordOption::Lanes if found.lanes.is_none() => {
            found.lanes = Some(number_up_to(MAX_LANES, text)?);
        }
        WordOption::Port if found.port.is_none() => {
            found.port = Some(number_up_to(LAST_PORT, text)? as u16);
        }
        WordOption::Conns if found.conns.is_none() => {
            found.conns = Some(number_up_to(MAX_CONNECTIONS, text)?);
        }
        _ => return None,
    }
    Some(found)
}

fn with_joined<'a>(is_server: bool, found: Options<'a>, word: &'a str) -> Option<Options<'a>>
    ensures { option_map found_of result
        ≡ with_joined is_server (found_of found.entry) word.entry.now }
{
    match joined_option(is_server, word) {
        Some((option, text)) => with_option(found, option, text),
        None => None,
    }
}

fn with_apart<'a>(
    is_server: bool,
    found: Options<'a>,
    word: &str,
    text: &'a str,
) -> Option<Options<'a>>
    ensures { option_map found_of result
        ≡ with_apart is_server (found_of found.entry) word.now text.entry.now }
{
    match option_named(is_server, word) {
        Some(option) => with_option(found, option, text),
        None => None,
    }
}

// What the words say behind what was found: options in any order, each once at most.
fn options_in<'a>(is_server: bool, found: Options<'a>, words: &'a [String]) -> Option<Options<'a>>
    ensures { option_map found_of result
        ≡ options_in is_server (found_of found.entry) (map string_bytes words.entry.now) }
{
    match words {
        [] => Some(found),
        [word, rest @ ..] => match with_joined(is_server, found, word.as_str()) {
            Some(found) => options_in(is_server, found, rest),
            None => match rest {
                [text, more @ ..] => {
                    match with_apart(is_server, found, word.as_str(), text.as_str()) {
                        Some(found) => options_in(is_server, found, more),
                        None => None,
                    }
                }
                [] => None,
            },
        },
    }
}

/// What the words behind a command say: options that it has, in any order, each once at most.
pub(crate) fn options_said<'a>(is_server: bool, words: &'a [String]) -> Option<Options<'a>>
    ensures { option_map found_of result
        ≡ options_in is_server nothing_found (map string_bytes words.entry.now) }
{
    let nothing = Options {
        doc: None,
        watch: None,
        lanes: None,
        port: None,
        conns: None,
    };
    options_in(is_server, nothing, words)
}
