//! The token that is open, and what the next character makes of it.
//!
//! | open          | goes on with                  | ends at                     |
//! |---------------|-------------------------------|-----------------------------|
//! | nothing       | any first character, a blank  |                             |
//! | name          | what may continue a name      | any other character         |
//! | `$`, `$name`  | the same                      | any other character         |
//! | number        | digits within the bound       | any other character         |
//! | string        | any character, an escape      | its quote, which is part    |
//! | half a sign   |                               | the next character          |

ghost use Rattle.std.specs.Prelude.{◌≡◌, ◌+◌, ◌^◌, ◌<◌};
ghost use Rattle.std.specs.Char.{len_utf8};
ghost use Rattle.formula_lex.specs.Classes.{class_of, joined};
ghost use Rattle.formula_lex.specs.Machine.{between, name_step, dollar_word, dollar_name_step, number_step, text_step, half_step, more_digits, step, finish};
ghost use Rattle.formula_lex.specs.Lexed.{Gives};

use crate::character::{Class, Half, alone, class_of, escaped, is_plain, joined};
use crate::fault::Stop;
use crate::token::{TokenKind, TokenList, TokenText};
use std::alloc::Global;
use unicode_ident::is_xid_continue;

/// The token that is open, with the place where it began.
#[derive(Drop)]
pub enum Reading {
    Between,
    Name(usize, TokenText),
    Dollar(usize),
    DollarName(usize, TokenText),
    Number(usize, u64),
    Text(usize, char, TokenText),
    Escape(usize, char, TokenText),
    Half(usize, Half),
}

// A character where no token is open.
fn between(alloc: Global, out: &mut TokenList, at: usize, c: char) -> Result<Reading, Stop>
    requires { at + len_utf8 c < 2 ^ 64 }
    ensures { Gives (λ reading. (out.new, reading)) result (between out.old at c) }
{
    match class_of(c) {
        Class::Blank => Ok(Reading::Between),
        Class::Digit => {
            let digit = u64::from(u32::from(c)).saturating_sub(48);
            Ok(Reading::Number(at, digit))
        }
        Class::Start => Ok(Reading::Name(at, TokenText::of(alloc, c)?)),
        Class::DollarSign => Ok(Reading::Dollar(at)),
        Class::Quote => Ok(Reading::Text(at, c, TokenText::empty(alloc))),
        Class::Single(sign) => {
            out.put(TokenKind::Sign(sign), at, at + c.len_utf8())?;
            Ok(Reading::Between)
        }
        Class::Pair(half) => Ok(Reading::Half(at, half)),
        Class::Other => Err(Stop::Bad),
    }
}

// A character where a name is open.
fn name_step(
    alloc: Global,
    out: &mut TokenList,
    from: usize,
    at: usize,
    name: TokenText,
    c: char,
) -> Result<Reading, Stop>
    requires { at + len_utf8 c < 2 ^ 64 }
    ensures { Gives (λ reading. (out.new, reading)) result (name_step out.old from at name c) }
{
    if is_xid_continue(c) {
        let mut name = name;
        name.push(c)?;
        return Ok(Reading::Name(from, name));
    }
    out.put(TokenKind::Name(name), from, at)?;
    between(alloc, out, at, c)
}

// A character behind `$`.
fn dollar_step(alloc: Global, from: usize, c: char) -> Result<Reading, Stop>
    ensures { Gives (λ reading. reading) result (dollar_word from c (class_of c)) }
{
    match class_of(c) {
        Class::Start => Ok(Reading::DollarName(from, TokenText::of(alloc, c)?)),
        _ => Err(Stop::Bad),
    }
}

// A character where a name behind `$` is open.
fn dollar_name_step(
    alloc: Global,
    out: &mut TokenList,
    from: usize,
    at: usize,
    name: TokenText,
    c: char,
) -> Result<Reading, Stop>
    requires { at + len_utf8 c < 2 ^ 64 }
    ensures { Gives (λ reading. (out.new, reading)) result
        (dollar_name_step out.old from at name c) }
{
    if is_xid_continue(c) {
        let mut name = name;
        name.push(c)?;
        return Ok(Reading::DollarName(from, name));
    }
    out.put(TokenKind::Dollar(name), from, at)?;
    between(alloc, out, at, c)
}

// The number with one more digit, where it is not too great.
#[tactic(auto, unfolding(crate::specs::Spelling::number_bound))]
fn more_digits(number: u64, digit: u64) -> Option<u64>
    requires { digit < 10 }
    ensures { result ≡ more_digits number digit }
{
    if number <= (9223372036854775807 - digit) / 10 {
        return Some(number * 10 + digit);
    }
    None
}

// A character where a number is open.
fn number_step(
    alloc: Global,
    out: &mut TokenList,
    from: usize,
    at: usize,
    number: u64,
    c: char,
) -> Result<Reading, Stop>
    requires { at + len_utf8 c < 2 ^ 64 }
    ensures { Gives (λ reading. (out.new, reading)) result (number_step out.old from at number c) }
{
    if c.is_ascii_digit() {
        let digit = u64::from(u32::from(c)) - 48;
        return match more_digits(number, digit) {
            Some(number) => Ok(Reading::Number(from, number)),
            None => Err(Stop::Bad),
        };
    }
    out.put(TokenKind::Number(number), from, at)?;
    between(alloc, out, at, c)
}

// A character where a string is open.
fn text_step(
    out: &mut TokenList,
    from: usize,
    at: usize,
    quote: char,
    text: TokenText,
    c: char,
) -> Result<Reading, Stop>
    requires { at + len_utf8 c < 2 ^ 64 }
    ensures { Gives (λ reading. (out.new, reading)) result
        (text_step out.old from at quote text c) }
{
    if is_plain(quote, c) {
        let mut text = text;
        text.push(c)?;
        return Ok(Reading::Text(from, quote, text));
    }
    if c == quote {
        out.put(TokenKind::Text(text), from, at + c.len_utf8())?;
        return Ok(Reading::Between);
    }
    if c == '\\' {
        return Ok(Reading::Escape(from, quote, text));
    }
    Err(Stop::Bad)
}

// A character behind the first one of a sign.
fn half_step(
    alloc: Global,
    out: &mut TokenList,
    from: usize,
    at: usize,
    half: Half,
    c: char,
) -> Result<Reading, Stop>
    requires { at + len_utf8 c < 2 ^ 64 }
    ensures { Gives (λ reading. (out.new, reading)) result
        (half_step out.old from at half c (joined half c)) }
{
    match joined(half, c) {
        Some(sign) => {
            out.put(TokenKind::Sign(sign), from, at + c.len_utf8())?;
            Ok(Reading::Between)
        }
        None => match alone(half) {
            Some(sign) => {
                out.put(TokenKind::Sign(sign), from, at)?;
                between(alloc, out, at, c)
            }
            None => Err(Stop::Bad),
        },
    }
}

/// What the next character, which has this place, makes of the open token.
#[tactic(auto, unfolding(crate::specs::Machine::step))]
pub(crate) fn step(
    alloc: Global,
    out: &mut TokenList,
    reading: Reading,
    at: usize,
    c: char,
) -> Result<Reading, Stop>
    requires { at + len_utf8 c < 2 ^ 64 }
    ensures { Gives (λ reading. (out.new, reading)) result (step out.old reading at c) }
{
    match reading {
        Reading::Between => between(alloc, out, at, c),
        Reading::Name(from, name) => name_step(alloc, out, from, at, name, c),
        Reading::Dollar(from) => dollar_step(alloc, from, c),
        Reading::DollarName(from, name) => dollar_name_step(alloc, out, from, at, name, c),
        Reading::Number(from, number) => number_step(alloc, out, from, at, number, c),
        Reading::Text(from, quote, text) => text_step(out, from, at, quote, text, c),
        Reading::Escape(from, quote, text) => match escaped(c) {
            Some(meant) => {
                let mut text = text;
                text.push(meant)?;
                Ok(Reading::Text(from, quote, text))
            }
            None => Err(Stop::Bad),
        },
        Reading::Half(from, half) => half_step(alloc, out, from, at, half, c),
    }
}

/// What the end of the text, which has this place, makes of the open token.
#[tactic(auto, unfolding(crate::specs::Machine::finish))]
pub(crate) fn finish(out: &mut TokenList, reading: Reading, at: usize) -> Result<(), Stop>
    ensures { Gives (λ _. out.new) result (finish out.old reading at) }
{
    match reading {
        Reading::Between => Ok(()),
        Reading::Name(from, name) => {
            out.put(TokenKind::Name(name), from, at)?;
            Ok(())
        }
        Reading::DollarName(from, name) => {
            out.put(TokenKind::Dollar(name), from, at)?;
            Ok(())
        }
        Reading::Number(from, number) => {
            out.put(TokenKind::Number(number), from, at)?;
            Ok(())
        }
        Reading::Half(from, half) => match alone(half) {
            Some(sign) => {
                out.put(TokenKind::Sign(sign), from, at)?;
                Ok(())
            }
            None => Err(Stop::Bad),
        },
        Reading::Dollar(_) | Reading::Text(_, _, _) | Reading::Escape(_, _, _) => Err(Stop::Bad),
    }
}
