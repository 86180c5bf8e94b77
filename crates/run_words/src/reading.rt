//! The words read by clap.
ghost use Rattle.std.specs.Prelude.{◌≡◌, ◌↔◌, true, false, codes, is_some, map, string_bytes, option_and_then, option_map, Err, IfErr, IfOk, IfSome, Some, None};
ghost use Rattle.cell_types.specs.NameRule.{is_name};
ghost use Rattle.clap.specs.Simple.{app_of};
ghost use Rattle.clap.specs.Walk.{rule_of};
ghost use Rattle.clap.specs.Words.{kind_of, subcommand_rows_of};
ghost use Rattle.clap.specs.declared.builder.command.Command.TheViews.{out-Command as fields_of};
ghost use Rattle.clap.specs.declared.error.kind.ErrorKind.TheVariants.{OutOfMemory};
ghost use Rattle.run_words.specs.Clap.{doc_of, found_in, option_rule, replay_app, watch_of, words_app};
ghost use Rattle.run_words.specs.OptionViews.{HasFewLanes};
ghost use Rattle.run_words.specs.ServeWords.{serve_of};
ghost use Rattle.run_words.specs.Words.{audit_of, gen_of, plan_of, replay_in};
ghost use Rattle.run_words.specs.declared.plans.PlanFault.TheVariants.{Usage};

use crate::form::{audit_words, is_replay_form, rows_behind};
use crate::plans::{Plan, PlanFault};
use crate::serve_form::serve_words;
use cell_types::Name;
use clap::{Arg, ArgAction, ArgMatches, Command, Error};
use name_rules::name_of;
use std::alloc::{AllocError, Global};

fn option<'a>(alloc: Global, name: &'a str) -> Arg<'a>
    ensures rule { rule_of result ≡ option_rule name.entry.now }
    ensures local { result.global ≡ false }
{
    Arg::new(alloc, name).long(name).action(ArgAction::Set)
}

fn replay<'a>(alloc: Global) -> Result<Command<'a>, AllocError>
    ensures app { IfOk result (λ c. app_of c ≡ replay_app) }
    ensures local { IfOk result (λ c. (fields_of c).has_globals ≡ false) }
{
    Command::new(alloc, "replay")
        .arg(option(alloc, "doc"))?
        .arg(option(alloc, "watch"))
}

fn command<'a>(alloc: Global) -> Result<Command<'a>, AllocError>
    ensures { IfOk result (λ c. app_of c ≡ words_app) }
{
    Command::new(alloc, "jackclover")
        .no_binary_name(true)
        .disable_help_flag(true)
        .disable_help_subcommand(true)
        .disable_version_flag(true)
        .subcommand_required(true)
        .subcommand(replay(alloc)?)
}

// What clap finds in words that are of a form. It refuses none of them.
fn matched<'a>(alloc: Global, words: &'a [String]) -> Result<ArgMatches<'a>, Error>
    requires form { is_some (replay_in (map string_bytes words.now)) ≡ true }
    ensures doc { IfOk result (λ m. found_in (codes "doc") (subcommand_rows_of m)
        ≡ option_and_then doc_of (replay_in (map string_bytes words.entry.now))) }
    ensures watch { IfOk result (λ m. found_in (codes "watch") (subcommand_rows_of m)
        ≡ option_and_then watch_of (replay_in (map string_bytes words.entry.now))) }
    ensures err { IfErr result (λ e. kind_of e ≡ OutOfMemory) }
{
    let command = command(alloc)?;
    command.try_get_matches_from(words)
}

// The value of an option.
fn value_in<'a>(matches: &ArgMatches<'a>, name: &str) -> Option<&'a str>
    ensures { option_map (λ s. s.now) result
        ≡ found_in name.now (subcommand_rows_of matches.now) }
{
    match matches.subcommand() {
        Some((_, options)) => options.get_str(name),
        None => None,
    }
}

fn named(alloc: Global, text: Option<&str>) -> Result<Option<Name>, AllocError>
    requires name { IfSome text (λ t. is_name t.now ≡ true) }
    ensures { IfOk result (λ d. d ≡ option_map (λ t. t.now) text.entry) }
{
    match text {
        Some(text) => Ok(Some(name_of(alloc, text)?)),
        None => Ok(None),
    }
}

// What words ask for that are of no other command than a replay.
fn replay_plan(alloc: Global, words: &[String]) -> Result<Plan, PlanFault>
    ensures ok { IfOk result (λ p. replay_in (map string_bytes words.now) ≡ Some p) }
    ensures lanes { IfOk result HasFewLanes }
    ensures usage { (result ≡ Err Usage) ↔ (replay_in (map string_bytes words.now) ≡ None) }
{
    if !is_replay_form(words) {
        return Err(PlanFault::Usage);
    }
    let Ok(matches) = matched(alloc, words) else {
        return Err(PlanFault::NoMemory);
    };
    let Ok(doc) = named(alloc, value_in(&matches, "doc")) else {
        return Err(PlanFault::NoMemory);
    };
    let Ok(watch) = named(alloc, value_in(&matches, "watch")) else {
        return Err(PlanFault::NoMemory);
    };
    Ok(Plan::Replay { doc, watch })
}

// What the words behind `serve` ask for.
fn serve_plan(alloc: Global, options: &[String]) -> Result<Plan, PlanFault>
    ensures ok { IfOk result (λ p. serve_of (map string_bytes options.now) ≡ Some p) }
    ensures lanes { IfOk result HasFewLanes }
    ensures usage { (result ≡ Err Usage) ↔ (serve_of (map string_bytes options.now) ≡ None) }
{
    let Some(words) = serve_words(options) else {
        return Err(PlanFault::Usage);
    };
    let Ok(doc) = named(alloc, words.doc) else {
        return Err(PlanFault::NoMemory);
    };
    let Ok(watch) = named(alloc, words.watch) else {
        return Err(PlanFault::NoMemory);
    };
    Ok(Plan::Serve {
        lanes: words.lanes,
        port: words.port,
        conns: words.conns,
        doc,
        watch,
    })
}

// What the words behind `gen` ask for.
fn gen_plan(options: &[String]) -> Result<Plan, PlanFault>
    ensures ok { IfOk result (λ p. gen_of (map string_bytes options.now) ≡ Some p) }
    ensures usage { (result ≡ Err Usage) ↔ (gen_of (map string_bytes options.now) ≡ None) }
{
    match rows_behind(options) {
        Some(n) => Ok(Plan::Gen { n }),
        None => Err(PlanFault::Usage),
    }
}

// What the words behind `audit` ask for.
fn audit_plan(alloc: Global, options: &[String]) -> Result<Plan, PlanFault>
    ensures ok { IfOk result (λ p. audit_of (map string_bytes options.now) ≡ Some p) }
    ensures lanes { IfOk result HasFewLanes }
    ensures usage { (result ≡ Err Usage) ↔ (audit_of (map string_bytes options.now) ≡ None) }
{
    let Some(words) = audit_words(options) else {
        return Err(PlanFault::Usage);
    };
    match named(alloc, words.doc) {
        Ok(doc) => Ok(Plan::Audit { doc }),
        Err(_) => Err(PlanFault::NoMemory),
    }
}

/// What the words behind the program's own name ask for.
///
/// Errors: `Usage`, exactly where they are of no form; out of memory.
/// Memory: none where the words are of no form.
/// Source: docs/PROTOCOL.md, "the program".
pub fn plan(alloc: Global, words: &[String]) -> Result<Plan, PlanFault>
    ensures ok { IfOk result (λ p. plan_of (map string_bytes words.now) ≡ Some p) }
    ensures lanes { IfOk result HasFewLanes }
    ensures usage { (result ≡ Err Usage) ↔ (plan_of (map string_bytes words.now) ≡ None) }
{
    match words {
        [word, options @ ..] if word.as_str() == "serve" => serve_plan(alloc, options),
        [word, options @ ..] if word.as_str() == "gen" => gen_plan(options),
        [word, options @ ..] if word.as_str() == "audit" => audit_plan(alloc, options),
        _ => replay_plan(alloc, words),
    }
}
