//! The words of the command cut into the texts that they give for its options, by the crate `clap`.

ghost use Rattle.std.specs.Prelude.{◌≡◌, ◌↔◌, IfErr, IfOk, IsTrue, None, false, map, option_map};
ghost use Rattle.clap.specs.Words.{app_of, kind_of, found_of, rows_of, rule_of};
ghost use Rattle.words_spec.specs.CommandWords.{command, given_by, given_in, option_rule, text_given};

use clap::error::ErrorKind;
use clap::{Arg, ArgAction, ArgMatches, Command, Error};
use options_spec::{Given, GivenText};
use std::alloc::{AllocError, Global};

/// An option that takes one text and may stand once, by its long name alone.
fn text_option<'a>(alloc: Global, name: &'a str) -> Arg<'a>
    ensures rule { rule_of result ≡ option_rule name.entry.now None }
    ensures local { result.global ≡ false }
{
    Arg::new(alloc, name).long(name).action(ArgAction::Set)
}

/// The command with its five options.
fn five_options<'a>(alloc: Global) -> Result<Command<'a>, AllocError>
    ensures app { IfOk result (λ r. app_of r ≡ command) }
{
    Command::new(alloc, "depthmap")
        .no_binary_name(true)
        .disable_help_flag(true)
        .disable_version_flag(true)
        .arg(text_option(alloc, "mode").short('m'))?
        .arg(text_option(alloc, "file").short('f'))?
        .arg(text_option(alloc, "workers"))?
        .arg(text_option(alloc, "format"))?
        .arg(text_option(alloc, "number"))
}

/// A text as one that was given for an option.
fn given(text: Option<&str>) -> Option<GivenText<'_>>
    ensures { result ≡ option_map (λ t. t.now) text.entry }
{
    match text {
        Some(text) => Some(GivenText::of(text)),
        None => None,
    }
}

/// The text that was given for the option of a name.
fn text_in<'a>(matches: &ArgMatches<'a>, name: &str) -> Option<GivenText<'a>>
    ensures text { result ≡ text_given (rows_of (found_of matches.now)) name.now }
{
    given(matches.get_str(name))
}

/// The texts by the options' names.
fn texts_in<'a>(matches: &ArgMatches<'a>) -> Given<'a>
    ensures texts { result ≡ given_by (rows_of (found_of matches.now)) }
{
    Given {
        mode: text_in(matches, "mode"),
        file: text_in(matches, "file"),
        workers: text_in(matches, "workers"),
        format: text_in(matches, "format"),
        number: text_in(matches, "number"),
    }
}

/// The texts that the words give, where the command takes the words.
pub fn texts_of<'a>(alloc: Global, words: &'a [&'a str]) -> Result<Option<Given<'a>>, Error>
    ensures texts { IfOk result (λ r. r ≡ given_in (map (λ word. word.now) words.now)) }
    ensures no_memory { IfErr result (λ e. kind_of e ≡ ErrorKind.OutOfMemory) }
{
    match five_options(alloc)?.try_get_matches_from(words) {
        Ok(matches) => Ok(Some(texts_in(&matches))),
        Err(error) if error.kind() == ErrorKind::OutOfMemory => Err(error),
        Err(_refusal) => Ok(None),
    }
}
