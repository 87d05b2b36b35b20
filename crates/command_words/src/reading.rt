ghost use Rattle.std.specs.Prelude.{◌≡◌, IfOk, codes, false, map, option_and_then, string_bytes};
ghost use Rattle.clap.specs.Words.{app_of, found_of, rows_of, rule_of, subcommand_rows_of, with_subcommand};
ghost use Rattle.command_words.specs.Words.{answer_of, command_of, flag_rule, format_at, format_named, given_at, given_rule, is_set};
ghost use Rattle.command_words.specs.Words.{named, number_at, number_rule, options_of, stream_app, stream_of, vp9dec_app, word_rule};

use crate::{Command, DecodeOptions, MadeStream};
use clap::error::ErrorKind;
use clap::{Arg, ArgAction, ArgMatches, Error, value_parser};
use frame_output::Format;
use std::alloc::{AllocError, Global};

/// How many workers there are, and how many frames under way, where nothing is said.
const USUAL_WORKERS: &str = "4";

const USUAL_WINDOW: &str = "4";

const USUAL_FORMAT: &str = "raw";

fn plain_option<'a>(alloc: Global) -> Arg<'a>
    ensures rule { rule_of result ≡ flag_rule (codes "plain") }
    ensures own { result.global ≡ false }
{
    Arg::new(alloc, "plain")
        .long("plain")
        .action(ArgAction::SetTrue)
}

fn workers_option<'a>(alloc: Global) -> Arg<'a>
    ensures rule { rule_of result ≡ number_rule (codes "workers") 1 64 (codes "4") }
    ensures own { result.global ≡ false }
{
    let workers = value_parser!(u8).range(1..=64);
    Arg::new(alloc, "workers")
        .long("workers")
        .value_parser(workers)
        .default_value(USUAL_WORKERS)
}

fn window_option<'a>(alloc: Global) -> Arg<'a>
    ensures rule { rule_of result ≡ number_rule (codes "window") 2 16 (codes "4") }
    ensures own { result.global ≡ false }
{
    let frames = value_parser!(u8).range(2..=16);
    Arg::new(alloc, "window")
        .long("window")
        .value_parser(frames)
        .default_value(USUAL_WINDOW)
}

// Any word is taken here: `format_named` tells which are formats.
fn format_option<'a>(alloc: Global) -> Arg<'a>
    ensures rule { rule_of result ≡ word_rule (codes "format") (codes "raw") }
    ensures own { result.global ≡ false }
{
    Arg::new(alloc, "format")
        .long("format")
        .default_value(USUAL_FORMAT)
}

fn number_word<'a>(alloc: Global) -> Arg<'a>
    ensures rule { rule_of result ≡ given_rule (codes "number") 0 4294967295 }
    ensures own { result.global ≡ false }
{
    Arg::new(alloc, "number")
        .required(true)
        .value_parser(value_parser!(u32))
}

fn frames_word<'a>(alloc: Global) -> Arg<'a>
    ensures rule { rule_of result ≡ given_rule (codes "frames") 1 1000 }
    ensures own { result.global ≡ false }
{
    let frames = value_parser!(u32).range(1..=1000);
    Arg::new(alloc, "frames")
        .required(true)
        .value_parser(frames)
}

/// The program with one command more, which is told which stream is made.
fn with_stream_command<'a>(
    alloc: Global,
    program: clap::Command<'a>,
    name: &'a str,
) -> Result<clap::Command<'a>, AllocError>
    ensures { IfOk result (λ more. app_of more ≡ with_subcommand (app_of program.entry) (stream_app name.now).top) }
{
    let command = clap::Command::new(alloc, name)
        .arg(number_word(alloc))?
        .arg(frames_word(alloc))?;
    program.subcommand(command)
}

/// The program and its commands, as the parser is told of them.
fn vp9dec<'a>(alloc: Global) -> Result<clap::Command<'a>, AllocError>
    ensures { IfOk result (λ program. app_of program ≡ vp9dec_app) }
{
    let list = clap::Command::new(alloc, "list");
    let decode = clap::Command::new(alloc, "decode")
        .arg(plain_option(alloc))?
        .arg(workers_option(alloc))?
        .arg(window_option(alloc))?
        .arg(format_option(alloc))?;
    let program = clap::Command::new(alloc, "vp9dec")
        .subcommand_required(true)
        .subcommand(list)?
        .subcommand(decode)?;
    let program = with_stream_command(alloc, program, "make")?;
    with_stream_command(alloc, program, "trial")
}

fn flag(matches: &ArgMatches<'_>, id: &str) -> bool
    ensures { result ≡ is_set id.now (rows_of (found_of matches.now)) }
{
    matches.get_one::<bool>(id).unwrap_or(false)
}

fn number(matches: &ArgMatches<'_>, id: &str) -> u8
    ensures { result ≡ number_at id.now (rows_of (found_of matches.now)) }
{
    matches.get_one::<u8>(id).unwrap_or(0)
}

fn given(matches: &ArgMatches<'_>, id: &str) -> u32
    ensures { result ≡ given_at id.now (rows_of (found_of matches.now)) }
{
    matches.get_one::<u32>(id).unwrap_or(0)
}

fn format_named(word: &str) -> Option<Format>
    ensures { result ≡ format_named word.now }
{
    match word {
        "raw" => Some(Format::Raw),
        "md5" => Some(Format::Md5),
        "y4m" => Some(Format::Y4m),
        _ => None,
    }
}

fn format_in(matches: &ArgMatches<'_>) -> Option<Format>
    ensures { result ≡ format_at (rows_of (found_of matches.now)) }
{
    format_named(matches.get_str("format")?)
}

fn options_in(matches: &ArgMatches<'_>) -> Option<DecodeOptions>
    ensures { result ≡ options_of (rows_of (found_of matches.now)) }
{
    let format = format_in(matches)?;
    Some(DecodeOptions {
        plain: flag(matches, "plain"),
        workers: number(matches, "workers"),
        window: number(matches, "window"),
        format,
    })
}

fn stream_in(matches: &ArgMatches<'_>) -> MadeStream
    ensures { result ≡ stream_of (rows_of (found_of matches.now)) }
{
    MadeStream {
        number: given(matches, "number"),
        frames: given(matches, "frames"),
    }
}

/// The command that a parse entered.
fn command_in(matches: &ArgMatches<'_>) -> Option<Command>
    ensures { result ≡ option_and_then named (subcommand_rows_of matches.now) }
{
    match matches.subcommand() {
        Some(("list", _)) => Some(Command::List),
        Some(("decode", options)) => Some(Command::Decode(options_in(options)?)),
        Some(("make", words)) => Some(Command::Make(stream_in(words))),
        Some(("trial", words)) => Some(Command::Trial(stream_in(words))),
        _ => None,
    }
}

/// What a parse comes to.
fn answer(parsed: Result<ArgMatches<'_>, Error>) -> Result<Option<Command>, AllocError>
    ensures { result ≡ answer_of parsed.entry }
{
    match parsed {
        Ok(matches) => Ok(command_in(&matches)),
        Err(error) => match error.kind() {
            ErrorKind::OutOfMemory => Err(AllocError),
            _ => Ok(None),
        },
    }
}

/// The command that the words ask for, the program's name first. Nothing is printed: a call for help or for the
/// version is no command, as is any fault of the words. The `Err` is want of memory.
pub fn read_words(alloc: Global, words: &[String]) -> Result<Option<Command>, AllocError>
    ensures { IfOk result (λ command. command ≡ command_of (map string_bytes words.now)) }
{
    let program = vp9dec(alloc)?;
    answer(program.try_get_matches_from(words))
}
