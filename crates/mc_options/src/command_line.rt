//! The options of `mcslab` as clap gets them, and `options`, which reads the words.
ghost use Rattle.std.specs.Prelude.{◌≡◌, ◌≤◌, IfErr, IfOk, IfSome, codes, drop, false, map};
ghost use Rattle.std.specs.Str.{all_ascii_digits};
ghost use Rattle.clap.specs.Words.{app_of, first_value, found_of, kind_of, one_text, rule_of};
ghost use Rattle.mc_options.specs.CommandLine.{automove_rule, factor_rule, mcslab, number_rule, threads_rule};
ghost use Rattle.mc_options.specs.Options.{IsCommandLine, IsNumber, factor_of, factor_or, is_short_number, number_or, options_of, short_number_of};

use crate::settings::{Options, Run};
use clap::error::ErrorKind;
use clap::{Arg, ArgAction, ArgMatches, Command, Error, value_parser};
use mc_classes::Config;
use std::alloc::{AllocError, Global};
use std::convert::AsStr;

/// The help's text about the program.
const ABOUT: &str =
    "Runs a script on a slab memory: commands from standard input, replies to standard output";

/// The help's texts about the options whose values are numbers.
const PAGE_HELP: &str = "Bytes of a page; default 1024, a multiple of 8 from 64 to 16384";

const LIMIT_HELP: &str =
    "Bytes of pages, but for the first ones of classes; default 4096, room for 1 to 64 pages";

const FIRST_HELP: &str = "Bytes that the first class begins with; default 48, from 24 to a page";

const MAX_HELP: &str =
    "Bytes of a chunk of the last class; default 512, a multiple of 8 from the first size to a page";

const STRIPES_HELP: &str = "Number of item locks; default 4, from 1 to 64";

const BULK_HELP: &str = "Chunks that the mover looks at in a turn; default 64, from 1 to 256";

/// An option whose value is a number.
fn number_option<'a>(alloc: Global, name: &'a str, help: &'a str) -> Arg<'a>
    ensures rule { rule_of result ≡ number_rule name.now }
    ensures local { result.global ≡ false }
{
    Arg::new(alloc, name)
        .long(name)
        .value_name("N")
        .value_parser(value_parser!(u64))
        .help(help)
}

/// The option of the growth factor. Any value is taken, so that the configuration's own test refuses it.
fn factor_option<'a>(alloc: Global) -> Arg<'a>
    ensures rule { rule_of result ≡ factor_rule }
    ensures local { result.global ≡ false }
{
    Arg::new(alloc, "factor")
        .long("factor")
        .value_name("NUM/DEN")
        .help(
            "Growth from class to class, a ratio of two numbers of 1 to 5 digits; default 2/1, above 1, NUM up to 65535",
        )
}

/// The option of the automover's mode.
fn automove_option<'a>(alloc: Global) -> Arg<'a>
    ensures rule { rule_of result ≡ automove_rule }
    ensures local { result.global ≡ false }
{
    number_option(
        alloc,
        "automove",
        "Mode of the automover: 0 is off, 1 acts on windows, 2 on evictions; default 0",
    )
    .value_parser(value_parser!(u64).range(0..=2))
}

/// The flag of the threads.
fn threads_option<'a>(alloc: Global) -> Arg<'a>
    ensures rule { rule_of result ≡ threads_rule }
    ensures local { result.global ≡ false }
{
    Arg::new(alloc, "threads")
        .long("threads")
        .action(ArgAction::SetTrue)
        .help("Workers and the mover run in threads of their own; default off")
}

/// The command line's options, in the order that the help has them in.
fn command<'a>(alloc: Global) -> Result<Command<'a>, AllocError>
    ensures { IfOk result (λ command. app_of command ≡ mcslab) }
{
    let options = vec![in alloc;
        number_option(alloc, "page", PAGE_HELP),
        number_option(alloc, "limit", LIMIT_HELP),
        number_option(alloc, "first", FIRST_HELP),
        factor_option(alloc),
        number_option(alloc, "max", MAX_HELP),
        number_option(alloc, "stripes", STRIPES_HELP),
        number_option(alloc, "bulk", BULK_HELP),
        automove_option(alloc),
        threads_option(alloc),
    ]?;
    Command::new(alloc, "mcslab").about(ABOUT).args(options)
}

/// The number of an option, or what it is where it isn't named.
fn number_or(matches: &ArgMatches<'_>, name: &str, default: u64) -> u64
    requires { IfSome (one_text (found_of matches.now) name.now) IsNumber }
    ensures { result ≡ number_or default (one_text (found_of matches.now) name.now) }
{
    matches.get_one::<u64>(name).unwrap_or(default)
}

/// Whether every byte is a decimal digit.
fn is_decimal(digits: &[u8]) -> bool
    ensures { result ≡ all_ascii_digits digits.now }
{
    digits.iter().all(|digit| digit.is_ascii_digit())
}

/// Whether a text is 1 to 5 decimal digits.
fn is_short_number(text: &str) -> bool
    ensures { result ≡ is_short_number text.now }
{
    1 <= text.len() && text.len() <= 5 && is_decimal(text.as_bytes())
}

/// The number that such a text writes.
fn short_number(text: &str) -> Option<u64>
    ensures { result ≡ short_number_of text.now }
{
    if is_short_number(text) {
        text.parse().ok()
    } else {
        None
    }
}

/// Two such numbers with a `/` between them, and 0 and 0 for any other text.
fn factor(text: &str) -> (u64, u64)
    ensures { result ≡ factor_of text.now }
{
    let Some((num, den)) = text.split_once('/') else {
        return (0, 0);
    };
    match (short_number(num), short_number(den)) {
        (Some(num), Some(den)) => (num, den),
        _ => (0, 0),
    }
}

/// The growth factor, or 2/1 where it isn't named.
fn factor_or_default(matches: &ArgMatches<'_>) -> (u64, u64)
    ensures { result ≡ factor_or (first_value (found_of matches.now) (codes "factor")) }
{
    match matches.get_str("factor") {
        Some(text) => factor(text),
        None => (2, 1),
    }
}

/// Reads the words of a command line, of which the first is the program's name.
pub fn options<S: AsStr>(alloc: Global, words: &[S]) -> Result<Options, Error>
    ensures taken { IfOk result (λ options. options ≡ options_of (drop 1 (map S.text words.now))) }
    ensures mode { IfOk result (λ options. options.run.automove ≤ 2) }
    ensures refused { IfErr result (λ error. IsCommandLine (drop 1 (map S.text words.now)) →
        kind_of error ≡ ErrorKind.OutOfMemory) }
{
    let matches = command(alloc)?.try_get_matches_from(words)?;
    let (num, den) = factor_or_default(&matches);
    let config = Config {
        page: number_or(&matches, "page", 1024),
        limit: number_or(&matches, "limit", 4096),
        first: number_or(&matches, "first", 48),
        num,
        den,
        max: number_or(&matches, "max", 512),
        stripes: number_or(&matches, "stripes", 4),
        bulk: number_or(&matches, "bulk", 64),
    };
    Ok(Options {
        run: Run {
            config,
            automove: number_or(&matches, "automove", 0),
        },
        threads: matches.get_flag("threads"),
    })
}
