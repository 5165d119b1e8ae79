//! What is wrong with the options and the script, in words, and what would be right.
ghost use Rattle.std.specs.Prelude.{◌≡◌, ◌≢◌, ◌<◌, ◌^◌, None, IfErr, IfOk, IfSome, OnOk};
ghost use Rattle.std.specs.Str.Lines.{lines};
ghost use Rattle.mc_classes.specs.Refusals.{config_refusal};
ghost use Rattle.mcmap.specs.Checked.{IsAcceptedScript, IsRefusalOf, wrong_count};

use crate::fault::Fault;
use crate::lines::{reason_of, write_wrong};
use mc_classes::Config;
use mc_map::{ConfigError, ScriptError, read_script};
use mc_script::lines::Lines;
use mc_script::number::number;
use std::alloc::{AllocError, Global};
use std::fmt::Write;

/// Adds what is wrong with the options, of which these are the words: the first test that refuses them.
pub fn check_options(config: &Config, words: &[String], text: &mut String) -> Result<(), Fault>
    ensures accepted { OnOk result (config_refusal config.now ≡ None) }
{
    match config.test() {
        Ok(()) => Ok(()),
        Err(error) => {
            write_refusal(error, config, words, text)?;
            Err(Fault::WrongOptions)
        }
    }
}

/// Adds why a configuration is refused.
fn write_refusal(
    error: ConfigError,
    config: &Config,
    words: &[String],
    text: &mut String,
) -> Result<(), AllocError> {
    match (&error, factor_of(words)) {
        (ConfigError::Factor, Some(factor)) if config.den == 0 => write_factor(factor, text),
        _ => {
            let (option, value) = option_of(&error, config);
            writeln!(text, "{option}: {value}: {error}")
        }
    }
}

/// The option that a refusal is about, and its value.
fn option_of(error: &ConfigError, config: &Config) -> (&'static str, u64) {
    match error {
        ConfigError::PageSize | ConfigError::NoMemory(_) => ("--page", config.page),
        ConfigError::FirstSize | ConfigError::TooManyChunks => ("--first", config.first),
        ConfigError::Factor => ("--factor", config.num),
        ConfigError::ChunkMax => ("--max", config.max),
        ConfigError::Limit => ("--limit", config.limit),
        ConfigError::Stripes => ("--stripes", config.stripes),
        ConfigError::Bulk => ("--bulk", config.bulk),
    }
}

/// The text of the factor, if the words name it.
fn factor_of(words: &[String]) -> Option<&str> {
    for place in 0..words.len() {
        let word = words[place].as_str();
        if word == "--factor" {
            return words.get(place + 1).map(|value| value.as_str());
        }
        if let Some(value) = word.strip_prefix("--factor=") {
            return Some(value);
        }
    }
    None
}

/// Adds that a factor isn't written as a ratio, and how it would be.
fn write_factor(factor: &str, text: &mut String) -> Result<(), AllocError> {
    write!(text, "--factor: {factor} isn't NUM/DEN")?;
    if let Some((num, den)) = ratio_of(factor) {
        write!(text, "; write {num}/{den}")?;
    }
    text.push_str("\n")
}

/// The ratio of a number above 1 with up to four decimals, in lowest terms.
fn ratio_of(decimal: &str) -> Option<(u64, u64)> {
    let (whole, part) = match decimal.split_once('.') {
        Some((whole, part)) => (short_number(whole)?, part),
        None => (short_number(decimal)?, "0"),
    };
    let den = power_of_ten(part.len())?;
    let num = whole * den + short_number(part)?;
    let (num, den) = divided(num, den, 2);
    let (num, den) = divided(num, den, 5);
    if den < num && num <= 65_535 {
        Some((num, den))
    } else {
        None
    }
}

/// The number that a text writes, if it is below 2^16.
fn short_number(text: &str) -> Option<u64>
    ensures { IfSome result (λ n. n < 2 ^ 16) }
{
    match number(text.as_bytes()) {
        Some(number) if number < 65_536 => Some(number),
        _ => None,
    }
}

/// 10 to this power, if that is at most 4.
fn power_of_ten(power: usize) -> Option<u64>
    ensures { IfSome result (λ n. n < 2 ^ 16) }
{
    match power {
        1 => Some(10),
        2 => Some(100),
        3 => Some(1000),
        4 => Some(10_000),
        _ => None,
    }
}

/// Two numbers divided by this one, up to four times, as long as it divides both.
fn divided(num: u64, den: u64, by: u64) -> (u64, u64)
    requires { 0 < by }
{
    let (mut num, mut den) = (num, den);
    for _ in 0..4 {
        if num % by == 0 && den % by == 0 {
            num /= by;
            den /= by;
        }
    }
    (num, den)
}

/// Adds what is wrong with each line of the script, by its number, or that nothing is.
pub fn check_script(alloc: Global, bytes: &[u8], text: &mut String) -> Result<(), Fault>
    ensures accepted { OnOk result (IsAcceptedScript bytes.now) }
    ensures refused { IfErr result (λ fault. fault ≢ Fault.Memory → IsRefusalOf bytes.now fault) }
{
    match read_script(alloc, bytes) {
        Ok(_script) => Ok(text.push_str("nothing is wrong\n")?),
        Err(ScriptError::Line(_)) => {
            let wrong = write_lines(alloc, bytes, text)?;
            Err(Fault::WrongLines(wrong))
        }
        Err(ScriptError::NoMemory(_)) => Err(Fault::Memory),
    }
}

/// Adds what is wrong with each line, and returns with how many something is.
fn write_lines(alloc: Global, bytes: &[u8], text: &mut String) -> Result<u64, Fault>
    ensures count { IfOk result (λ wrong. wrong ≡ wrong_count (lines bytes.now)) }
    ensures memory { IfErr result (λ fault. fault ≡ Fault.Memory) }
{
    let mut number: u64 = 0;
    let mut wrong: u64 = 0;
    for line in Lines::new(bytes) {
        number += 1;
        if let Some(found) = reason_of(alloc, line)? {
            write_wrong(number, found.word, found.reason, text)?;
            wrong += 1;
        }
    }
    Ok(wrong)
}
