//! Command lines and what they ask for.
use super::{assert_equal, assert_same};
use clap::error::ErrorKind;
use mc_classes::Config;
use mc_options::{Options, Run, options};
use std::process::Abort;
use std::test::Fail;
use testlib_values::FOUR_CLASSES;

/// What words are read as, without the program's name.
fn config_of(rt: &(impl Abort + AllocGlobal), words: &[&str]) -> Result<Config, Fail> {
    let options = options(rt.alloc(), words)?;
    let config = options.run.config;
    assert_equal(
        rt,
        options,
        Options {
            run: Run {
                config,
                automove: 0,
            },
            threads: false,
        },
        "the options",
    );
    Ok(config)
}

/// An option and its value as two words, the two joined, and what is configured.
type OptionRow<'a> = (&'a str, &'a str, &'a str, Config);

const EACH_OPTION: [OptionRow<'static>; 7] = [
    (
        "--page",
        "2048",
        "--page=2048",
        Config {
            page: 2048,
            ..FOUR_CLASSES
        },
    ),
    (
        "--limit",
        "65536",
        "--limit=65536",
        Config {
            limit: 65_536,
            ..FOUR_CLASSES
        },
    ),
    (
        "--first",
        "0100",
        "--first=0100",
        Config {
            first: 100,
            ..FOUR_CLASSES
        },
    ),
    (
        "--factor",
        "5/4",
        "--factor=5/4",
        Config {
            num: 5,
            den: 4,
            ..FOUR_CLASSES
        },
    ),
    (
        "--max",
        "+1024",
        "--max=+1024",
        Config {
            max: 1024,
            ..FOUR_CLASSES
        },
    ),
    (
        "--stripes",
        "0",
        "--stripes=0",
        Config {
            stripes: 0,
            ..FOUR_CLASSES
        },
    ),
    (
        "--bulk",
        "18446744073709551615",
        "--bulk=18446744073709551615",
        Config {
            bulk: u64::MAX,
            ..FOUR_CLASSES
        },
    ),
];

/// The words configure this.
fn assert_config(
    rt: &(impl Abort + AllocGlobal),
    words: &[&str],
    config: &Config,
    what: &str,
) -> Result<(), Fail> {
    let found = config_of(rt, words)?;
    assert_equal(rt, found, *config, what);
    Ok(())
}

/// Both forms of a row configure the same.
fn assert_both_forms(rt: &(impl Abort + AllocGlobal), row: &OptionRow) -> Result<(), Fail> {
    let (name, value, joined, config) = row;
    assert_config(rt, &["mcslab", name, value], config, joined)?;
    assert_config(rt, &["mcslab", joined], config, joined)
}

/// Each row's option is read in both of its forms.
fn assert_each(rt: &(impl Abort + AllocGlobal), rows: &[OptionRow]) -> Result<(), Fail> {
    for row in rows {
        assert_both_forms(rt, row)?;
    }
    Ok(())
}

#[test]
fn reads_each_option(rt: HostRuntime) -> Result<(), Fail> {
    assert_each(&rt, &EACH_OPTION)
}

#[test]
fn reads_no_option(rt: HostRuntime) -> Result<(), Fail> {
    assert_config(&rt, &["mcslab"], &FOUR_CLASSES, "no option")?;
    assert_config(&rt, &["mcslab", "--"], &FOUR_CLASSES, "no option")
}

/// Words, the automover's mode, and whether the run has threads.
type ReadRow<'a> = (&'a [&'a str], u64, bool);

/// The words of each row are read so, with four classes.
fn assert_read(rt: &(impl Abort + AllocGlobal), rows: &[ReadRow]) -> Result<(), Fail> {
    for (words, automove, threads) in rows {
        let run = Run {
            config: FOUR_CLASSES,
            automove: *automove,
        };
        let threads = *threads;
        let found = options(rt.alloc(), words)?;
        assert_equal(rt, found, Options { run, threads }, "the options");
    }
    Ok(())
}

#[test]
fn reads_all_options(rt: HostRuntime) -> Result<(), Fail> {
    let words = [
        "mcslab",
        "--bulk=8",
        "--stripes",
        "7",
        "--automove",
        "2",
        "--max",
        "6",
        "--factor",
        "5/4",
        "--first=3",
        "--limit",
        "2",
        "--page=1",
    ];
    let config = Config {
        page: 1,
        limit: 2,
        first: 3,
        num: 5,
        den: 4,
        max: 6,
        stripes: 7,
        bulk: 8,
    };
    let run = Run {
        config,
        automove: 2,
    };
    assert_equal(
        &rt,
        options(rt.alloc(), &words)?,
        Options {
            run,
            threads: false,
        },
        "the options",
    );
    Ok(())
}

/// A factor, and what is read: 0 over 0 where it is none.
const FACTORS: [(&str, u64, u64); 13] = [
    ("5/4", 5, 4),
    ("05/04", 5, 4),
    ("99999/00000", 99_999, 0),
    ("", 0, 0),
    ("5", 0, 0),
    ("5/", 0, 0),
    ("/4", 0, 0),
    ("5/4/3", 0, 0),
    ("123456/1", 0, 0),
    ("1/123456", 0, 0),
    ("a/b", 0, 0),
    ("5 /4", 0, 0),
    ("+5/4", 0, 0),
];

#[test]
fn reads_any_factor(rt: HostRuntime) -> Result<(), Fail> {
    for (text, num, den) in &FACTORS {
        let config = config_of(&rt, &["mcslab", "--factor", text])?;
        assert_same(&rt, (config.num, config.den), (*num, *den), text);
    }
    Ok(())
}

const MODES: [ReadRow<'static>; 12] = [
    (&["mcslab"], 0, false),
    (&["mcslab", "--bulk", "64"], 0, false),
    (&["mcslab", "--automove", "0"], 0, false),
    (&["mcslab", "--automove=0"], 0, false),
    (&["mcslab", "--automove", "1"], 1, false),
    (&["mcslab", "--automove=1"], 1, false),
    (&["mcslab", "--automove", "2"], 2, false),
    (&["mcslab", "--automove=2"], 2, false),
    (&["mcslab", "--automove", "01"], 1, false),
    (&["mcslab", "--automove=+1"], 1, false),
    (&["mcslab", "--automove=2", "--stripes", "4"], 2, false),
    (&["mcslab", "--stripes=4", "--automove", "+002"], 2, false),
];

#[test]
fn reads_the_mode_of_the_automover(rt: HostRuntime) -> Result<(), Fail> {
    assert_read(&rt, &MODES)
}

const THREADS: [ReadRow<'static>; 8] = [
    (&["mcslab"], 0, false),
    (&["--threads"], 0, false),
    (&["mcslab", "--bulk", "64"], 0, false),
    (&["mcslab", "--threads"], 0, true),
    (&["mcslab", "--threads", "--bulk", "64"], 0, true),
    (
        &["mcslab", "--stripes=4", "--threads", "--bulk", "64"],
        0,
        true,
    ),
    (&["mcslab", "--stripes", "4", "--threads"], 0, true),
    (&["mcslab", "--threads", "--"], 0, true),
];

#[test]
fn reads_the_flag_of_the_threads(rt: HostRuntime) -> Result<(), Fail> {
    assert_read(&rt, &THREADS)?;
    let config = config_of(&rt, &["mcslab", "--factor=--threads"])?;
    assert_same(
        &rt,
        (config.num, config.den),
        (0, 0),
        "a value that is spelled as the flag",
    );
    Ok(())
}

/// The text that words are refused with, and none where they are taken.
fn text_of(rt: &impl AllocGlobal, words: &[&str]) -> Result<String, Fail> {
    match options(rt.alloc(), words) {
        Ok(_) => Ok(String::new(rt.alloc())),
        Err(error) => Ok(format!(in rt.alloc(); "{error}")?),
    }
}

/// Parts of the help's text about the flag.
const HELP: [&str; 3] = [
    "[OPTIONS]",
    "  --threads  ",
    "run in threads of their own; default off",
];

#[test]
fn tells_the_flag_of_the_threads(rt: HostRuntime) -> Result<(), Fail> {
    let text = text_of(&rt, &["mcslab", "--help"])?;
    for part in &HELP {
        assert_same(&rt, (*part, text.contains(part)), (*part, true), &text);
    }
    Ok(())
}

/// The kind of the error that words are refused with.
fn refusal_of(rt: &impl AllocGlobal, words: &[&str]) -> Result<Option<ErrorKind>, Fail> {
    match options(rt.alloc(), words) {
        Ok(_) => Ok(None),
        Err(error) if error.kind() == ErrorKind::OutOfMemory => Err(Fail::from(error)),
        Err(error) => Ok(Some(error.kind())),
    }
}

/// Words, and the kind of their refusal.
const REFUSED: [(&[&str], ErrorKind); 27] = [
    (&["mcslab", "--page"], ErrorKind::InvalidValue),
    (&["mcslab", "--page", "--max", "8"], ErrorKind::InvalidValue),
    (&["mcslab", "--page", "x"], ErrorKind::ValueValidation),
    (&["mcslab", "--page="], ErrorKind::ValueValidation),
    (
        &["mcslab", "--page", "18446744073709551616"],
        ErrorKind::ValueValidation,
    ),
    (&["mcslab", "--page", "-1"], ErrorKind::UnknownArgument),
    (
        &["mcslab", "--page", "1", "--page=2"],
        ErrorKind::ArgumentConflict,
    ),
    (&["mcslab", "--automove"], ErrorKind::InvalidValue),
    (&["mcslab", "--automove", "3"], ErrorKind::ValueValidation),
    (&["mcslab", "--automove=3"], ErrorKind::ValueValidation),
    (
        &["mcslab", "--automove", "18446744073709551615"],
        ErrorKind::ValueValidation,
    ),
    (&["mcslab", "--automove", "x"], ErrorKind::ValueValidation),
    (&["mcslab", "--automove", ""], ErrorKind::ValueValidation),
    (&["mcslab", "--automove="], ErrorKind::ValueValidation),
    (
        &["mcslab", "--automove", "1", "--automove=1"],
        ErrorKind::ArgumentConflict,
    ),
    (&["mcslab", "--threads=x"], ErrorKind::TooManyValues),
    (&["mcslab", "--threads="], ErrorKind::TooManyValues),
    (&["mcslab", "--threads", "true"], ErrorKind::UnknownArgument),
    (
        &["mcslab", "--threads", "--page=8", "--threads"],
        ErrorKind::ArgumentConflict,
    ),
    (&["mcslab", "--", "--threads"], ErrorKind::UnknownArgument),
    (&["mcslab", "--page", "--threads"], ErrorKind::InvalidValue),
    (&["mcslab", "--thread"], ErrorKind::UnknownArgument),
    (&["mcslab", "--threads", "--help"], ErrorKind::DisplayHelp),
    (&["mcslab", "--bogus"], ErrorKind::UnknownArgument),
    (&["mcslab", "stray"], ErrorKind::UnknownArgument),
    (&["mcslab", "--", "stray"], ErrorKind::UnknownArgument),
    (&["mcslab", "--page", "8", "--help"], ErrorKind::DisplayHelp),
];

#[test]
fn refuses_other_words(rt: HostRuntime) -> Result<(), Fail> {
    for (words, kind) in &REFUSED {
        let found = refusal_of(&rt, words)?;
        assert_same(&rt, found, Some(*kind), "the kind of the refusal");
    }
    Ok(())
}
