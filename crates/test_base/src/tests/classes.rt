//! Class tables: their sizes, the class of an item, and which configurations are refused.
mod vectors;

use super::assert_same;
use mc_classes::{ClassId, ClassTable, Config, ConfigError};
use std::alloc::Global;
use std::process::Abort;
use std::test::Fail;
use testlib_values::{FOUR_CLASSES, too_much};
use vectors::{FAMILIES, Family, Printed};

/// Sixty-two classes of 504 bytes and one of 512.
const SIXTY_THREE: Config = Config {
    first: 500,
    num: 1001,
    den: 1000,
    ..FOUR_CLASSES
};

/// The classes are these, with as many chunks as fit in a page.
fn assert_classes(rt: &impl Abort, table: &ClassTable, sizes: &[u64], name: &str) {
    assert!(rt; table.count() == sizes.len() as u64, "{name}");
    for (place, size) in sizes.iter().enumerate() {
        let class = place as u64 + 1;
        assert_same(rt, table.size(class), *size, name);
        let chunks = table.page().checked_div(*size);
        assert_same(rt, Some(table.per_page(class)), chunks, name);
    }
}

/// A configuration, its sizes, and how many chunks a page has of each.
type SizesRow<'a> = (&'a str, Config, &'a [u64], &'a [u64]);

const SIZES: [SizesRow<'static>; 4] = [
    (
        "four classes",
        FOUR_CLASSES,
        &[48, 96, 192, 512],
        &[21, 10, 5, 2],
    ),
    (
        "fine factor",
        Config {
            num: 5,
            den: 4,
            ..FOUR_CLASSES
        },
        &[48, 64, 80, 104, 136, 176, 224, 280, 352, 512],
        &[21, 16, 12, 9, 7, 5, 4, 3, 2, 2],
    ),
    (
        "one class",
        Config {
            first: 400,
            ..FOUR_CLASSES
        },
        &[512],
        &[2],
    ),
    (
        "256 chunks",
        Config {
            page: 16384,
            limit: 65536,
            first: 64,
            ..FOUR_CLASSES
        },
        &[64, 128, 512],
        &[256, 128, 32],
    ),
];

/// A page has this many chunks of each class.
fn assert_chunks(rt: &impl Abort, table: &ClassTable, chunks: &[u64], name: &str) {
    for (place, count) in chunks.iter().enumerate() {
        assert!(rt; (place as u64) < table.count());
        assert_same(rt, table.per_page(place as u64 + 1), *count, name);
    }
}

/// The table of the row's configuration has four pages, and the row's sizes and chunks.
fn assert_table(rt: &impl Abort, table: &ClassTable, row: &SizesRow) {
    let (name, config, sizes, chunks) = row;
    assert_classes(rt, table, sizes, name);
    assert_same(
        rt,
        (table.page(), table.limit()),
        (config.page, config.limit),
        name,
    );
    assert_same(
        rt,
        (table.pages(), table.arena_pages()),
        (4, 4 + table.count()),
        name,
    );
    assert_chunks(rt, table, chunks, name);
}

#[test]
fn sizes_and_chunks(rt: HostRuntime) -> Result<(), Fail> {
    for row in &SIZES {
        let table = ClassTable::build(rt.alloc(), &row.1)?;
        assert_table(&rt, &table, row);
    }
    Ok(())
}

#[test]
fn sixty_three_classes(rt: HostRuntime) -> Result<(), Fail> {
    let table = ClassTable::build(rt.alloc(), &SIXTY_THREE)?;
    assert!(rt; table.count() == 63);
    for class in 1..63 {
        assert_same(
            &rt,
            table.size(class),
            504,
            "the size of a class before the last",
        );
    }
    assert_same(&rt, table.size(63), 512, "the last size");
    Ok(())
}

/// By the table of the configuration, an item of n bytes goes to this class.
fn assert_class_for(
    rt: &impl Abort,
    alloc: Global,
    config: &Config,
    rows: &[(u64, Option<ClassId>)],
    name: &str,
) -> Result<(), Fail> {
    let table = ClassTable::build(alloc, config)?;
    for (bytes, class) in rows {
        let found = (*bytes, table.class_for(*bytes));
        assert_same(rt, found, (*bytes, *class), name);
    }
    Ok(())
}

/// The bytes of an item, and its class of four.
const OF_FOUR: [(u64, Option<ClassId>); 10] = [
    (0, Some(1)),
    (48, Some(1)),
    (49, Some(2)),
    (96, Some(2)),
    (97, Some(3)),
    (192, Some(3)),
    (193, Some(4)),
    // 61 words
    (512, Some(4)),
    (520, None),
    (u64::MAX, None),
];

/// Where items of these bytes go in a table of sixty-three classes.
const OF_SIXTY_THREE: [(u64, Option<ClassId>); 4] = [
    (504, Some(1)),
    (505, Some(63)),
    (512, Some(63)),
    (513, None),
];

#[test]
fn class_of_an_item(rt: HostRuntime) -> Result<(), Fail> {
    let alloc = rt.alloc();
    assert_class_for(&rt, alloc, &FOUR_CLASSES, &OF_FOUR, "of four")?;
    assert_class_for(&rt, alloc, &SIXTY_THREE, &OF_SIXTY_THREE, "of sixty-three")
}

/// What the table of the family has with this factor.
fn config_of(family: &Family, (num, den): (u64, u64)) -> Config {
    Config {
        page: family.page,
        limit: family.page,
        first: family.first,
        num,
        den,
        max: family.max,
        ..FOUR_CLASSES
    }
}

/// The table of the configuration has these sizes.
fn assert_built(
    rt: &impl Abort,
    alloc: Global,
    config: &Config,
    sizes: &[u64],
    name: &str,
) -> Result<(), Fail> {
    let table = ClassTable::build(alloc, config)?;
    assert_classes(rt, &table, sizes, name);
    Ok(())
}

/// The table has the sizes that were printed.
fn assert_printed(
    rt: &impl Abort,
    alloc: Global,
    family: &Family,
    printed: &Printed,
) -> Result<(), Fail> {
    let (factor, lowest, sizes) = printed;
    let options = family.options;
    let name = format!(in alloc; "-f {factor} {options}")?;
    let config = config_of(family, *lowest);
    assert_built(rt, alloc, &config, sizes, &name)
}

/// Each table of the family has the sizes that were printed; with an -f of 1.001 it has 62 classes of one size, and the 63rd.
fn assert_family(rt: &impl Abort, alloc: Global, family: &Family) -> Result<(), Fail> {
    if let Some(size) = family.alike {
        let mut sizes = [size; 63];
        sizes[62] = family.max;
        let printed = ("1.001", (1001, 1000), sizes.as_slice());
        assert_printed(rt, alloc, family, &printed)?;
    }
    for printed in family.printed {
        assert_printed(rt, alloc, family, printed)?;
    }
    Ok(())
}

#[test]
fn sizes_that_memcached_printed(rt: HostRuntime) -> Result<(), Fail> {
    for family in &FAMILIES {
        assert_family(&rt, rt.alloc(), family)?;
    }
    Ok(())
}

/// The configuration is refused, with the error of this number.
fn assert_refused(rt: &impl Abort, alloc: Global, name: &str, config: &Config, number: u64) {
    let found = ClassTable::build(alloc, config).err();
    let found = found.map(|error| error.number());
    assert_same(rt, found, Some(number), name);
}

/// Pages of 16,384 bytes, with too many chunks.
const LARGEST_PAGES: Config = Config {
    page: 16384,
    limit: 65536,
    ..FOUR_CLASSES
};

const ALL_ZERO: Config = Config {
    page: 0,
    limit: 0,
    first: 0,
    num: 0,
    den: 0,
    max: 0,
    stripes: 0,
    bulk: 0,
};

/// A configuration, and the number of its refusal.
const REFUSED: [(&str, Config, u64); 34] = [
    // each configuration fails one test
    (
        "page 1028",
        Config {
            page: 1028,
            ..FOUR_CLASSES
        },
        1,
    ),
    (
        "page 56, limit 56, max 56",
        Config {
            page: 56,
            limit: 56,
            max: 56,
            ..FOUR_CLASSES
        },
        1,
    ),
    (
        "page 16392, limit 16392, first 72",
        Config {
            page: 16392,
            limit: 16392,
            first: 72,
            ..FOUR_CLASSES
        },
        1,
    ),
    (
        "first 23",
        Config {
            first: 23,
            ..FOUR_CLASSES
        },
        2,
    ),
    (
        "den 0",
        Config {
            den: 0,
            ..FOUR_CLASSES
        },
        3,
    ),
    (
        "num 1",
        Config {
            num: 1,
            ..FOUR_CLASSES
        },
        3,
    ),
    (
        "num 65536",
        Config {
            num: 65536,
            ..FOUR_CLASSES
        },
        3,
    ),
    (
        "max 508",
        Config {
            max: 508,
            ..FOUR_CLASSES
        },
        4,
    ),
    (
        "max 40",
        Config {
            max: 40,
            ..FOUR_CLASSES
        },
        4,
    ),
    (
        "max 1032",
        Config {
            max: 1032,
            ..FOUR_CLASSES
        },
        4,
    ),
    (
        "limit 1023",
        Config {
            limit: 1023,
            ..FOUR_CLASSES
        },
        5,
    ),
    (
        "limit 66560",
        Config {
            limit: 66560,
            ..FOUR_CLASSES
        },
        5,
    ),
    (
        "stripes 0",
        Config {
            stripes: 0,
            ..FOUR_CLASSES
        },
        6,
    ),
    (
        "stripes 65",
        Config {
            stripes: 65,
            ..FOUR_CLASSES
        },
        6,
    ),
    ("the largest pages", LARGEST_PAGES, 7),
    (
        "bulk 0",
        Config {
            bulk: 0,
            ..FOUR_CLASSES
        },
        8,
    ),
    (
        "bulk 257",
        Config {
            bulk: 257,
            ..FOUR_CLASSES
        },
        8,
    ),
    // of several tests that fail, the first is returned
    ("all zero", ALL_ZERO, 1),
    (
        "all zero but page 1024",
        Config {
            page: 1024,
            ..ALL_ZERO
        },
        2,
    ),
    (
        "all zero but page 1024, first 48",
        Config {
            page: 1024,
            first: 48,
            ..ALL_ZERO
        },
        3,
    ),
    (
        "the largest pages, max 0, limit 0, stripes 0, bulk 0",
        Config {
            max: 0,
            limit: 0,
            stripes: 0,
            bulk: 0,
            ..LARGEST_PAGES
        },
        4,
    ),
    (
        "the largest pages, limit 0, stripes 0, bulk 0",
        Config {
            limit: 0,
            stripes: 0,
            bulk: 0,
            ..LARGEST_PAGES
        },
        5,
    ),
    (
        "the largest pages, stripes 0, bulk 0",
        Config {
            stripes: 0,
            bulk: 0,
            ..LARGEST_PAGES
        },
        6,
    ),
    (
        "the largest pages, bulk 0",
        Config {
            bulk: 0,
            ..LARGEST_PAGES
        },
        7,
    ),
    // no number is too large for the tests
    (
        "page 2^64 - 1",
        Config {
            page: u64::MAX,
            ..FOUR_CLASSES
        },
        1,
    ),
    (
        "page 2^64 - 8",
        Config {
            page: u64::MAX - 7,
            ..FOUR_CLASSES
        },
        1,
    ),
    (
        "limit 2^64 - 1",
        Config {
            limit: u64::MAX,
            ..FOUR_CLASSES
        },
        5,
    ),
    (
        "first 2^64 - 1",
        Config {
            first: u64::MAX,
            ..FOUR_CLASSES
        },
        2,
    ),
    (
        "num 2^64 - 1",
        Config {
            num: u64::MAX,
            ..FOUR_CLASSES
        },
        3,
    ),
    (
        "num 2^64 - 1, den 2^64 - 2",
        Config {
            num: u64::MAX,
            den: u64::MAX - 1,
            ..FOUR_CLASSES
        },
        3,
    ),
    (
        "den 2^64 - 1",
        Config {
            den: u64::MAX,
            ..FOUR_CLASSES
        },
        3,
    ),
    (
        "max 2^64 - 8",
        Config {
            max: u64::MAX - 7,
            ..FOUR_CLASSES
        },
        4,
    ),
    (
        "stripes 2^64 - 1",
        Config {
            stripes: u64::MAX,
            ..FOUR_CLASSES
        },
        6,
    ),
    (
        "bulk 2^64 - 1",
        Config {
            bulk: u64::MAX,
            ..FOUR_CLASSES
        },
        8,
    ),
];

#[test]
fn refusals(rt: HostRuntime) {
    for (name, config, number) in &REFUSED {
        assert_refused(&rt, rt.alloc(), name, config, *number);
    }
}

const LEAST: Config = Config {
    page: 64,
    limit: 64,
    first: 24,
    num: 65535,
    den: 65534,
    max: 64,
    stripes: 1,
    bulk: 1,
};

const GREATEST: Config = Config {
    page: 16384,
    limit: 1_064_959,
    first: 16384,
    num: 65535,
    den: 1,
    max: 16384,
    stripes: 64,
    bulk: 256,
};

/// The least numbers are accepted.
fn assert_least(rt: &impl Abort, alloc: Global) -> Result<(), Fail> {
    let table = ClassTable::build(alloc, &LEAST)?;
    let pages = (table.pages(), table.arena_pages());
    assert_same(rt, pages, (1, 1 + table.count()), "the least limit");
    assert_same(rt, table.class_for(24), Some(1), "the least size");
    assert_same(rt, table.class_for(64), Some(table.count()), "the page");
    Ok(())
}

/// The greatest numbers are accepted.
fn assert_greatest(rt: &impl Abort, alloc: Global) -> Result<(), Fail> {
    let table = ClassTable::build(alloc, &GREATEST)?;
    let pages = (table.pages(), table.arena_pages());
    assert_same(rt, pages, (64, 65), "the greatest limit");
    assert_classes(rt, &table, &[16384], "one chunk a page");
    Ok(())
}

#[test]
fn bounds_are_accepted(rt: HostRuntime) -> Result<(), Fail> {
    assert_least(&rt, rt.alloc())?;
    assert_greatest(&rt, rt.alloc())
}

/// The error has this number, and its text begins so.
fn assert_told(
    rt: &impl Abort,
    alloc: Global,
    error: ConfigError,
    number: u64,
    text: &str,
) -> Result<(), Fail> {
    let told = error.to_string(alloc)?;
    let found = (error.number(), told.starts_with(text));
    assert_same(rt, found, (number, true), text);
    Ok(())
}

#[test]
fn numbers_and_texts(rt: HostRuntime) -> Result<(), Fail> {
    for (error, number, text) in [
        (ConfigError::PageSize, 1, "the page size must"),
        (ConfigError::FirstSize, 2, "the first size must"),
        (ConfigError::Factor, 3, "the growth factor must"),
        (ConfigError::ChunkMax, 4, "the greatest size must"),
        (ConfigError::Limit, 5, "the limit must"),
        (ConfigError::Stripes, 6, "the number of stripes must"),
        (
            ConfigError::TooManyChunks,
            7,
            "a page of the first class would",
        ),
        (ConfigError::Bulk, 8, "the number of chunks a turn must"),
    ] {
        assert_told(&rt, rt.alloc(), error, number, text)?;
    }
    let memory = ConfigError::NoMemory(too_much(rt.alloc())?);
    assert_told(&rt, rt.alloc(), memory, 9, "out of memory")
}
