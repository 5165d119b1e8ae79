//! The classes and their worst waste of two tables that are built.
use super::assert_same;
use mc_classes::{ClassTable, Config};
use mc_waste::worst_waste;
use std::alloc::Global;
use std::process::Abort;
use std::test::Fail;
use testlib_values::FOUR_CLASSES;

/// The program's defaults, but for a factor of 5/4.
const FINER: Config = Config {
    num: 5,
    den: 4,
    ..FOUR_CLASSES
};

/// The table has these classes, each with its size and the most that an item leaves of it.
fn assert_wastes(rt: &impl Abort, table: &ClassTable, wanted: &[(u64, u64)]) {
    assert!(rt;
        table.count() == wanted.len() as u64,
        "there are more classes, or fewer"
    );
    for (place, (size, waste)) in wanted.iter().enumerate() {
        let class = place as u64 + 1;
        let found = (table.size(class), worst_waste(table, class));
        let wanted = (*size, Some(*waste));
        assert_same(rt, found, wanted, "a class's size, and what is left of it");
    }
}

/// The table that is built of the configuration has these classes, each with its size and the most that an item leaves of it.
fn assert_classes(
    rt: &impl Abort,
    alloc: Global,
    config: &Config,
    wanted: &[(u64, u64)],
) -> Result<(), Fail> {
    let table = ClassTable::build(alloc, config)?;
    assert_wastes(rt, &table, wanted);
    Ok(())
}

#[test]
fn defaults(rt: HostRuntime) -> Result<(), Fail> {
    assert_classes(
        &rt,
        rt.alloc(),
        &FOUR_CLASSES,
        &[(48, 24), (96, 40), (192, 88), (512, 312)],
    )
}

#[test]
fn five_quarters(rt: HostRuntime) -> Result<(), Fail> {
    let wanted = [
        (48, 24),
        (64, 8),
        (80, 8),
        (104, 16),
        (136, 24),
        (176, 32),
        (224, 40),
        (280, 48),
        (352, 64),
        (512, 152),
    ];
    assert_classes(&rt, rt.alloc(), &FINER, &wanted)
}
