//! The configuration of most tests and callers.
use mc_classes::Config;

/// Four pages; classes of 48, 96, 192 and 512 bytes with 21, 10, 5 and 2 chunks a page. An item has 24 bytes beside its words.
pub const FOUR_CLASSES: Config = Config {
    page: 1024,
    limit: 4096,
    first: 48,
    num: 2,
    den: 1,
    max: 512,
    stripes: 4,
    bulk: 64,
};
