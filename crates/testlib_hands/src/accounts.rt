//! Every page and every chunk of a closed arena, by its headers and its ledger.
use mc_classes::{ClassId, PageId};
use mc_pages::{ChunkId, Owner};
use mc_words::Final;

/// How many pages each kind of owner has.
#[derive(Clone, Copy)]
pub struct Pages {
    pub owned: u64,
    pub moving: u64,
    pub pool: u64,
    pub untouched: u64,
}

impl Pages {
    /// These pages and one more, of this owner.
    fn with(self, owner: Owner) -> Pages {
        let mut pages = self;
        let count = match owner {
            Owner::Class(_) => &mut pages.owned,
            Owner::Moving { .. } => &mut pages.moving,
            Owner::Pool => &mut pages.pool,
            Owner::Untouched => &mut pages.untouched,
        };
        *count = count.saturating_add(1);
        pages
    }
}

/// The owners of all pages. None where a hand has pages and lists.
pub fn count_pages(left: &Final) -> Option<Pages> {
    let mut pages = Pages {
        owned: 0,
        moving: 0,
        pool: 0,
        untouched: 0,
    };
    for page in 0..left.classes().arena_pages() {
        pages = pages.with(left.owner(page)?);
    }
    Some(pages)
}

/// How many chunks are free, dead, of items that nobody holds, and cleared or never cut.
#[derive(Clone, Copy)]
pub struct Sums {
    pub free: u64,
    pub dead: u64,
    pub linked: u64,
    pub out: u64,
}

/// The sums of no chunks.
pub const NO_SUMS: Sums = Sums {
    free: 0,
    dead: 0,
    linked: 0,
    out: 0,
};

impl Sums {
    /// One more chunk, with this header. None where somebody holds it.
    fn with(self, header: u64) -> Option<Sums> {
        let mut sums = self;
        let count = match header % 262_144 {
            0 => &mut sums.out,
            65_536 => &mut sums.free,
            131_072 => &mut sums.dead,
            196_609 => &mut sums.linked,
            _ => return None,
        };
        *count = count.saturating_add(1);
        Some(sums)
    }

    /// These sums and others.
    pub fn and(self, more: Sums) -> Sums {
        Sums {
            free: self.free.saturating_add(more.free),
            dead: self.dead.saturating_add(more.dead),
            linked: self.linked.saturating_add(more.linked),
            out: self.out.saturating_add(more.out),
        }
    }
}

/// The header of a chunk. None where there is no such chunk.
pub fn head(left: &Final, chunk: ChunkId) -> Option<u64> {
    let classes = left.classes();
    if chunk.page < classes.arena_pages() && chunk.index < classes.per_page(1) {
        Some(left.head(chunk))
    } else {
        None
    }
}

/// Adds the first chunks of a page to these.
fn add_page(left: &Final, page: PageId, count: u64, sums: Sums) -> Option<Sums> {
    let mut sums = sums;
    for index in 0..count {
        sums = sums.with(head(left, ChunkId { page, index })?)?;
    }
    Some(sums)
}

/// How many chunks a page of the class has. None where there is no such class.
fn per_page(left: &Final, class: ClassId) -> Option<u64> {
    let classes = left.classes();
    if class < 1 || class > classes.count() {
        return None;
    }
    Some(classes.per_page(class))
}

/// The chunks of all pages in the class's list, a moving one included.
pub fn class_sums(left: &Final, class: ClassId) -> Option<Sums> {
    let count = per_page(left, class)?;
    let mut sums = NO_SUMS;
    for page in 0..left.classes().arena_pages() {
        if left.owner(page)?.class() == class {
            sums = add_page(left, page, count, sums)?;
        }
    }
    Some(sums)
}

/// The chunks of all pages, whoever owns them, as if each were cut for class 1.
pub fn all_sums(left: &Final) -> Option<Sums> {
    let mut sums = NO_SUMS;
    for page in 0..left.classes().arena_pages() {
        sums = add_page(left, page, left.classes().per_page(1), sums)?;
    }
    Some(sums)
}

/// How many of the keys before this one have an item.
pub fn count_keys(left: &Final, keys: u64) -> Option<u64> {
    let stripes = left.config().stripes;
    let mut count = 0u64;
    for key in 0..keys {
        if stripes == 0 {
            return None;
        }
        if left.stripe(key % stripes)?.find(key).is_some() {
            count = count.saturating_add(1);
        }
    }
    Some(count)
}
