//! The same pages by plain lists, the head of each free list first. A page is cut as soon as a class gets it.
use super::driven::ChunkList;
use mc_classes::{ClassId, ClassTable, PageId};
use mc_pages::{BasePage, ChunkId, Entry, Found, Moving, Owner, Reassign, Totals};
use std::alloc::{AllocError, Global};

/// One class's pages and chunks.
#[derive(Drop)]
pub(super) struct PlainClass {
    pub(super) per_page: u64,
    pub(super) evictions: u64,
    pub(super) pages: Vec<PageId>,
    pub(super) free: Vec<ChunkId>,
    pub(super) order: Vec<ChunkId>,
}

/// All classes, who owns each page, and the page that moves.
#[derive(Drop)]
pub(super) struct Plain {
    pub(super) classes: Vec<PlainClass>,
    pub(super) owners: Vec<Owner>,
    pub(super) ledger: Vec<Entry>,
    /// What the entries before them left.
    pub(super) base: Vec<BasePage>,
    /// How many these are.
    pub(super) trimmed: u64,
    /// Which class got each page beyond the limit.
    graces: Vec<Option<ClassId>>,
    pub(super) moving: Option<Moving>,
    /// How many more pages may be granted within the limit.
    within: u64,
    pool: Vec<PageId>,
    counts: Totals,
    cursor: ClassId,
}

impl PlainClass {
    /// The chunks of the list.
    pub(super) fn chunks(&self, list: ChunkList) -> &[ChunkId] {
        match list {
            ChunkList::Free => self.free.as_slice(),
            ChunkList::HandedOut => self.order.as_slice(),
        }
    }

    /// The class gets the page with all its chunks, the last of them first.
    fn give(&mut self, page: PageId) -> Result<(), AllocError> {
        self.pages.push(page)?;
        for index in 0..self.per_page {
            self.free.insert(0, ChunkId { page, index })?;
        }
        Ok(())
    }

    /// Whether the chunk was in a list, which it leaves.
    fn leave(&mut self, chunk: ChunkId) -> bool {
        leave(&mut self.free, chunk) || leave(&mut self.order, chunk)
    }

    /// The head of the free list goes out.
    fn pop(&mut self) -> Result<Option<ChunkId>, AllocError> {
        if self.free.is_empty() {
            return Ok(None);
        }
        let chunk = self.free.remove(0);
        self.order.push(chunk)?;
        Ok(Some(chunk))
    }

    /// The chunk at this place of the hand-out order leaves it.
    fn take_out(&mut self, place: usize) -> Option<ChunkId> {
        if place < self.order.len() {
            Some(self.order.remove(place))
        } else {
            None
        }
    }

    /// The chunk at one place of the free list goes before the one at the other of the hand-out order.
    fn replace(
        &mut self,
        free: usize,
        place: usize,
    ) -> Result<Option<(ChunkId, ChunkId)>, AllocError> {
        if free >= self.free.len() || place >= self.order.len() {
            return Ok(None);
        }
        let old = self.order[place];
        let new = self.free.remove(free);
        self.order.insert(place, new)?;
        Ok(Some((new, old)))
    }
}

/// The class of this number.
fn class_of(classes: &mut Vec<PlainClass>, class: ClassId) -> Option<&mut PlainClass> {
    classes.get_mut((class as usize).checked_sub(1)?)
}

fn leave(chunks: &mut Vec<ChunkId>, chunk: ChunkId) -> bool {
    let Some(place) = chunks.iter().position(|c| *c == chunk) else {
        return false;
    };
    if place < chunks.len() {
        chunks.remove(place);
    }
    true
}

/// Of each page its owner is noted, and which class got it beyond the limit.
fn note_base(base: &mut Vec<BasePage>, owners: &[Owner], graces: &[Option<ClassId>]) {
    for (page, owner) in owners.iter().enumerate() {
        if let Some(place) = base.get_mut(page) {
            *place = BasePage {
                owner: *owner,
                grace: graces.get(page).copied().unwrap_or(None),
            };
        }
    }
}

/// The table's classes, without pages.
fn new_classes(alloc: Global, table: &ClassTable) -> Result<Vec<PlainClass>, AllocError> {
    let mut classes = Vec::new(alloc);
    for place in 0..table.count() {
        classes.push(PlainClass {
            per_page: table.per_page(place + 1),
            evictions: 0,
            pages: Vec::new(alloc),
            free: Vec::new(alloc),
            order: Vec::new(alloc),
        })?;
    }
    Ok(classes)
}

impl Plain {
    pub(super) fn new(alloc: Global, table: &ClassTable) -> Result<Plain, AllocError> {
        let pages = table.arena_pages() as usize;
        let fresh = BasePage {
            owner: Owner::Untouched,
            grace: None,
        };
        Ok(Plain {
            owners: vec![in alloc; Owner::Untouched; pages]?,
            ledger: Vec::new(alloc),
            base: vec![in alloc; fresh; pages]?,
            trimmed: 0,
            graces: vec![in alloc; None; pages]?,
            classes: new_classes(alloc, table)?,
            moving: None,
            within: table.pages(),
            pool: Vec::new(alloc),
            counts: Totals {
                granted: 0,
                pool: 0,
                moved: 0,
                rescues: 0,
                evictions_nomem: 0,
                busy: 0,
            },
            cursor: table.count(),
        })
    }

    pub(super) fn totals(&self) -> Totals {
        Totals {
            pool: self.pool.len() as u64,
            ..self.counts
        }
    }

    fn own(&mut self, page: PageId, owner: Owner) {
        if let Some(place) = self.owners.get_mut(page as usize) {
            *place = owner;
        }
    }

    /// The class gets the page with all its chunks.
    fn give(&mut self, class: ClassId, page: PageId) -> Result<(), AllocError> {
        self.own(page, Owner::Class(class));
        match class_of(&mut self.classes, class) {
            Some(own) => own.give(page),
            None => Ok(()),
        }
    }

    fn note_grace(&mut self, page: usize, class: ClassId) {
        if let Some(place) = self.graces.get_mut(page) {
            *place = Some(class);
        }
    }

    /// The entries so far aren't kept. Of each page its owner is, and which class got it beyond the limit.
    pub(super) fn trim(&mut self) {
        note_base(&mut self.base, &self.owners, &self.graces);
        self.trimmed = self.trimmed.wrapping_add(self.ledger.len() as u64);
        self.ledger.clear();
    }

    pub(super) fn grow(&mut self, class: ClassId) -> Result<Option<PageId>, AllocError> {
        let Some(page) = self.pool.pop() else {
            return self.grant(class);
        };
        self.ledger.push(Entry::Taken(page, class))?;
        self.give(class, page)?;
        Ok(Some(page))
    }

    /// The first page that no class had yet.
    fn untouched(&self) -> Option<usize> {
        self.owners
            .iter()
            .position(|owner| *owner == Owner::Untouched)
    }

    /// The class gets that page, beyond the limit only where it has none.
    fn grant(&mut self, class: ClassId) -> Result<Option<PageId>, AllocError> {
        let Some(place) = self.untouched() else {
            return Ok(None);
        };
        let page = place as PageId;
        let grace = self.within == 0;
        if grace && self.pages_of(class) > 0 {
            return Ok(None);
        }
        self.within = self.within.saturating_sub(1);
        self.counts.granted = self.counts.granted.wrapping_add(1);
        self.ledger.push(Entry::Granted(page, class, grace))?;
        if grace {
            self.note_grace(place, class);
        }
        self.give(class, page)?;
        Ok(Some(page))
    }

    pub(super) fn pop(&mut self, class: ClassId) -> Result<Option<ChunkId>, AllocError> {
        match class_of(&mut self.classes, class) {
            Some(own) => own.pop(),
            None => Ok(None),
        }
    }

    /// The chunk at this place of the class's hand-out order leaves it.
    fn take_out(&mut self, class: ClassId, place: usize) -> Option<ChunkId> {
        class_of(&mut self.classes, class)?.take_out(place)
    }

    pub(super) fn back(
        &mut self,
        class: ClassId,
        place: usize,
    ) -> Result<Option<ChunkId>, AllocError> {
        let chunk = self.take_out(class, place);
        if let (Some(chunk), Some(own)) = (chunk, class_of(&mut self.classes, class)) {
            own.free.insert(0, chunk)?;
        }
        Ok(chunk)
    }

    pub(super) fn touch(
        &mut self,
        class: ClassId,
        place: usize,
    ) -> Result<Option<ChunkId>, AllocError> {
        let chunk = self.take_out(class, place);
        if let (Some(chunk), Some(own)) = (chunk, class_of(&mut self.classes, class)) {
            own.order.push(chunk)?;
        }
        Ok(chunk)
    }

    pub(super) fn replace(
        &mut self,
        class: ClassId,
        free: usize,
        place: usize,
    ) -> Result<Option<(ChunkId, ChunkId)>, AllocError> {
        match class_of(&mut self.classes, class) {
            Some(own) => own.replace(free, place),
            None => Ok(None),
        }
    }

    pub(super) fn evicted(&mut self, class: ClassId) -> bool {
        let Some(own) = class_of(&mut self.classes, class) else {
            return false;
        };
        own.evictions = own.evictions.wrapping_add(1);
        true
    }

    fn pages_of(&mut self, class: ClassId) -> usize {
        match class_of(&mut self.classes, class) {
            Some(own) => own.pages.len(),
            None => 0,
        }
    }

    /// The page that the class has had longest.
    fn first_page(&mut self, class: ClassId) -> Option<PageId> {
        class_of(&mut self.classes, class)?.pages.first().copied()
    }

    /// Once round all classes, from behind the cursor.
    fn pick(&mut self, dst: u64) -> Option<ClassId> {
        let count = self.classes.len() as u64;
        for step in 0..count {
            let class = self.cursor.wrapping_add(step).checked_rem(count)?;
            let class = class.wrapping_add(1);
            if class != dst && self.pages_of(class) > 1 {
                return Some(class);
            }
        }
        None
    }

    fn source(&mut self, src: Option<u64>, dst: u64) -> Result<ClassId, Reassign> {
        if self.moving.is_some() {
            return Err(Reassign::Busy);
        }
        if src == Some(dst) {
            return Err(Reassign::Same);
        }
        let source = match src {
            Some(src) => src,
            None => self.pick(dst).ok_or(Reassign::BadClass)?,
        };
        let last = self.classes.len() as u64;
        if source == 0 || source > last || dst > last {
            return Err(Reassign::BadClass);
        }
        match self.pages_of(source) {
            0 | 1 => Err(Reassign::NoSpare),
            _ => Ok(source),
        }
    }

    pub(super) fn begin(
        &mut self,
        src: Option<u64>,
        dst: u64,
    ) -> Result<Result<(), Reassign>, AllocError> {
        let source = match self.source(src, dst) {
            Ok(source) => source,
            Err(why) => return Ok(Err(why)),
        };
        let Some(page) = self.first_page(source) else {
            return Ok(Err(Reassign::NoSpare));
        };
        self.own(page, Owner::Moving { src: source, dst });
        self.ledger.push(Entry::Began(page, source, dst))?;
        self.moving = Some(Moving {
            page,
            src: source,
            dst,
            at: 0,
            busy: 0,
        });
        if src.is_none() {
            self.cursor = source;
        }
        Ok(Ok(()))
    }

    pub(super) fn pass(&mut self, wanted: Found) -> Option<Found> {
        let moving = self.moving?;
        let own = class_of(&mut self.classes, moving.src)?;
        if moving.at >= own.per_page {
            return None;
        }
        let chunk = ChunkId {
            page: moving.page,
            index: moving.at,
        };
        let is_held = matches!(wanted, Found::Busy | Found::Locked);
        let found = if is_held || own.leave(chunk) {
            wanted
        } else {
            Found::Already
        };
        self.moving = Some(Moving {
            at: moving.at.wrapping_add(1),
            busy: moving.busy.wrapping_add(u64::from(is_held)),
            ..moving
        });
        self.count(found);
        Some(found)
    }

    /// What was found is counted.
    fn count(&mut self, found: Found) {
        match found {
            Found::Rescued => self.counts.rescues = self.counts.rescues.wrapping_add(1),
            Found::Evicted => {
                self.counts.evictions_nomem = self.counts.evictions_nomem.wrapping_add(1);
            }
            _ => {}
        }
    }

    /// The move that runs, where its pass is at the page's end.
    fn passed(&mut self) -> Option<Moving> {
        let moving = self.moving?;
        let own = class_of(&mut self.classes, moving.src)?;
        if moving.at == own.per_page {
            Some(moving)
        } else {
            None
        }
    }

    pub(super) fn wrap(&mut self) -> bool {
        let Some(moving) = self.passed() else {
            return false;
        };
        if moving.busy == 0 {
            return false;
        }
        self.counts.busy = self.counts.busy.wrapping_add(moving.busy);
        self.moving = Some(Moving {
            at: 0,
            busy: 0,
            ..moving
        });
        true
    }

    pub(super) fn finish(&mut self) -> Result<bool, AllocError> {
        let Some(
            Moving {
                page,
                src,
                dst,
                busy: 0,
                ..
            },
        ) = self.passed()
        else {
            return Ok(false);
        };
        if let Some(own) = class_of(&mut self.classes, src) {
            own.pages.retain(|p| *p != page);
        }
        self.moving = None;
        self.counts.moved = self.counts.moved.wrapping_add(1);
        self.arrive(page, dst)?;
        Ok(true)
    }

    /// The page comes to the class, or to the pool.
    fn arrive(&mut self, page: PageId, dst: ClassId) -> Result<(), AllocError> {
        self.ledger.push(Entry::Ended(page, dst))?;
        if dst != 0 {
            return self.give(dst, page);
        }
        self.own(page, Owner::Pool);
        self.pool.push(page)?;
        Ok(())
    }
}
