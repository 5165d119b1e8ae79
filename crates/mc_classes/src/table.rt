//! The size classes: which sizes there are, which class an item goes to, how many chunks a page has.
ghost use Rattle.std.specs.Prelude.{◌≡◌, ℕ, List, length, nat_le, position, unwrap_or, ◌≤◌, IfOk, IfErr, IfSome};
ghost use Rattle.mc_classes.specs.Refusals.{config_refusal};
ghost use Rattle.mc_classes.specs.Classes.{ComesFrom, IsClass, IsSound, IsTableOf, arena_pages_of, class_of, page_limit, per_page_of, size_of};

use crate::config::{Config, ConfigError, rounded_up};
use crate::limits::MOST_CLASSES;
use mc_memory::{Refused, with_capacity};
use std::alloc::Global;
use std::marker::Model;

/// The number of a size class, from 1. (0 is the global page pool, to which a page may move.)
pub type ClassId = u64;

/// The number of a page, from 0.
pub type PageId = u64;

/// The size classes of a configuration, smallest first.
#[derive(Drop)]
pub struct ClassTable {
    page: u64,
    limit: u64,
    sizes: Vec<u64>,
}

impl Model for ClassTable {
    ghost use Rattle.mc_classes.specs.Classes.{Classes, IsSound};

    ghost Value = { Classes };

    ghost view = { λ t. record { page = t.page; limit = t.limit; sizes = t.sizes.items } };

    ghost invariant = { λ t. IsSound (record { page = t.page; limit = t.limit; sizes = t.sizes.items }) };
}

impl ClassTable {
    /// Computes the size classes (slabs.c's `slabs_init`, with the factor as a fraction). A configuration is
    /// refused by the first test that it fails, before anything is allocated.
    pub fn build(alloc: Global, config: &Config) -> Result<ClassTable, ConfigError>
        ensures accepted { IfOk result (λ _. config_refusal config.now ≡ None) }
        ensures table { IfOk result (λ table. IsTableOf config.now table) }
        ensures sound { IfOk result (λ table. IsSound table) }
        ensures refused { IfErr result (λ error. error
            ≡ unwrap_or (config_refusal config.now) (ConfigError.NoMemory tt)) }
    {
        config.test()?;
        let sizes = sizes_of(alloc, config)?;
        Ok(ClassTable {
            page: config.page,
            limit: config.limit,
            sizes,
        })
    }

    /// The lowest class with chunks of at least n bytes, if there is one (slabs.c's `slabs_clsid`).
    pub fn class_for(&self, bytes: u64) -> Option<ClassId>
        ensures class { result ≡ class_of self.now bytes }
        ensures fits { IfSome result (λ class. IsClass self.now class
            × (bytes ≤ size_of self.now class)) }
        ensures sound { IsSound self.now }
    {
        let place = place_for(&self.sizes, bytes)?;
        Some(place as u64 + 1)
    }

    /// The bytes of a chunk of the class.
    pub fn size(&self, class: ClassId) -> u64
        requires { IsClass self.now class }
        ensures size { result ≡ size_of self.now class }
        ensures sound { IsSound self.now }
    {
        self.sizes[class as usize - 1]
    }

    /// How many chunks a page of the class has.
    pub fn per_page(&self, class: ClassId) -> u64
        requires { IsClass self.now class }
        ensures chunks { result ≡ per_page_of self.now class }
        ensures sound { IsSound self.now }
    {
        self.page / self.size(class)
    }

    /// How many classes there are: they are numbered from 1 to this.
    pub fn count(&self) -> u64
        ensures count { result ≡ length self.now.sizes }
        ensures sound { IsSound self.now }
    {
        self.sizes.len() as u64
    }

    /// The bytes of a page.
    pub fn page(&self) -> u64
        ensures page { result ≡ self.now.page }
        ensures sound { IsSound self.now }
    {
        self.page
    }

    /// The bytes of pages that may be granted, but for the first ones of classes.
    pub fn limit(&self) -> u64
        ensures limit { result ≡ self.now.limit }
        ensures sound { IsSound self.now }
    {
        self.limit
    }

    /// How many pages may be granted within the limit.
    pub fn pages(&self) -> u64
        ensures pages { result ≡ page_limit self.now }
        ensures sound { IsSound self.now }
    {
        self.limit / self.page
    }

    /// How many pages there are, `most_arena_pages` at most: those within the limit, and for each class one that it may get as its
    /// first when these are granted.
    pub fn arena_pages(&self) -> u64
        ensures pages { result ≡ arena_pages_of self.now }
        ensures sound { IsSound self.now }
    {
        self.pages() + self.count()
    }
}

/// The first place, from 0, with a size of at least n bytes.
fn place_for(sizes: &[u64], bytes: u64) -> Option<usize>
    ensures { result ≡ position (λ size. nat_le bytes size) sizes.now }
{
    sizes.iter().position(|size| bytes <= *size)
}

/// The sizes of the classes: each raw size is raised to a multiple of 8, and the factor gives the next
/// raw size; a class of the greatest size comes last. All their room is taken first, so that no push can fail.
fn sizes_of(alloc: Global, config: &Config) -> Result<Vec<u64>, Refused>
    requires { config_refusal config.now ≡ None }
    ensures { IfOk result (λ sizes. (raws : List ℕ) × ComesFrom config.now raws sizes.items) }
{
    let mut sizes = with_capacity(alloc, MOST_CLASSES as usize)?;
    let mut raw = config.first;
    while sizes.len() + 1 < MOST_CLASSES as usize && config.is_below_max(raw) {
        let size = rounded_up(raw);
        sizes.push(size).unwrap();
        raw = size * config.num / config.den;
    }
    sizes.push(config.max).unwrap();
    Ok(sizes)
}
