//! Whether the books agree with a keeper's numbers.
ghost use Rattle.std.specs.Prelude.{◌≡◌, true, count_by, length};
ghost use Rattle.mc_pages.specs.Accounted.{is_of_class, is_pool};
ghost use Rattle.mc_map.specs.Agree.{AgreesOnPages};

use mc_classes::ClassId;
use mc_keeper::Keeper;
use mc_pages::Owner;

/// Whether each class has as many of these pages as the keeper counts, and the pool, too.
pub(crate) fn agrees(keeper: &Keeper, owners: &[Owner]) -> bool
    ensures { result ≡ true → AgreesOnPages keeper.now.slabs owners.now }
{
    if pooled_count(owners) != keeper.totals().pool {
        return false;
    }
    for place in 0..keeper.table().count() {
        let class = place + 1;
        if owned_count(owners, class) != keeper.numbers(class).pages {
            return false;
        }
    }
    true
}

/// How many pages the pool has.
fn pooled_count(owners: &[Owner]) -> u64
    ensures { result ≡ count_by is_pool owners.now }
{
    owners.iter().filter(|owner| is_pool(**owner)).count() as u64
}

/// How many pages the class has, a moving one included.
fn owned_count(owners: &[Owner], class: ClassId) -> u64
    ensures { result ≡ count_by (is_of_class class) owners.now }
{
    owners
        .iter()
        .filter(|owner| is_of_class(**owner, class))
        .count() as u64
}

/// Whether the page is in the pool.
fn is_pool(owner: Owner) -> bool
    ensures { result ≡ is_pool owner }
{
    matches!(owner, Owner::Pool)
}

/// Whether the page is the class's.
fn is_of_class(owner: Owner, class: ClassId) -> bool
    ensures { result ≡ is_of_class class owner }
{
    match owner {
        Owner::Untouched | Owner::Pool => false,
        Owner::Class(own) => own == class,
        Owner::Moving { src, dst: _ } => src == class,
    }
}
