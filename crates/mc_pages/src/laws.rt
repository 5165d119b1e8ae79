//! Laws of the definitions, each the contract of a function with nothing to do.
ghost use Rattle.std.specs.Prelude.{◌≡◌, ◌≢◌, ℕ, ◌+◌, ◌<◌, ◌≤◌, List, [], ◌∷◌, count_by, Some, None, true, false};
ghost use Rattle.mc_pages.specs.declared.ids.ChunkId.{ChunkId};
ghost use Rattle.mc_pages.specs.declared.ids.Moving.{Moving};
ghost use Rattle.mc_pages.specs.declared.ledger.Owner.TheVariants.{Pool, Class};
ghost use Rattle.mc_pages.specs.declared.ledger.Owner.TheVariants.{Moving as MovingTo};
ghost use Rattle.mc_pages.specs.declared.ledger.Entry.TheVariants.{Granted, Taken, Began, Ended};
ghost use Rattle.mc_pages.specs.Ledger.{grace_count, ordinary_count, replay};
ghost use Rattle.mc_pages.specs.Base.{base_pages, is_grace_of, is_within_limit, pages_after_entries, never_granted, owners_in, ledger_tail, two_pages};
ghost use Rattle.mc_pages.specs.ClassState.{without};
ghost use Rattle.mc_pages.specs.Before.{comes_before, HasEachOnce, nth, three};
ghost use Rattle.mc_pages.specs.SlabState.{SlabState, page_count};
ghost use Rattle.mc_pages.specs.Accounted.{IsAccounted};
ghost use Rattle.mc_pages.specs.Pages.{times_listed, page_places};
ghost use Rattle.mc_pages.specs.Unaccounted.{nothing_granted, page_of_no_class, last_page_moves, past_the_limit, grace_twice, grace_given_away, cursor_past_the_classes, unknown_mode};

/// Each page is in one place: with a class, in the pool, on the move, or among those that were never granted. The one on the move
/// is in one page list, its source's. What isn't a page is nowhere.
pub fn no_page_is_lost()
    ensures once { (slabs : SlabState) (page : ℕ) → IsAccounted slabs → page < page_count slabs →
        page_places slabs page ≡ 1 }
    ensures moving { (slabs : SlabState) (move : Moving) → IsAccounted slabs →
        slabs.moving ≡ Some move → times_listed slabs move.page ≡ 1 }
    ensures nowhere { (slabs : SlabState) (page : ℕ) → IsAccounted slabs → page_count slabs ≤ page →
        page_places slabs page ≡ 0 }
{}

/// A memory in which nothing was granted is accounted for. Seven others aren't, each for one reason: a page is owned by a class
/// that isn't there; the last page of a class is on the move; more pages were granted within the limit than fit into it; one
/// class has two pages beyond it; a class gave its page beyond it away; the cursor is past the classes; or the mode is unknown.
pub fn unaccounted_memories()
    ensures nothing_granted { IsAccounted nothing_granted }
    ensures page_of_no_class { IsAccounted page_of_no_class → ⊥ }
    ensures last_page_moves { IsAccounted last_page_moves → ⊥ }
    ensures past_the_limit { IsAccounted past_the_limit → ⊥ }
    ensures grace_twice { IsAccounted grace_twice → ⊥ }
    ensures grace_given_away { IsAccounted grace_given_away → ⊥ }
    ensures cursor_past_the_classes { IsAccounted cursor_past_the_classes → ⊥ }
    ensures unknown_mode { IsAccounted unknown_mode → ⊥ }
{}

/// The recorded entries go on from what the others left: they lead from the base's owners to those of now. Base and recorded
/// entries have, together, each page that was granted within the limit, and each that a class got beyond it.
pub fn ledger_goes_on()
    ensures replayed { (slabs : SlabState) → IsAccounted slabs →
        replay (owners_in (base_pages slabs)) (ledger_tail slabs) ≡ Some slabs.owners }
    ensures within_limit { (slabs : SlabState) → IsAccounted slabs →
        count_by is_within_limit (base_pages slabs) + ordinary_count (ledger_tail slabs)
        ≡ ordinary_count slabs.ledger }
    ensures beyond_limit { (slabs : SlabState) (class : ℕ) → IsAccounted slabs →
        count_by (is_grace_of class) (base_pages slabs) + grace_count (ledger_tail slabs) class
        ≡ grace_count slabs.ledger class }
{}

/// What some entries leave of two pages: of one that was granted within the limit, moved and was taken again; of one that was
/// granted beyond it, which the base records for good; and of one on the move.
pub fn worked_bases()
    ensures never_granted { pages_after_entries two_pages [] ≡ two_pages }
    ensures granted { pages_after_entries two_pages (Granted 0 3 false ∷ [])
        ≡ record { owner = Class 3; grace = None } ∷ never_granted ∷ [] }
    ensures taken_again { pages_after_entries two_pages
        (Granted 0 3 false ∷ Began 0 3 0 ∷ Ended 0 0 ∷ Taken 0 2 ∷ [])
        ≡ record { owner = Class 2; grace = None } ∷ never_granted ∷ [] }
    ensures beyond { pages_after_entries two_pages (Granted 1 3 true ∷ Began 1 3 2 ∷ Ended 1 2 ∷ [])
        ≡ never_granted ∷ record { owner = Class 2; grace = Some 3 } ∷ [] }
    ensures on_the_move { pages_after_entries two_pages (Granted 0 3 false ∷ Began 0 3 0 ∷ [])
        ≡ record { owner = MovingTo 3 0; grace = None } ∷ never_granted ∷ [] }
    ensures pooled { pages_after_entries two_pages
        (Granted 0 3 false ∷ Began 0 3 0 ∷ Ended 0 0 ∷ [])
        ≡ record { owner = Pool; grace = None } ∷ never_granted ∷ [] }
{}

/// Which of two chunks comes first in a list. In 2, 0, 1 the first is before the last, which isn't before it, and none is before
/// itself or before one that isn't there. Where no chunk is twice in the list, of two chunks at most one is before the other.
/// What is before one is before those behind it, and both stay so where a third leaves the list.
pub fn one_before_another()
    ensures forth { comes_before (nth 2) (nth 1) three ≡ true }
    ensures not_back { comes_before (nth 1) (nth 2) three ≡ false }
    ensures not_itself { comes_before (nth 0) (nth 0) three ≡ false }
    ensures not_absent { comes_before (nth 2) (nth 3) three ≡ false }
    ensures absent_not { comes_before (nth 3) (nth 1) three ≡ false }
    ensures one_way { (a b : ChunkId) (l : List ChunkId) → HasEachOnce l →
        comes_before a b l ≡ true → comes_before b a l ≡ false }
    ensures through { (a b c : ChunkId) (l : List ChunkId) → HasEachOnce l →
        comes_before a b l ≡ true → comes_before b c l ≡ true → comes_before a c l ≡ true }
    ensures without { (a b c : ChunkId) (l : List ChunkId) → c ≢ a → c ≢ b →
        comes_before a b l ≡ true → comes_before a b (without c l) ≡ true }
{}
