//! Laws of the model, each the contract of a function with nothing to do.
//!
//! A clause of the law that is *kept* holds before anything was done. Every silent change, every step and every event that
//! is allowed in a lawful moment leaves it true.
ghost use Rattle.std.specs.Prelude.{◌≡◌, ◌-◌, ℕ, true, false, List, [], ◌∷◌, ◌++◌, Ok, Err, None, Some};
ghost use Rattle.mc_pages.specs.declared.ledger.Entry.TheVariants.{Granted, Began, Ended};
ghost use Rattle.mc_stripe.specs.declared.history.Call.{Call};
ghost use Rattle.mc_stripe.specs.Sequential.{StampMap, Leads};
ghost use Rattle.mc_core.specs.declared.event.Event.{Event};
ghost use Rattle.mc_core.specs.declared.event.Step.TheVariants.{TakeSlabs, TakeStripe, GiveSlabs, Pop, Head, Cut};
ghost use Rattle.mc_core.specs.declared.event.Change.TheVariants.{Grow, FinishMove, TrimLedger};
ghost use Rattle.mc_core.specs.run.Rows.{worked_ledger, growth_events, hand_event, makes_room, room_in_hold, pops_from, played_on, chunk_at, page_events, fill_events, store_events, full_page, one_of_four, three_of_four, look_events, takes_away, begins_move, begins_rescue, rescue_events, end_events, comes_again, ledger_of, state_left_by, first_page_events, gets_whole, recorded_of};
ghost use Rattle.mc_core.specs.run.Chunks.{most_issue};
ghost use Rattle.mc_core.specs.law.Lawful.{IsLawful, SizedIn, PagedIn, PlacedIn, CountedIn, HeldIn, IndexedIn, LegalIn, HandsIn, RowsIn, NumberedIn, SeenIn, KnownIn, RescuedIn, RecordedIn};
ghost use Rattle.mc_core.specs.law.Laws.{IsKeptByAll, ArePlayed, AreLawful};
ghost use Rattle.mc_core.specs.law.Frame.{AreFramed};
ghost use Rattle.mc_core.specs.run.Effects.{WriteOneWord, HistoriesGrow, RunsArePlayed};
ghost use Rattle.mc_core.specs.past.Learns.{AreLearned};
ghost use Rattle.mc_core.specs.law.Reasons.{CondemnsAreReasoned};
ghost use Rattle.mc_core.specs.past.Stretch.{StretchesKeep};
ghost use Rattle.mc_core.specs.model.Codes.{AreOneWord, AllAreSums};
ghost use Rattle.mc_core.specs.run.Needless.{AllAreNeedless};
ghost use Rattle.mc_core.specs.law.Judged.{AllAreJudged};
ghost use Rattle.mc_core.specs.law.Follows.{HoldingsAreKept, LinkedItemsAreStored, SeenGrows};

/// Runs of one hand: a page that is cut whole, one cut short, and a chunk from a class without a page; and where issue
/// numbers count on from one below the greatest, a chunk is handed out once and not again.
pub fn worked_runs()
    ensures whole_page { worked_ledger (growth_events 20) ≡ Ok (Granted 0 1 false ∷ []) }
    ensures cut_short { worked_ledger (growth_events 19) ≡ Err 21 }
    ensures no_page { worked_ledger (hand_event [] TakeSlabs ∷ hand_event [] (Pop 1) ∷ []) ≡ Err 1 }
    ensures twice { pops_from (most_issue - 2) ≡ Ok (Granted 0 1 false ∷ []) }
    ensures once { pops_from (most_issue - 1) ≡ Err 27 }
    ensures worn { pops_from most_issue ≡ Err 24 }
{}

/// A class's first page is granted beyond the limit where none is left within it, and its second isn't; where one is left, that is granted.
pub fn worked_grants()
    ensures beyond { ledger_of (state_left_by 1 (first_page_events ++ gets_whole 1))
        ≡ Ok (Granted 0 1 false ∷ Granted 1 2 true ∷ []) }
    ensures one_a_class { ledger_of (state_left_by 1 (first_page_events ++ gets_whole 1
        ++ gets_whole 2)) ≡ Err 4 }
    ensures within { ledger_of (state_left_by 2 (first_page_events ++ gets_whole 1))
        ≡ Ok (Granted 0 1 false ∷ Granted 1 2 false ∷ []) }
    ensures no_more_within { ledger_of (state_left_by 2 (first_page_events ++ gets_whole 1
        ++ gets_whole 2)) ≡ Err 4 }
{}

/// Entries before a trim of the ledger aren't recorded, and those behind it are. It is trimmed under the lock of the slabs alone.
pub fn worked_trims()
    ensures trimmed { recorded_of (state_left_by 1 (first_page_events
        ++ hand_event (TrimLedger ∷ Grow 2 ∷ []) (Cut 1 0) ∷ [])) ≡ Ok (Granted 1 2 true ∷ []) }
    ensures twice { recorded_of (state_left_by 1 (first_page_events
        ++ hand_event (TrimLedger ∷ TrimLedger ∷ []) GiveSlabs ∷ [])) ≡ Ok [] }
    ensures whole { ledger_of (state_left_by 1 (first_page_events
        ++ hand_event (TrimLedger ∷ []) GiveSlabs ∷ [])) ≡ Ok (Granted 0 1 false ∷ []) }
    ensures without_the_lock { recorded_of (state_left_by 1 (first_page_events
        ++ hand_event [] GiveSlabs ∷ hand_event (TrimLedger ∷ []) TakeSlabs ∷ [])) ≡ Err 4 }
{}

/// Of each stripe a hand knows how it last took it and how it last gave it back: the first as it was then, the second with what was done
/// under its lock. Other stripes' holds stay.
pub fn worked_holds()
    ensures taken { room_in_hold 1 (hand_event [] (TakeStripe 1) ∷ []) ≡ (Some false, None) }
    ensures given { room_in_hold 1 makes_room ≡ (Some false, Some true) }
    ensures again { room_in_hold 1 (makes_room ++ hand_event [] (TakeStripe 1) ∷ [])
        ≡ (Some true, Some true) }
    ensures other { room_in_hold 0 makes_room ≡ (None, None) }
{}

/// An item is evicted from a full class behind a sweep. It is refused without a sweep, behind half of one, and behind one that an
/// eviction ended; where a chunk is free; where a page is left, or one is pooled; and where one is half cut.
pub fn worked_evictions()
    ensures evicted { played_on 1 (full_page ++ look_events 0 ++ takes_away (chunk_at 0 1))
        ≡ Ok (Granted 0 1 false ∷ []) }
    ensures no_sweep { played_on 1 (full_page ++ takes_away (chunk_at 0 1)) ≡ Err 18 }
    ensures half_a_sweep { played_on 1 (full_page
        ++ hand_event [] (Head (chunk_at 0 1)) ∷ takes_away (chunk_at 0 1)) ≡ Err 19 }
    ensures one_a_sweep { played_on 1 (full_page ++ look_events 0 ++ takes_away (chunk_at 0 1)
        ++ takes_away (chunk_at 0 0)) ≡ Err 21 }
    ensures a_free_chunk { played_on 1 (page_events 0 ++ store_events (chunk_at 0 1) 1
        ++ hand_event [] (Head (chunk_at 0 1)) ∷ takes_away (chunk_at 0 1)) ≡ Err 12 }
    ensures a_page_left { played_on 2 (full_page ++ look_events 0 ++ takes_away (chunk_at 0 1))
        ≡ Err 20 }
    ensures a_pooled_page { played_on 2 (one_of_four ++ begins_rescue ++ rescue_events
        ++ hand_event (FinishMove ∷ []) (Pop 1) ∷ fill_events (chunk_at 1 0) 2 ++ look_events 1
        ++ takes_away (chunk_at 1 1)) ≡ Err 32 }
    ensures half_a_page { played_on 2 (full_page
        ++ hand_event (Grow 1 ∷ []) (Cut 1 0) ∷ store_events (chunk_at 1 0) 3 ++ look_events 0
        ++ hand_event [] (Head (chunk_at 1 0)) ∷ takes_away (chunk_at 0 1)) ≡ Err 29 }
{}

/// An item is rescued off its moving page, which then comes to the pool. It isn't rescued onto that page, nor to a chunk that is
/// for something else, nor when its page stays. Where no free chunk is off the page, the item leaves the page behind a sweep. It
/// doesn't leave without one, nor behind one that a handing out ended, nor where a free chunk is there.
pub fn worked_rescues()
    ensures rescued { played_on 2 (one_of_four ++ begins_rescue ++ rescue_events ++ end_events)
        ≡ Ok (Granted 0 1 false ∷ Granted 1 1 false ∷ Began 0 1 0 ∷ Ended 0 0 ∷ []) }
    ensures no_chunk_off { played_on 2 (three_of_four ++ begins_rescue) ≡ Err 27 }
    ensures no_copy { played_on 2 (one_of_four ++ hand_event [] (Pop 1) ∷ begins_move
        ++ takes_away (chunk_at 0 1)) ≡ Err 15 }
    ensures a_page_that_stays { played_on 2 (one_of_four ++ comes_again
        ++ takes_away (chunk_at 0 1)) ≡ Err 26 }
    ensures leaves { played_on 2 (three_of_four ++ begins_move ++ look_events 1
        ++ takes_away (chunk_at 0 1))
        ≡ Ok (Granted 0 1 false ∷ Granted 1 1 false ∷ Began 0 1 0 ∷ []) }
    ensures no_sweep { played_on 2 (three_of_four ++ begins_move ++ takes_away (chunk_at 0 1))
        ≡ Err 28 }
    ensures old_sweep { played_on 2 (one_of_four ++ store_events (chunk_at 1 1) 2 ++ begins_move
        ++ hand_event [] (Head (chunk_at 1 1)) ∷ hand_event [] (Pop 1) ∷ hand_event []
        (Head (chunk_at 1 0)) ∷ takes_away (chunk_at 0 1)) ≡ Err 24 }
    ensures a_chunk_off { played_on 2 (one_of_four ++ begins_move ++ takes_away (chunk_at 0 1))
        ≡ Err 14 }
{}

/// Each chunk has its header, and each page all its data words.
pub fn sizes_are_kept()
    ensures { IsKeptByAll SizedIn }
{}

/// The owners are the ledger's replay, granted bytes are within the limit, and at most one page moves. A page is half cut under
/// the slabs lock alone.
pub fn pages_are_kept()
    ensures { IsKeptByAll PagedIn }
{}

/// Each cut chunk is once on its free list and free, or once in its hand-out order and handed out, or cleared; every other
/// chunk is out.
pub fn places_are_kept()
    ensures { IsKeptByAll PlacedIn }
{}

/// A header counts its holders, and 1 for the link.
pub fn counts_are_kept()
    ensures { IsKeptByAll CountedIn }
{}

/// A holding has its header's issue number and its chunk's words, and a fresh one is its chunk's only one.
pub fn holdings_are_kept()
    ensures { IsKeptByAll HeldIn }
{}

/// The entries of the stripes are the linked chunks, each under the key and the stamp in its first words.
pub fn the_index_is_kept()
    ensures { IsKeptByAll IndexedIn }
{}

/// Each stripe's history is legal and makes its index; a free stripe has nothing aside.
pub fn histories_are_kept()
    ensures { IsKeptByAll LegalIn }
{}

/// Hands have numbers of their own, and each lock is free or held by one of them.
pub fn hands_are_kept()
    ensures { IsKeptByAll HandsIn }
{}

/// Each hand has a row of all that hands know.
pub fn rows_are_kept()
    ensures { IsKeptByAll RowsIn }
{}

/// The stamps that a hand stored are of its numbers, counted from 1 without a gap.
pub fn numbers_are_kept()
    ensures { IsKeptByAll NumberedIn }
{}

/// What the holder of the slabs lock saw, or wrote, holds still; and what it did to pages and lists, since it found them,
/// gave those of now.
pub fn looks_are_kept()
    ensures { IsKeptByAll SeenIn }
{}

/// A stamp is stored once. While a chunk has the issue number with which a hand knows it, its words are those that the hand
/// knows.
pub fn known_items_are_kept()
    ensures { IsKeptByAll KnownIn }
{}

/// A chunk for a copy is off the page of what it copies. The words of an item that is being rescued were stored with its stamp.
pub fn rescues_are_kept()
    ensures { IsKeptByAll RescuedIn }
{}

/// A hand's calls are those that the histories have of its numbers, each in its place; what the hand saw of a history begins the
/// history; and each stamp that a hand stored is in a history once.
pub fn calls_are_kept()
    ensures { IsKeptByAll RecordedIn }
{}

/// All clauses together.
pub fn the_law_is_kept()
    ensures { IsKeptByAll IsLawful }
{}

/// Each step and each change of one hand leaves what all other hands have and see behind their locks. It leaves what is behind
/// locks that the hand hasn't. A join leaves all but the hand that is taken over.
pub fn others_are_left_alone()
    ensures { AreFramed }
{}

/// A change of a value behind a lock writes no word of the arena, and a step or an event one at most: a header, a data word, the word of
/// a lock, or that of the hands.
pub fn one_word_a_step()
    ensures { WriteOneWord }
{}

/// Each stripe's history only grows, and what comes in is by the stepping hand's number.
pub fn histories_grow()
    ensures { HistoriesGrow }
{}

/// What a hand knows after a change or a step follows from what it knew. After a join it follows from what both hands knew.
pub fn learning_is_by_rows()
    ensures { AreLearned }
{}

/// An item is taken away for a reason alone. It goes to a copy off its moving page. Or each chunk that its class handed out was
/// seen not dead, and nothing was taken since. Then the item leaves its moving page, off which there is no chunk for it, or makes
/// room where there is neither a free chunk nor a page.
pub fn condemns_have_a_reason()
    ensures { CondemnsAreReasoned }
{}

/// Every moment of a run is lawful.
pub fn runs_are_lawful()
    ensures played { (events : List Event) → ArePlayed events }
    ensures lawful { AreLawful }
{}

/// A run is played to its end, and its last moment's state is what is left.
pub fn runs_are_played()
    ensures { RunsArePlayed }
{}

/// While a hand keeps one holding, the chunk is handed out with the holding's issue number, and its page stays with its class. No
/// word of the chunk changes but by the hand's own fill of a fresh chunk.
pub fn stretches_are_kept()
    ensures { StretchesKeep }
{}

/// Each holding of a lawful moment is of a chunk that is handed out with the holding's issue number and shows the holding's
/// words. The chunk's page is of a class, or moves away from one.
pub fn held_chunks_are_handed_out()
    ensures { HoldingsAreKept }
{}

/// The words of a linked chunk are a whole item, which was stored with the stamp of its key's entry.
pub fn linked_items_were_said()
    ensures { LinkedItemsAreStored }
{}

/// What a hand saw of a history is never shortened: it begins what the hand sees after an event, or what the hand sees that
/// took it over.
pub fn what_is_seen_grows()
    ensures { SeenGrows }
{}

/// A header whose parts fit is one word, and each change of it is one sum on that word.
pub fn headers_are_words()
    ensures one_word { AreOneWord }
    ensures sums { AllAreSums }
{}

/// What events would test of counts and tags follows from the law. A count has room for one more. The head of a free list is
/// free. A dead chunk is handed out. The chunk that is cut next is out. The chunk to which a key leads is linked, and one that a
/// hand fills isn't.
pub fn tests_are_needless()
    ensures { AllAreNeedless }
{}

/// What a hand saw under the slabs lock is so still, and so allows its steps.
pub fn what_is_seen_allows()
    ensures { AllAreJudged }
{}

/// A legal history leaves one map from keys to stamps.
pub fn one_replay()
    ensures { (start : StampMap) (history : List Call) (a b : StampMap) → Leads start history a →
        Leads start history b → (key : ℕ) → a key ≡ b key }
{}
