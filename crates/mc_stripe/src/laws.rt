//! Laws of the definitions, each the contract of a function with nothing to do.
ghost use Rattle.std.specs.Prelude.{◌≡◌, ◌≤◌, ℕ, Bool, true, false, List, [], ◌∷◌, ◌++◌, length, take, drop, filter, Some, None};
ghost use Rattle.mc_stripe.specs.declared.history.Call.{Call};
ghost use Rattle.mc_stripe.specs.declared.history.Call.TheVariants.{Set, Get, Delete, Evict, Rescue};
ghost use Rattle.mc_stripe.specs.Entries.{HasEachKeyOnce, entry_at};
ghost use Rattle.mc_pages.specs.declared.ids.ChunkId.{ChunkId};
ghost use Rattle.mc_stripe.specs.Keys.{AddsKeys};
ghost use Rattle.mc_stripe.specs.History.{Stamps, stamps_after_calls};
ghost use Rattle.mc_stripe.specs.Recorded.{left_by_trimmed, recorded_calls, recorded_behind};
ghost use Rattle.mc_stripe.specs.Sequential.{StampMap, Leads, no_stamps};
ghost use Rattle.mc_stripe.specs.StripeState.{StripeState, base_stamps, stamps_of, history_tail, trimmed_of};
ghost use Rattle.mc_stripe.specs.Legal.{IsLegal};

/// A legal history leaves one map from keys to stamps.
pub fn one_replay()
    ensures { (start : StampMap) (history : List Call) (a b : StampMap) → Leads start history a →
        Leads start history b → (key : ℕ) → a key ≡ b key }
{}

/// A history is legal exactly where it has a replay, and the replay is a list of the map that it leaves.
pub fn replay_is_exact()
    ensures legal { (history : List Call) (stamps : Stamps) →
        stamps_after_calls [] history ≡ Some stamps → Leads no_stamps history (entry_at stamps) }
    ensures replayed { (history : List Call) (map : StampMap) → Leads no_stamps history map →
        (stamps : Stamps) × (stamps_after_calls [] history ≡ Some stamps)
        × ((key : ℕ) → map key ≡ entry_at stamps key) }
{}

/// Some histories, each with its replay or with none where a reply isn't right.
pub fn worked_histories()
    ensures by_rising_key { stamps_after_calls [] (Set 0 9 1 ∷ Set 0 3 2 ∷ [])
        ≡ Some ((3, 2) ∷ (9, 1) ∷ []) }
    ensures stored_again { stamps_after_calls [] (Set 1 5 10 ∷ Set 2 5 11 ∷ Get 1 5 (Some 11) ∷ [])
        ≡ Some ((5, 11) ∷ []) }
    ensures old_stamp { stamps_after_calls [] (Set 1 5 10 ∷ Set 2 5 11 ∷ Get 1 5 (Some 10) ∷ [])
        ≡ None }
    ensures nothing_there { stamps_after_calls [] (Get 0 5 None ∷ Delete 0 5 false ∷ []) ≡ Some [] }
    ensures deleted { stamps_after_calls [] (Set 0 5 1 ∷ Delete 1 5 true ∷ Get 0 5 None ∷ [])
        ≡ Some [] }
    ensures deleted_twice { stamps_after_calls []
        (Set 0 5 1 ∷ Delete 1 5 true ∷ Delete 1 5 true ∷ []) ≡ None }
    ensures rescued { stamps_after_calls [] (Set 0 5 1 ∷ Rescue 1 5 ∷ Get 0 5 (Some 1) ∷ [])
        ≡ Some ((5, 1) ∷ []) }
    ensures evicted { stamps_after_calls [] (Set 0 5 1 ∷ Set 0 6 2 ∷ Evict 1 5 ∷ [])
        ≡ Some ((6, 2) ∷ []) }
    ensures evicted_and_rescued { stamps_after_calls [] (Set 0 5 1 ∷ Evict 1 5 ∷ Rescue 1 5 ∷ [])
        ≡ None }
{}

/// What is recorded goes on from what the other calls left. Of the calls that pass a test, those that are recorded come behind the others.
/// And a beginning of the history that is as long as what was trimmed, or longer, ends among what is recorded.
pub fn records_go_on()
    ensures replayed { (stripe : StripeState) → IsLegal stripe →
        stamps_after_calls (base_stamps stripe) (history_tail stripe) ≡ Some (stamps_of stripe) }
    ensures chosen { (stripe : StripeState) (test : Call → Bool) →
        filter test stripe.history ≡ filter test (take (trimmed_of stripe) stripe.history)
        ++ filter test (history_tail stripe) }
    ensures seen { (stripe : StripeState) (seen more : List Call) → stripe.history ≡ seen ++ more →
        trimmed_of stripe ≤ length seen → history_tail stripe ≡ drop (trimmed_of stripe) seen
        ++ more }
{}

/// What some histories record from a place on, and what the calls before it left.
pub fn worked_records()
    ensures from_the_third { recorded_calls (Set 1 5 10 ∷ Set 2 5 11 ∷ Get 1 5 (Some 11) ∷ [])
        (Some 2) ≡ Get 1 5 (Some 11) ∷ [] }
    ensures the_first_left { left_by_trimmed (Set 1 5 10 ∷ Set 2 5 11 ∷ Get 1 5 (Some 11) ∷ [])
        (Some 1) ≡ (5, 10) ∷ [] }
    ensures from_the_first { left_by_trimmed (Set 1 5 10 ∷ Set 2 5 11 ∷ []) (Some 0) ≡ [] }
    ensures none_is_recorded { recorded_calls (Set 1 5 10 ∷ Set 2 5 11 ∷ []) None ≡ [] }
    ensures all_left { left_by_trimmed (Set 0 9 1 ∷ Set 0 3 2 ∷ []) None ≡ (3, 2) ∷ (9, 1) ∷ [] }
    ensures trimmed_again { recorded_behind (Some 1) 3 ≡ Some 3 }
    ensures none_was_recorded { recorded_behind None 3 ≡ None }
{}

/// Stamps of two keys, and stamps of which two have one key.
pub fn worked_keys()
    ensures differ { HasEachKeyOnce {X = ℕ} ((9, 1) ∷ (3, 1) ∷ []) }
    ensures meet { HasEachKeyOnce {X = ℕ} ((9, 1) ∷ (3, 2) ∷ (9, 1) ∷ []) → ⊥ }
{}

/// Keys of an index that come behind another, in an order that isn't the index's, and keys of which one is missing or comes again.
pub fn worked_key_lists()
    ensures any_order { (one two : ChunkId × ℕ) →
        AddsKeys ((3, one) ∷ (9, two) ∷ []) (5 ∷ []) (5 ∷ 9 ∷ 3 ∷ []) }
    ensures one_missing { (one two : ChunkId × ℕ) →
        AddsKeys ((3, one) ∷ (9, two) ∷ []) [] (9 ∷ []) → ⊥ }
    ensures one_twice { (one two : ChunkId × ℕ) →
        AddsKeys ((3, one) ∷ (9, two) ∷ []) [] (9 ∷ 3 ∷ 9 ∷ []) → ⊥ }
{}
