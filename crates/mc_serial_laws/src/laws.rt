//! Laws of the plain machine, and worked examples that the prover computes: each the contract of a function with nothing
//! to do.
ghost use Rattle.std.specs.Prelude.{◌≡◌, ◌≤◌, ◌++◌, ℕ, All, List, Some};
ghost use Rattle.mc_classes.specs.Classes.{Classes, IsSound};
ghost use Rattle.mc_script.specs.Command.{IsValid};
ghost use Rattle.mc_script.specs.declared.command.Command.{Command};
ghost use Rattle.mc_serial_laws.specs.Replies.{IsWhole};
ghost use Rattle.mc_serial_laws.specs.Rows.{AnswersOfReassign, BusyItem, DeadMakesRoom, EvictionAsksForAPage, EvictionRuleIsFirst, FirstPath, FullClassEvicts, FirstPageAlone, HeldIsKept, MoverEvictionsAreApart, MovingPageCountsForQuiet, OneChunkATurn, OwnOldItemCounts, PageThroughThePool, PageToAnotherClass, PageToSpare, PageToTheLeader, PopsBeforeItSweeps, RescueIntoDead, RescueLooksBehindTheHead, SeenFromAnswers, SetSweepsItsOwnClass, ShadowedHold, TooManyHeld, TouchedDeadIsLast, TouchedIsKept, TwoMovesByThePick, UnlinkedIsACandidate, VictimOnTheMovingPage, WordsFromAnswers};
ghost use Rattle.mc_serial_spec.specs.Machine.{Machine};
ghost use Rattle.mc_serial_spec.specs.Lines.{Outcome, serve};
ghost use Rattle.mc_serial_laws.specs.Accounts.{GrantedStays, IsAccountedAfter, StatisticsAddUp};
ghost use Rattle.mc_serial_laws.specs.Present.{ShowsOneItem};
ghost use Rattle.mc_serial_laws.specs.Stays.{KeepsHeldWords, KeepsSeen};
ghost use Rattle.mc_serial_laws.specs.Words.{PrintsHeldWords, PrintsLastWords};

/// What scripts of all forms of lines are answered: items that come and go, are held and touched, and pages that
/// move, also by themselves.
pub fn worked_examples()
    ensures first_path { FirstPath }
    ensures dead_makes_room { DeadMakesRoom }
    ensures full_class_evicts { FullClassEvicts }
    ensures first_page_alone { FirstPageAlone }
    ensures page_to_another_class { PageToAnotherClass }
    ensures rescue_into_dead { RescueIntoDead }
    ensures busy_item { BusyItem }
    ensures answers_of_reassign { AnswersOfReassign }
    ensures page_through_the_pool { PageThroughThePool }
    ensures two_moves_by_the_pick { TwoMovesByThePick }
    ensures touched_is_kept { TouchedIsKept }
    ensures held_is_kept { HeldIsKept }
    ensures too_many_held { TooManyHeld }
    ensures shadowed_hold { ShadowedHold }
    ensures one_chunk_a_turn { OneChunkATurn }
    ensures eviction_asks_for_a_page { EvictionAsksForAPage }
    ensures page_to_spare { PageToSpare }
    ensures page_to_the_leader { PageToTheLeader }
    ensures pops_before_it_sweeps { PopsBeforeItSweeps }
    ensures touched_dead_is_last { TouchedDeadIsLast }
    ensures unlinked_is_a_candidate { UnlinkedIsACandidate }
    ensures victim_on_the_moving_page { VictimOnTheMovingPage }
    ensures rescue_looks_behind_the_head { RescueLooksBehindTheHead }
    ensures moving_page_counts_for_quiet { MovingPageCountsForQuiet }
    ensures own_old_item_counts { OwnOldItemCounts }
    ensures set_sweeps_its_own_class { SetSweepsItsOwnClass }
    ensures eviction_rule_is_first { EvictionRuleIsFirst }
    ensures mover_evictions_are_apart { MoverEvictionsAreApart }
    ensures words_from_answers { WordsFromAnswers }
    ensures seen_from_answers { SeenFromAnswers }
{}

/// The words of each VALUE line are those of the last stored set of its key before it, with no DELETED of the key between.
/// So it is after any valid commands, for every table, however many chunks a turn looks
/// at, and in each mode of the automover.
pub fn values_were_stored()
    ensures { (table : Classes) (bulk mode : ℕ) (commands : List Command) → IsSound table →
        All IsValid commands → PrintsLastWords table bulk mode commands }
{}

/// The words of each DROPPED line are the ones that were there at its hold: what the worker last held of the key and has not
/// dropped since. A drop of a key of which the worker holds nothing is answered NOT_HELD. This holds after any valid commands.
pub fn dropped_were_held()
    ensures { (table : Classes) (bulk mode : ℕ) (commands : List Command) → IsSound table →
        All IsValid commands → PrintsHeldWords table bulk mode commands }
{}

/// Each key has no item, or the words of its last stored set; and get, hold, touch and delete agree which, whoever asks.
/// A worker with the most holds is answered TOO_MANY_REFS by get and hold, and no other is. So it is after any valid commands.
pub fn keys_have_one_answer()
    ensures { (table : Classes) (bulk mode : ℕ) (commands : List Command) → IsSound table →
        All IsValid commands → ShowsOneItem table bulk mode commands }
{}

/// After an answer that shows a key's item, which is STORED, VALUE, HELD or TOUCHED, a get of the key is answered by its
/// words, as long as no set was stored, the key wasn't deleted and the mover had no turn. So nothing else takes an item
/// away: no window, no reassign, no statistics, no drop, and no set that is refused. A worker with the most holds is refused.
pub fn seen_items_stay()
    ensures { (table : Classes) (bulk mode : ℕ) (commands : List Command) → IsSound table →
        All IsValid commands → KeepsSeen table bulk mode commands }
{}

/// While a worker holds a key's item, a get of the key is answered by its words: no set evicts it, and no turn. Its hold is of
/// that item as long as it isn't dropped, the key isn't deleted, and no set of the key is stored.
pub fn held_items_stay()
    ensures { (table : Classes) (bulk mode : ℕ) (commands : List Command) → IsSound table →
        All IsValid commands → KeepsHeldWords table bulk mode commands }
{}

/// Every page and every chunk is accounted for, after any valid commands. This holds for every table, however many chunks a turn
/// looks at, and in each mode.
pub fn machines_are_accounted()
    ensures { (table : Classes) (bulk mode : ℕ) (commands : List Command) → IsSound table →
        mode ≤ 2 → All IsValid commands → IsAccountedAfter table bulk mode commands }
{}

/// The numbers of `stats slabs`, and of `stats` directly behind it, add up. Used and free chunks of each class are all that its
/// pages have. The pages of the classes and of the pool are all that was granted. These are within the limit, but for one page of
/// each class that has one. This holds after any valid commands.
pub fn statistics_add_up()
    ensures { (table : Classes) (bulk mode : ℕ) (commands : List Command) → IsSound table →
        All IsValid commands → StatisticsAddUp table bulk mode commands }
{}

/// `stats slabs` never prints fewer bytes than before: granted bytes stay granted.
pub fn granted_bytes_stay()
    ensures { (table : Classes) (bulk mode : ℕ) (commands more : List Command) → IsSound table →
        All IsValid commands → All IsValid more → GrantedStays table bulk mode commands more }
{}

/// Each reply is one or more lines with an end, and the last has something before it: so no reply is empty, whatever the
/// machine has.
pub fn replies_are_whole()
    ensures { (m : Machine) (command : Command) (served : Outcome) → serve m command ≡ Some served →
        IsWhole served.reply }
{}
