//! Laws of the arena's table, each the contract of a function with nothing to do.
ghost use Rattle.mc_words.specs.hand.Seats.{HandsAreSeated};
ghost use Rattle.mc_words.specs.Headline.{HeldStaysTheSame, HeldStaysThroughout, RuleGivesHeadline, ViewsGiveHeadline, ViewsStayThroughout};

/// Whatever state the table is in, the promise of the arena holds of it: its rule is shown of every step of every call, and gives the
/// headline.
pub fn rule_gives_headline()
    ensures { RuleGivesHeadline }
{}

/// What a hand holds in two states of the table has one issue number and the same words in both: so between a get and its release the
/// chunk was never handed out, cleared or cut anew.
pub fn held_stays_the_same()
    ensures { HeldStaysTheSame }
{}

/// The promise holds of the moment of which a hand knows its view, so that a caller has it before each call and behind it.
pub fn views_give_headline()
    ensures { ViewsGiveHeadline }
{}

/// While a hand keeps a holding over a run of events, each state of the run has the chunk handed out with that issue number. It
/// is of one class and has the same words.
pub fn held_stays_throughout()
    ensures rule { HeldStaysThroughout }
    ensures views { ViewsStayThroughout }
{}

/// Each hand of an arena sits at its table, as `Arena::recall` asks.
pub fn hands_are_seated()
    ensures { HandsAreSeated }
{}
