//! Changes of the values behind locks that touch no word.
ghost use Rattle.std.specs.Prelude.{◌≡◌, ◌<◌, ◌&&◌, true, false, length, Ok, IfOk};
ghost use Rattle.mc_pages.specs.Accounted.{cut_count};
ghost use Rattle.mc_pages.specs.Moves.{is_held_up};
ghost use Rattle.mc_stripe.specs.Changes.{used_up};
ghost use Rattle.mc_core.specs.declared.event.Change.TheVariants.{BeginMove, FinishMove, Touch, SetAutomove, TrimLedger, Passed, Wrap, Evicted, OfStripe};
ghost use Rattle.mc_core.specs.declared.event.StripeChange.TheVariants.{Trim};
ghost use Rattle.mc_core.specs.declared.look.Look.TheVariants.{Changed};
ghost use Rattle.mc_core.specs.model.State.{has_slabs, stripe_of, stripe_at, with_slabs, with_stripe, with_look};
ghost use Rattle.mc_core.specs.run.Silent.{none_half_cut, run_of, is_cleared_at, can_finish, can_pass, can_wrap, can_record_miss, can_change_stripe, stripe_after, writer_of, slabs_after, can_change_slabs, allows_change, after_change, allows_changes, after_changes, stripe_after_miss, call_of};
ghost use Rattle.mc_core.specs.run.Done.{IsResultOf};

use super::State;
use crate::event::{Change, StripeChange};
use crate::look::Look;
use mc_classes::ClassId;
use mc_memory::Refused;
use mc_pages::{ChunkId, Found, Grow, Moving, Reassign};
use mc_stripe::Stripe;

/// Whether what was found holds up the move.
fn is_held_up(found: Found) -> bool
    ensures { result ≡ is_held_up found }
{
    match found {
        Found::Busy | Found::Locked => true,
        _ => false,
    }
}

/// The stripe's calls so far aren't recorded any more, if the place of the next one can be counted.
fn trim(stripe: &mut Stripe) -> Result<bool, Refused>
    ensures can { IfOk result (λ can. can ≡ can_change_stripe Trim stripe.old.state) }
    ensures trimmed { result ≡ Ok true → stripe.new ≡ stripe_after Trim stripe.old }
    ensures full { result ≡ Ok false → stripe.new ≡ stripe.old }
{
    match stripe.trim() {
        Ok(()) => Ok(true),
        Err(mc_stripe::Trim::Full) => Ok(false),
        Err(mc_stripe::Trim::NoMemory(refused)) => Err(refused),
    }
}

impl State {
    /// Whether no page is half cut.
    pub(super) fn none_half_cut(&self) -> bool
        ensures { result ≡ none_half_cut self.now.slabs }
    {
        self.slabs.half_cut().is_none()
    }

    /// The class gets a page, if there is one and none is half cut.
    fn grow(&mut self, class: ClassId) -> Result<bool, Refused>
        ensures { IfOk result
            (IsResultOf (can_change_slabs self.old.table self.old.slabs (Change.Grow class))
            (with_slabs self.old (slabs_after self.old.slabs (Change.Grow class))) self.new) }
    {
        if !self.is_class(class) || !self.none_half_cut() {
            return Ok(false);
        }
        match self.slabs.grow(class) {
            Ok(_) => Ok(true),
            Err(Grow::NoRoom) => Ok(false),
            Err(Grow::NoMemory(refused)) => Err(refused),
        }
    }

    /// A page begins to move, if the answer is OK.
    fn begin_move(&mut self, src: Option<u64>, dst: u64) -> Result<bool, Refused>
        ensures { IfOk result
            (IsResultOf (can_change_slabs self.old.table self.old.slabs (BeginMove src dst))
            (with_slabs self.old (slabs_after self.old.slabs (BeginMove src dst))) self.new) }
    {
        match self.slabs.begin_move(src, dst) {
            Ok(()) => Ok(true),
            Err(Reassign::NoMemory(refused)) => Err(refused),
            Err(_) => Ok(false),
        }
    }

    /// Whether each chunk of the moving page is cleared.
    fn can_finish(&self) -> Result<bool, Refused>
        ensures { IfOk result (λ can. can ≡ can_finish self.now.slabs self.now.slabs.moving) }
    {
        match self.slabs.moving() {
            Some(moving) if self.none_half_cut() => Ok(!self.has_listed(moving.src, moving.page)?),
            _ => Ok(false),
        }
    }

    /// The move ends, if all chunks of its page are cleared.
    fn finish_move(&mut self) -> Result<bool, Refused>
        ensures { IfOk result
            (IsResultOf (can_change_slabs self.old.table self.old.slabs FinishMove)
            (with_slabs self.old (slabs_after self.old.slabs FinishMove)) self.new) }
    {
        if !self.can_finish()? {
            return Ok(false);
        }
        self.list_finish();
        Ok(true)
    }

    /// The chunk goes to the back of its hand-out order, if it is handed out.
    fn touch(&mut self, chunk: ChunkId) -> Result<bool, Refused>
        ensures { IfOk result
            (IsResultOf (can_change_slabs self.old.table self.old.slabs (Touch chunk))
            (with_slabs self.old (slabs_after self.old.slabs (Touch chunk))) self.new) }
    {
        if !self.is_handed_out(chunk)? {
            return Ok(false);
        }
        self.list_touch(chunk);
        Ok(true)
    }

    /// The automover's mode is set, if there is such a mode.
    fn set_automove(&mut self, mode: u64) -> bool
        ensures { IsResultOf (can_change_slabs self.old.table self.old.slabs (SetAutomove mode))
            (with_slabs self.old (slabs_after self.old.slabs (SetAutomove mode))) self.new result }
    {
        if mode > 2 {
            return false;
        }
        self.slabs.set_automove(mode);
        true
    }

    /// The entries of the ledger so far aren't recorded any more.
    fn trim_ledger(&mut self) -> bool
        ensures { IsResultOf (can_change_slabs self.old.table self.old.slabs TrimLedger)
            (with_slabs self.old (slabs_after self.old.slabs TrimLedger)) self.new result }
    {
        self.slabs.trim();
        true
    }

    /// The move that runs, with the chunks of a page of its source.
    fn run(&self) -> Option<(Moving, u64)>
        ensures { result ≡ run_of self.now.table self.now.slabs.moving }
    {
        match self.slabs.moving() {
            Some(moving) => Some((moving, self.table.per_page(moving.src))),
            None => None,
        }
    }

    /// Whether the chunk at the mover's position is cleared, or holds up the move.
    fn can_pass(&self, found: Found) -> Result<bool, Refused>
        ensures { IfOk result (λ can. can ≡ can_pass self.now.slabs found
            (run_of self.now.table self.now.slabs.moving)) }
    {
        let Some((moving, per_page)) = self.run() else {
            return Ok(false);
        };
        if moving.at >= per_page {
            return Ok(false);
        }
        if is_held_up(found) {
            return Ok(true);
        }
        self.is_cleared(moving, per_page)
    }

    /// Whether the chunk at the position of the move that runs is cleared.
    fn is_cleared(&self, moving: Moving, per_page: u64) -> Result<bool, Refused>
        ensures { IfOk result (λ is. is ≡ is_cleared_at self.now.slabs per_page moving) }
    {
        let chunk = ChunkId {
            page: moving.page,
            index: moving.at,
        };
        if moving.at >= self.cut_count(moving.page, per_page) {
            return Ok(false);
        }
        Ok(!self.is_listed(moving.src, chunk)?)
    }

    /// How many chunks of the page were cut, where a page has `per_page` chunks.
    fn cut_count(&self, page: u64, per_page: u64) -> u64
        ensures { result ≡ cut_count self.now.slabs.uncut page per_page }
    {
        match self.slabs.next_uncut() {
            Some(next) if next.page == page => next.index,
            _ => per_page,
        }
    }

    /// The mover goes on behind the chunk at its position, if it is cleared or holds up the move.
    fn pass(&mut self, found: Found) -> Result<bool, Refused>
        ensures { IfOk result
            (IsResultOf (can_change_slabs self.old.table self.old.slabs (Passed found))
            (with_slabs self.old (slabs_after self.old.slabs (Passed found))) self.new) }
    {
        if !self.can_pass(found)? {
            return Ok(false);
        }
        self.list_pass(found);
        Ok(true)
    }

    /// Whether the mover is at the page's end and something held it up.
    fn can_wrap(&self) -> bool
        ensures { result ≡ can_wrap (run_of self.now.table self.now.slabs.moving) }
    {
        match self.run() {
            Some((moving, per_page)) => moving.at == per_page && moving.busy >= 1,
            None => false,
        }
    }

    /// The mover begins its pass anew, if it is at the page's end and something held it up.
    fn wrap(&mut self) -> bool
        ensures { IsResultOf (can_change_slabs self.old.table self.old.slabs Wrap)
            (with_slabs self.old (slabs_after self.old.slabs Wrap)) self.new result }
    {
        if !self.can_wrap() {
            return false;
        }
        self.list_wrap();
        true
    }

    /// An eviction of the class is counted, if there is such a class.
    fn count_eviction(&mut self, class: ClassId) -> bool
        ensures { IsResultOf (can_change_slabs self.old.table self.old.slabs (Evicted class))
            (with_slabs self.old (slabs_after self.old.slabs (Evicted class))) self.new result }
    {
        if !self.is_class(class) {
            return false;
        }
        self.slabs.evicted(class);
        true
    }

    /// Pages and lists are changed, if that is allowed.
    fn change_slabs(&mut self, change: Change) -> Result<bool, Refused>
        ensures { IfOk result (IsResultOf (can_change_slabs self.old.table self.old.slabs change)
            (with_slabs self.old (slabs_after self.old.slabs change)) self.new) }
    {
        match change {
            Change::Grow(class) => self.grow(class),
            Change::BeginMove(src, dst) => self.begin_move(src, dst),
            Change::FinishMove => self.finish_move(),
            Change::Touch(chunk) => self.touch(chunk),
            Change::SetAutomove(mode) => Ok(self.set_automove(mode)),
            Change::TrimLedger => Ok(self.trim_ledger()),
            Change::Passed(found) => self.pass(found),
            Change::Wrap => Ok(self.wrap()),
            Change::Evicted(class) => Ok(self.count_eviction(class)),
            _ => Ok(false),
        }
    }

    /// Whether the stripe of the key has room for a call and the key leads nowhere.
    fn can_tell_none(&self, key: u64) -> bool
        ensures { result ≡ can_record_miss (stripe_at self.now (stripe_of self.now key)) key }
    {
        let stripe = &self.stripes[self.stripe_of(key) as usize];
        stripe.is_ready() && stripe.aside() != Some(key) && stripe.find(key).is_none()
    }

    /// The stripe changes, if it may.
    fn change_stripe(&mut self, stripe: u64, how: StripeChange) -> Result<bool, Refused>
        ensures { IfOk result (IsResultOf (can_change_stripe how (stripe_at self.old stripe).state)
            (with_stripe self.old stripe (stripe_after how (stripe_at self.old stripe))) self.new) }
    {
        if stripe >= self.stripes.len() as u64 {
            return Ok(true);
        }
        let stripe = &mut self.stripes[stripe as usize];
        match how {
            StripeChange::Reserve => {
                stripe.reserve()?;
                Ok(true)
            }
            StripeChange::ReserveCall => {
                stripe.reserve_call()?;
                Ok(true)
            }
            StripeChange::Trim => trim(stripe),
            StripeChange::Forget => {
                stripe.forget();
                Ok(true)
            }
        }
    }

    /// Records a call on a key that isn't there: it was looked up, or was to be deleted.
    fn tell_none(&mut self, hand: u64, key: u64, deletes: bool)
        requires { can_record_miss (stripe_at self.old (stripe_of self.old key)) key ≡ true }
        ensures { self.new ≡ with_stripe self.old (stripe_of self.old key)
            (used_up (stripe_after_miss deletes (stripe_at self.old (stripe_of self.old key)).state
            (writer_of self.old hand) key)) }
    {
        let writer = self.writer(hand);
        let stripe = self.stripe_of(key);
        let stripe = &mut self.stripes[stripe as usize];
        if deletes {
            stripe.unlink(writer, key);
        } else {
            stripe.got(writer, key, None);
        }
    }

    /// The hand makes the change, if it is allowed.
    fn change(&mut self, hand: u64, change: Change) -> Result<bool, Refused>
        requires { hand < length self.old.ids }
        ensures { IfOk result (IsResultOf (allows_change self.old hand change)
            (after_change self.old hand change) self.new) }
    {
        match change {
            Change::OfStripe(stripe, how) => self.change_held(hand, stripe, how),
            Change::GotNone(key) => Ok(self.change_history(hand, key, false)),
            Change::DeletedNone(key) => Ok(self.change_history(hand, key, true)),
            _ => self.change_pages(hand, change),
        }
    }

    /// The hand changes a stripe that it has, if that is allowed.
    fn change_held(&mut self, hand: u64, stripe: u64, how: StripeChange) -> Result<bool, Refused>
        requires { hand < length self.old.ids }
        ensures { IfOk result (IsResultOf (allows_change self.old hand (OfStripe stripe how))
            (after_change self.old hand (OfStripe stripe how)) self.new) }
    {
        if !self.has_stripe(hand, stripe) {
            return Ok(false);
        }
        self.change_stripe(stripe, how)
    }

    /// The hand records a call on a key that isn't there, in a stripe that it has.
    fn change_history(&mut self, hand: u64, key: u64, deletes: bool) -> bool
        ensures { IsResultOf (allows_change self.old hand (call_of deletes key))
            (after_change self.old hand (call_of deletes key)) self.new result }
    {
        if !self.has_stripe(hand, self.stripe_of(key)) || !self.can_tell_none(key) {
            return false;
        }
        self.tell_none(hand, key, deletes);
        true
    }

    /// The hand changes pages and lists, if it has their lock.
    fn change_pages(&mut self, hand: u64, change: Change) -> Result<bool, Refused>
        requires { hand < length self.old.ids }
        ensures { IfOk result
            (IsResultOf (has_slabs self.old hand && can_change_slabs self.old.table self.old.slabs
            change) (with_look (with_slabs self.old (slabs_after self.old.slabs change)) hand
            (Changed change)) self.new) }
    {
        if !self.has_slabs(hand) || !self.change_slabs(change)? {
            return Ok(false);
        }
        self.note(hand, Look::Changed(change))?;
        Ok(true)
    }

    /// The hand makes all these changes, one after another, if each is allowed.
    pub(super) fn change_all(&mut self, hand: u64, changes: &[Change]) -> Result<bool, Refused>
        requires { hand < length self.old.ids }
        ensures { IfOk result (IsResultOf (allows_changes self.old hand changes.now)
            (after_changes self.old hand changes.now) self.new) }
    {
        for change in changes {
            if !self.change(hand, *change)? {
                return Ok(false);
            }
        }
        Ok(true)
    }
}
