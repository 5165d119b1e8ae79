//! A size class as the decider knows it.
ghost use Rattle.std.specs.Prelude.{◌≡◌, ◌≤◌, length, false};
ghost use Rattle.mc_watch.specs.Remembered.{fresh_class, class_after_window, all_noted, remembered_has_fallen, leader_of, lowest_watched, remembered_greatest_rise, has_been_quiet, remembered_has_spare_page};

use mc_classes::ClassId;

/// A size class as of the last window.
#[derive(Clone, Copy)]
pub(crate) struct Watched {
    /// The chunks of a page.
    per_page: u64,
    /// How many of its items were ever evicted to make room.
    evictions: u64,
    /// How many of these in the last window.
    rise: u64,
    /// How many pages the class had in the last window.
    pages: u64,
    /// How many free chunks the class had in the last window.
    free: u64,
    /// Whether the class was quiet in the last three windows, the newest first.
    quiet: [bool; 3],
}

impl Watched {
    /// A class before any window.
    pub(crate) fn new(per_page: u64) -> Watched
        ensures { result ≡ fresh_class per_page }
    {
        Watched {
            per_page,
            evictions: 0,
            rise: 0,
            pages: 0,
            free: 0,
            quiet: [false; 3],
        }
    }

    /// Takes the numbers of a window.
    fn note(&mut self, evictions: u64, pages: u64, free: u64)
        requires { self.old.evictions ≤ evictions }
        ensures { self.new ≡ class_after_window self.old evictions pages free }
    {
        self.rise = evictions - self.evictions;
        self.evictions = evictions;
        self.pages = pages;
        self.free = free;
        let is_quiet = self.rise == 0 && pages > 2;
        self.quiet = [is_quiet, self.quiet[0], self.quiet[1]];
    }

    /// Whether the class was quiet in all of the last three windows.
    fn has_been_quiet(&self) -> bool
        ensures { result ≡ has_been_quiet self.now }
    {
        self.quiet.iter().all(|quiet| *quiet)
    }

    /// Whether it has a page to spare (own threshold): more free chunks than two and a half pages have. Both sides are
    /// doubled, and in 128 bits no number is too large for that.
    fn has_spare_page(&self) -> bool
        ensures { result ≡ remembered_has_spare_page self.now }
    {
        self.pages >= 2 && 2 * u128::from(self.free) > 5 * u128::from(self.per_page)
    }
}

/// Whether the evictions of some class are fewer than before.
pub(crate) fn has_fallen(classes: &[Watched], evictions: &[u64]) -> bool
    ensures { result ≡ remembered_has_fallen classes.now evictions.now }
{
    classes
        .iter()
        .zip(evictions)
        .any(|(class, evictions)| *evictions < class.evictions)
}

/// Takes the numbers of a window, one of each for each class.
pub(crate) fn note_all(classes: &mut [Watched], evictions: &[u64], pages: &[u64], free: &[u64])
    requires evictions { length evictions.now ≡ length classes.old }
    requires pages { length pages.now ≡ length classes.old }
    requires free { length free.now ≡ length classes.old }
    requires risen { remembered_has_fallen classes.old evictions.now ≡ false }
    ensures { classes.new ≡ all_noted classes.old evictions.now pages.now free.now }
{
    for place in 0..classes.len() {
        classes[place].note(evictions[place], pages[place], free[place]);
    }
}

/// The class that led the last window: the lowest with the greatest rise, if any rose.
pub(crate) fn leader(classes: &[Watched]) -> Option<ClassId>
    ensures { result ≡ leader_of classes.now }
{
    let greatest = greatest_rise(classes);
    classes
        .iter()
        .position(|class| class.rise > 0 && class.rise == greatest)
        .map(|place| place as u64 + 1)
}

/// The greatest rise of the last window.
fn greatest_rise(classes: &[Watched]) -> u64
    ensures { result ≡ remembered_greatest_rise classes.now }
{
    classes
        .iter()
        .fold(0, |greatest, class| greatest.max(class.rise))
}

/// The lowest class that was quiet in all of the last three windows.
pub(crate) fn quiet_class(classes: &[Watched]) -> Option<ClassId>
    ensures { result ≡ lowest_watched has_been_quiet classes.now }
{
    classes
        .iter()
        .position(|class| class.has_been_quiet())
        .map(|place| place as u64 + 1)
}

/// The lowest class that has a page to spare.
pub(crate) fn spare_class(classes: &[Watched]) -> Option<ClassId>
    ensures { result ≡ lowest_watched remembered_has_spare_page classes.now }
{
    classes
        .iter()
        .position(|class| class.has_spare_page())
        .map(|place| place as u64 + 1)
}
