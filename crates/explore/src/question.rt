//! What is asked of every run.
ghost use Rattle.std.specs.Prelude.{◌≡◌, true, option_copied};
ghost use Rattle.std.specs.Option.{option_map_or};
ghost use Rattle.explore.specs.Ahead.{by_sets, counts_locals, is_unmixed, may_pass};
ghost use Rattle.explore.specs.Questions.{lists, looks};
ghost use Rattle.explore.specs.Visits.{asked_at};

use images::Cond;
use machine::Machine;

/// What is asked of every run from a state. A condition that is not asked for is None.
#[derive(Drop)]
pub struct Question {
    /// Whether runs may crash, any number of times. Otherwise only runs without a crash are asked about.
    pub crashes: bool,
    /// What is to be true of every image that a crash may leave, in every state that a run reaches. Registers and coherent
    /// words are those of the state.
    pub all: Option<Cond>,
    /// What is to be true at every end that a run reaches before its first crash: of those whose processors run their main
    /// programs.
    pub ends: Option<Cond>,
    /// What is to be true at every end that a run reaches after a crash: of those whose processors run their recovery
    /// programs.
    pub recovered: Option<Cond>,
    /// Whether the images are asked for that a crash may leave, in all states that runs reach.
    pub images: bool,
}

impl Question {
    /// The condition that is asked of ends: of those after a crash, or of those before the first one.
    pub(crate) fn asked_at(&self, recovered: bool) -> Option<&Cond>
        ensures { option_copied result ≡ asked_at recovered self.now }
    {
        if recovered {
            self.recovered.as_ref()
        } else {
            self.ends.as_ref()
        }
    }

    /// The condition that is asked of every image.
    pub(crate) fn of_all(&self) -> Option<&Cond>
        ensures { option_copied result ≡ self.now.all }
    {
        self.all.as_ref()
    }

    /// Whether each image of a state is listed.
    pub(crate) fn lists(&self) -> bool
        ensures { result ≡ lists self.now }
    {
        self.crashes || self.images
    }

    /// Whether the images of a state are looked at.
    pub(crate) fn looks(&self) -> bool
        ensures { result ≡ looks self.now }
    {
        self.lists() || self.all.is_some()
    }

    /// Whether images may be left to a later state: where keys tell what each line may hold, and an image alone decides what is
    /// asked of every state.
    pub(crate) fn may_pass(&self, sets: bool) -> bool
        ensures { result ≡ may_pass sets self.now }
    {
        match &self.all {
            Some(cond) => sets && cond.reads_persisted(),
            None => sets,
        }
    }

    /// Whether no condition is asked of every state that tests persisted values and others.
    fn is_unmixed(&self) -> bool
        ensures { result ≡ option_map_or is_unmixed self.now.all true }
    {
        match &self.all {
            Some(cond) => cond.reads_persisted() || !cond.asks_persisted(),
            None => true,
        }
    }

    /// Whether keys tell what each line may hold, and not the order of what is pending: where no condition is asked of every
    /// state that tests persisted values and others, and nothing is pending at first.
    pub(crate) fn by_sets(&self, start: &Machine) -> bool
        ensures { result ≡ by_sets self.now start.now }
    {
        self.is_unmixed() && start.view().pending().len() == 0
    }

    /// Whether local steps count as a processor's own: where no register is asked for of every state.
    pub(crate) fn counts_locals(&self) -> bool
        ensures { result ≡ counts_locals self.now }
    {
        match &self.all {
            Some(cond) => !cond.reads_registers(),
            None => true,
        }
    }
}
