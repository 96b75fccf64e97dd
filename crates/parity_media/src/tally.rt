//! The counts of a rig with parity that may differ from the rig beneath: programs, failed flash calls, and power cuts.
ghost use Rattle.std.specs.Prelude.{◌≡◌, ◌≤◌};
ghost use Rattle.ft_base.specs.Count.{last_count};

use ft_base::bump;
use ft_media::MediaError;

/// What a rig with parity counts itself: pages programmed, calls of its flash that failed, and calls without power. No
/// count falls, and each stands still at its last value.
#[derive(Drop)]
pub(crate) struct Tally {
    programs: u64,
    failed: u64,
    cuts: u64,
    ghost programs_small: { programs ≤ last_count },
    ghost failed_small: { failed ≤ last_count },
    ghost cuts_small: { cuts ≤ last_count },
}

impl Tally {
    ghost use Rattle.std.specs.Prelude.{true};
    ghost use Rattle.ft_base.specs.Count.{bumped};
    ghost use Rattle.ft_media.specs.State.{failed, lost};
    ghost use Rattle.ft_media.specs.Media.{if_ok};
    ghost use Rattle.parity_media.specs.Kept.{programs_of, failed_of, cuts_of, counted_if};

    /// Nothing yet.
    #[tactic(auto, unfolding(ft_base::specs::Count::last_count))]
    pub(crate) fn new() -> Tally
        ensures programs { programs_of result ≡ 0 }
        ensures failed { failed_of result ≡ 0 }
        ensures cuts { cuts_of result ≡ 0 }
    {
        Tally {
            programs: 0,
            failed: 0,
            cuts: 0,
        }
    }

    /// Pages programmed.
    pub(crate) fn programs(&self) -> u64
        ensures { result ≡ programs_of self.now }
    {
        self.programs
    }

    /// Counts the answer of a program.
    pub(crate) fn count_program(&mut self, answer: &Result<(), MediaError>)
        ensures programs { programs_of self.new ≡ if_ok answer.now (bumped (programs_of self.old)) (programs_of self.old) }
        ensures failed { failed_of self.new ≡ counted_if (failed answer.now) (failed_of self.old) }
        ensures cuts { cuts_of self.new ≡ counted_if (lost answer.now) (cuts_of self.old) }
    {
        match answer {
            Ok(()) => self.programs = bump(self.programs),
            Err(MediaError::Failed) => self.failed = bump(self.failed),
            Err(MediaError::PowerLost) => self.cuts = bump(self.cuts),
            Err(MediaError::OutOfMemory) => {}
        }
    }

    /// Counts the answer of another call of the flash.
    pub(crate) fn count_flash<T>(&mut self, answer: &Result<T, MediaError>)
        ensures programs { programs_of self.new ≡ programs_of self.old }
        ensures failed { failed_of self.new ≡ counted_if (failed answer.now) (failed_of self.old) }
        ensures cuts { cuts_of self.new ≡ counted_if (lost answer.now) (cuts_of self.old) }
    {
        match answer {
            Ok(_) => {}
            Err(MediaError::Failed) => self.failed = bump(self.failed),
            Err(MediaError::PowerLost) => self.cuts = bump(self.cuts),
            Err(MediaError::OutOfMemory) => {}
        }
    }

    /// Counts the answer of a call of the disk.
    pub(crate) fn count_disk(&mut self, answer: &Result<(), MediaError>)
        ensures programs { programs_of self.new ≡ programs_of self.old }
        ensures failed { failed_of self.new ≡ failed_of self.old }
        ensures cuts { cuts_of self.new ≡ counted_if (lost answer.now) (cuts_of self.old) }
    {
        match answer {
            Err(MediaError::PowerLost) => self.cuts = bump(self.cuts),
            _ => {}
        }
    }

    /// Power was cut.
    pub(crate) fn count_cut(&mut self)
        ensures programs { programs_of self.new ≡ programs_of self.old }
        ensures failed { failed_of self.new ≡ failed_of self.old }
        ensures cuts { cuts_of self.new ≡ bumped (cuts_of self.old) }
    {
        self.cuts = bump(self.cuts);
    }
}
