//! The trait of raw rigs: raw media that a caller fits anew, stops and powers.
ghost use Rattle.std.specs.Prelude.{◌≡◌, ◌<◌, ◌≤◌, length, OnOk, OnErr};
ghost use Rattle.ft_base.specs.declared.block.Place.{Place};
ghost use Rattle.ft_media.specs.Rig.{Armed, Cut, powered};
ghost use Rattle.ft_media.specs.Fitted.{fitted};
ghost use Rattle.sealed_media.specs.Seal.{IsErased};
ghost use Rattle.sealed_media.specs.RawState.{plain_state};

use crate::RawMedia;
use ft_base::Outcome;
use ft_media::Counts;
use std::alloc::{AllocError, Global};

/// Raw media whose size, power and stops the caller sets.
pub trait RawRig: RawMedia {
    /// Makes flash and disk anew: each page is erased, each block ready and each disk block zero. Power is on, nothing
    /// is armed, and the counts stay. On `Err` nothing has changed.
    fn fit(&mut self, alloc: Global, blocks: u32, pages: u32, size: u64) -> Result<(), AllocError>
        ensures ok { OnOk result (plain_state (Self.state self.new) ≡ fitted (plain_state (Self.state self.old)) blocks pages size) }
        ensures erased { OnOk result ((at : Place) → IsErased ((Self.state self.new).contents.flash.page at)) }
        ensures err { OnErr result (Self.state self.new ≡ Self.state self.old) };

    /// Puts a stop at the end of the queue. The first stop of the queue cuts a device write.
    fn arm(&mut self, after: u64, outcome: Outcome)
        requires room { length (Self.state self.old).power.stops < 16 }
        requires after { 1 ≤ after }
        ensures armed { Armed (plain_state (Self.state self.old)) (plain_state (Self.state self.new)) after outcome }
        ensures contents { (Self.state self.new).contents ≡ (Self.state self.old).contents };

    /// How many stops are armed: at most 16.
    fn armed(&self) -> u32
        ensures armed { result ≡ length (Self.state self.now).power.stops }
        ensures few { result ≤ 16 };

    /// Turns power off, between two device writes.
    fn cut(&mut self, outcome: Outcome)
        ensures cut { Cut (plain_state (Self.state self.old)) (plain_state (Self.state self.new)) outcome }
        ensures pages { (Self.state self.new).contents.flash.page ≡ (Self.state self.old).contents.flash.page };

    /// Turns power on.
    fn power_on(&mut self)
        ensures on { plain_state (Self.state self.new) ≡ powered (plain_state (Self.state self.old)) }
        ensures contents { (Self.state self.new).contents ≡ (Self.state self.old).contents };

    /// Whether power is on.
    fn is_on(&self) -> bool
        ensures { result ≡ (Self.state self.now).power.on };

    /// The counts of calls that answered `Ok`.
    fn counts(&self) -> Counts
        ensures { result ≡ (Self.state self.now).counts };
}
