//! Reading back after a cut: how many blocks of a request count, and how many block writes before it are lost.
ghost use Rattle.std.specs.Prelude.{◌≡◌, ◌+◌, ◌≤◌, ◌<◌, ◌||◌, ◌&&◌, ◌==◌, nat_le, nat_lt, ◌^◌, ◌↔◌, ℕ, true, [], drop, take, length, IfOk, IfSome, OnOk};
ghost use Rattle.std.specs.List.{list_any};
ghost use Rattle.ft_base.specs.PlainDisk.{PlainDisk};
ghost use Rattle.ft_volume.specs.Standing.{StandFor};
ghost use Rattle.trace_replay.specs.Leaves.{LeavesClear};
ghost use Rattle.trace_replay.specs.MayRun.{CanReadBack};
ghost use Rattle.trace_replay.specs.Owing.{IsReadBack, IsWrittenAt};
ghost use Rattle.trace_replay.specs.Saying.{count_unless};
ghost use Rattle.trace_replay.specs.Went.{Went};

use crate::again::read_once;
use crate::recent::{RecentWrites, Request};
use crate::scratch::{Settled, Work};
use crate::writing::kept_once;
use crate::{Ended, Script};
use ft_base::{is_same, pattern};
use ft_media::{Media, Rig};
use ft_volume::Volume;

/// How many blocks of a request count, and how many block writes before it are lost.
#[derive(Clone, Copy, Debug, PartialEq, Eq)]
pub(crate) struct Found {
    pub(crate) kept: u64,
    pub(crate) lost: u64,
}

/// Whether one of these writes names the address. These are the writes in front of place `to`, from place `from` on.
fn is_among(recent: &RecentWrites, from: usize, to: usize, lba: u64) -> bool
    requires within { to ≤ length recent.now }
    ensures { result ≡ list_any (λ r. r.lba == lba) (drop from (take to recent.now)) }
{
    for j in from..to {
        if recent.get(j).lba == lba {
            return true;
        }
    }
    false
}

/// Whether a block that counts was written at the address after the write at this place: a block of the request from
/// `lba` on, or one that came after it.
fn is_newer(recent: &RecentWrites, lba: u64, found: Found, place: usize, address: u64) -> bool
    requires within { place ≤ length recent.now }
    requires fits { lba + found.kept < 2 ^ 64 }
    requires lost { found.lost ≤ length recent.now }
    ensures { result ≡ ((nat_le lba address && nat_lt address (lba + found.kept))
        || list_any (λ r. r.lba == address) (drop found.lost (take place recent.now))) }
{
    if lba <= address && address < lba + found.kept {
        return true;
    }
    is_among(recent, found.lost as usize, place, address)
}

/// What is found once the write at this place was looked at. A block that doesn't read as written, and that nothing
/// newer replaced, was lost, and so was all that came after it.
fn look(recent: &RecentWrites, lba: u64, found: Found, place: usize, shows: bool) -> Found
    requires within { place < length recent.now }
    requires fits { lba + found.kept < 2 ^ 64 }
    requires lost { found.lost ≤ place }
    ensures found { (count tag : ℕ) → (disk : PlainDisk) → IsReadBack lba count tag (take place recent.now) disk found.kept found.lost
        → (shows ≡ true ↔ IsWrittenAt recent.now place disk)
        → IsReadBack lba count tag (take (place + 1) recent.now) disk result.kept result.lost }
    ensures fewer { result.kept ≤ found.kept }
    ensures lost { result.lost ≤ place + 1 }
{
    // The length fits, so the place behind this one does:
    let _length = recent.len();
    let write = recent.get(place);
    let newer = is_newer(recent, lba, found, place, write.lba);
    if shows || newer {
        return found;
    }
    Found {
        kept: 0,
        lost: place as u64 + 1,
    }
}

/// Reads back the newest block writes, of which the first `kept` blocks of a request were found already. The answer is
/// `None` if a stop cut a read.
fn read_recent<P: Script, R: Rig, V: Volume<R>>(
    script: &mut P,
    rig: &mut R,
    volume: &mut V,
    request: Request,
    kept: u64,
    work: &mut Work,
) -> Result<Option<Found>, Ended>
    requires may { CanReadBack (V.owns volume.old) (V.owes volume.old) V.stands (V.state volume.old) (R.state rig.old) work.old.recent }
    requires request { request.lba + request.count ≤ (V.state volume.old).told.geometry.size }
    requires kept { kept ≤ request.count }
    ensures leaves { LeavesClear (V.owns volume.new) (V.owes volume.new) V.stands (V.state volume.old) (V.state volume.new)
        (R.state rig.old) (R.state rig.new) result }
    ensures found { IfOk result (λ o. IfSome o (λ found. (d : PlainDisk)
        → StandFor (V.stands (V.state volume.old).told) (R.state rig.old).contents d
        → IsReadBack request.lba request.count request.tag [] d kept 0
        → IsReadBack request.lba request.count request.tag work.old.recent d found.kept found.lost)) }
    ensures went { Went P.state P.came P.broke P.knows count_unless 0 script.old script.new (R.state rig.old) (R.state rig.new) result }
    ensures recent { work.new.recent ≡ work.old.recent }
{
    // The size is a `u64`, so no address of the volume overflows:
    let _size = volume.size();
    let mut found = Found { kept, lost: 0 };
    for i in 0..work.recent.len() {
        let write = work.recent.get(i);
        let cut = read_once(script, rig, volume, write.lba, &mut work.scratch.block)?;
        if cut {
            return Ok(None);
        }
        pattern(write.lba, write.tag, &mut work.scratch.wanted);
        let shows = is_same(&work.scratch.block, &work.scratch.wanted);
        found = look(&work.recent, request.lba, found, i, shows);
    }
    Ok(Some(found))
}

/// Reads back the blocks of a request, up to the first that is not the new one, and the newest block writes before it.
/// The answer is `None` if a stop cut a read.
fn read_back<P: Script, R: Rig, V: Volume<R>>(
    script: &mut P,
    rig: &mut R,
    volume: &mut V,
    request: Request,
    work: &mut Work,
) -> Result<Option<Found>, Ended>
    requires may { CanReadBack (V.owns volume.old) (V.owes volume.old) V.stands (V.state volume.old) (R.state rig.old) work.old.recent }
    requires request { request.lba + request.count ≤ (V.state volume.old).told.geometry.size }
    ensures leaves { LeavesClear (V.owns volume.new) (V.owes volume.new) V.stands (V.state volume.old) (V.state volume.new)
        (R.state rig.old) (R.state rig.new) result }
    ensures found { IfOk result (λ o. IfSome o (λ found. (d : PlainDisk)
        → StandFor (V.stands (V.state volume.old).told) (R.state rig.old).contents d
        → IsReadBack request.lba request.count request.tag work.old.recent d found.kept found.lost)) }
    ensures went { Went P.state P.came P.broke P.knows count_unless 0 script.old script.new (R.state rig.old) (R.state rig.new) result }
    ensures recent { work.new.recent ≡ work.old.recent }
{
    let front = kept_once(script, rig, volume, request, &mut work.scratch)?;
    match front {
        Some(kept) => read_recent(script, rig, volume, request, kept, work),
        None => Ok(None),
    }
}

/// Reads back after a cut, again from the start after each cut of a read. Nothing is owed then, and the newest block
/// writes are forgotten.
pub(crate) fn settle<P: Script, R: Rig, V: Volume<R>>(
    script: &mut P,
    rig: &mut R,
    volume: &mut V,
    request: Request,
    work: &mut Work,
) -> Result<Settled, Ended>
    requires may { CanReadBack (V.owns volume.old) (V.owes volume.old) V.stands (V.state volume.old) (R.state rig.old) work.old.recent }
    requires request { request.lba + request.count ≤ (V.state volume.old).told.geometry.size }
    ensures leaves { LeavesClear (V.owns volume.new) (V.owes volume.new) V.stands (V.state volume.old) (V.state volume.new)
        (R.state rig.old) (R.state rig.new) result }
    ensures found { IfOk result (λ s. (d : PlainDisk) → StandFor (V.stands (V.state volume.old).told) (R.state rig.old).contents d
        → IsReadBack request.lba request.count request.tag work.old.recent d s.kept s.lost) }
    ensures went { Went P.state P.came P.broke P.knows (λ s. s.cuts) 0 script.old script.new (R.state rig.old) (R.state rig.new) result }
    ensures forgot { OnOk result (work.new.recent ≡ []) }
{
    let mut cuts = 0;
    // At most 16 stops are armed, so the count of cuts can't overflow:
    let _armed = rig.armed();
    'again: loop {
        let back = read_back(script, rig, volume, request, work)?;
        if let Some(found) = back {
            work.recent.clear();
            return Ok(Settled {
                cuts,
                kept: found.kept,
                lost: found.lost,
            });
        }
        cuts += 1;
    }
}
