//! The cache as a plain list: how each command changes it, and the list that a cut may leave.
ghost use Rattle.std.specs.Prelude.{◌<◌};

/// A command, with its address, and the tag of the block that it writes.
#[derive(Clone, Copy)]
pub(crate) enum Step {
    WriteDirty(u64, u64),
    WriteLater(u64, u64),
    WriteClean(u64, u64),
    Evict(u64),
    Clean(u64),
    Commit,
    Checkpoint,
}

/// The content of an address: none, or a block with a tag.
#[derive(Clone, Copy, PartialEq, Eq)]
pub(crate) enum Held {
    Nothing,
    Clean(u64),
    Dirty(u64),
}

/// The content of each address, from 0 on.
#[derive(Clone, Copy)]
pub(crate) struct Plain(pub(crate) [Held; 16]);

/// A list, and the list that a crash leaves of it.
#[derive(Clone, Copy)]
pub(crate) struct Lists {
    pub(crate) now: Plain,
    pub(crate) durable: Plain,
}

pub(crate) const NOTHING: Lists = Lists {
    now: Plain([Held::Nothing; 16]),
    durable: Plain([Held::Nothing; 16]),
};

/// The list with these contents. A crash leaves all of it.
pub(crate) fn lists_of(held: &[(u64, Held)]) -> Lists {
    let mut now = NOTHING.now;
    for (lba, one) in held {
        now.0[*lba as usize % 16] = *one;
    }
    Lists { now, durable: now }
}

/// The address of a command.
fn lba_of(step: &Step) -> u64 {
    match *step {
        Step::WriteDirty(lba, _) => lba,
        Step::WriteLater(lba, _) => lba,
        Step::WriteClean(lba, _) => lba,
        Step::Evict(lba) => lba,
        Step::Clean(lba) => lba,
        Step::Commit | Step::Checkpoint => 0,
    }
}

/// The content of an address after a command.
fn held_after(old: Held, step: &Step) -> Held {
    match *step {
        Step::WriteDirty(_, tag) | Step::WriteLater(_, tag) => Held::Dirty(tag),
        Step::WriteClean(_, tag) => Held::Clean(tag),
        Step::Evict(_) => Held::Nothing,
        Step::Clean(_) => cleaned(old),
        Step::Commit | Step::Checkpoint => old,
    }
}

fn cleaned(old: Held) -> Held {
    match old {
        Held::Dirty(tag) => Held::Clean(tag),
        _ => old,
    }
}

/// Whether after a command a crash can undo nothing.
fn commits(old: Held, step: &Step) -> bool {
    match *step {
        Step::WriteDirty(_, _) | Step::Commit | Step::Checkpoint => true,
        Step::WriteClean(_, _) | Step::Evict(_) => old != Held::Nothing,
        Step::WriteLater(_, _) | Step::Clean(_) => false,
    }
}

/// Gives the lists a command that answers `Ok`.
pub(crate) fn give(lists: &mut Lists, step: &Step) {
    let at = lba_of(step) as usize % 16;
    let old = lists.now.0[at];
    lists.now.0[at] = held_after(old, step);
    if commits(old, step) {
        lists.durable = lists.now;
    }
}

/// Whether this list may be left if the command after `given` of these was cut. It is the list before the command
/// without the buffered changes, that list, or the list after the command. A later write may have committed what was
/// buffered before it.
pub(crate) fn may_be_left(
    lists: &Lists,
    steps: &[Step],
    given: usize,
    found: &Plain,
    gives_way: bool,
) -> bool {
    if given >= steps.len() {
        return false;
    }
    let mut lists = *lists;
    let mut is_durable = is_left(&lists.durable, found, gives_way);
    for step in &steps[..given] {
        let is_before = is_left(&lists.now, found, gives_way);
        give(&mut lists, step);
        is_durable = is_durable_after(is_durable, is_before, step)
            || is_left(&lists.durable, found, gives_way);
    }
    if is_durable || is_left(&lists.now, found, gives_way) {
        return true;
    }
    give(&mut lists, &steps[given]);
    is_left(&lists.now, found, gives_way)
}

/// Whether a crash may leave a list after a command, if it might leave it before, or the list was held before.
fn is_durable_after(is_durable: bool, is_before: bool, step: &Step) -> bool {
    match *step {
        Step::WriteLater(_, _) => is_durable || is_before,
        _ => false,
    }
}

/// Whether all of a list is found, or all but clean groups that gave way.
fn is_left(list: &Plain, found: &Plain, gives_way: bool) -> bool {
    if gives_way {
        return gave_way(list, found);
    }
    list.0 == found.0
}

/// Whether each group is as in the list, or is gone and had no dirty address.
fn gave_way(list: &Plain, found: &Plain) -> bool {
    for group in 0..4 {
        if !is_group_left(list, found, group) && !is_group_gone(list, found, group) {
            return false;
        }
    }
    true
}

fn is_group_left(list: &Plain, found: &Plain, group: usize) -> bool
    requires { group < 4 }
{
    for i in 0..4 {
        if found.0[group * 4 + i] != list.0[group * 4 + i] {
            return false;
        }
    }
    true
}

fn is_group_gone(list: &Plain, found: &Plain, group: usize) -> bool
    requires { group < 4 }
{
    for i in 0..4 {
        if found.0[group * 4 + i] != Held::Nothing || is_dirty(list.0[group * 4 + i]) {
            return false;
        }
    }
    true
}

fn is_dirty(held: Held) -> bool {
    match held {
        Held::Dirty(_) => true,
        _ => false,
    }
}

/// Whether only blocks of the list are held, and not all of them.
pub(crate) fn is_less(list: &Plain, found: &Plain) -> bool {
    for at in 0..16 {
        if found.0[at] != Held::Nothing && found.0[at] != list.0[at] {
            return false;
        }
    }
    list.0 != found.0
}

/// How many groups have a held address.
pub(crate) fn groups_held(found: &Plain) -> u32 {
    let mut count: u32 = 0;
    for group in 0..4 {
        if !is_group_gone(found, found, group) {
            count = count.wrapping_add(1);
        }
    }
    count
}
