//! The contents, one after another, and how often each answer came.

use crate::flash::{half_erase, put_pages, rig_with};
use crate::opened::{Opened, holds};
use crate::runs::{Left, left_by};
use crate::spoiling::{make_blank, make_random, spoil};
use crate::stuck::Stuck;
use ft_base::{Geometry, Page};
use mem_rig::MemRig;
use op_log::OpenError;
use rand_core::SeedableRng;
use rand_core::utils::NextWord;
use rand_pcg::Lcg64Xsh32;
use recovery::plain::{PlainLoad, plain_load};
use std::alloc::Global;

/// How many runs there are, and how many contents are made of what each leaves.
const RUNS: u64 = 80;

const CONTENTS: u64 = 250;

/// How often each answer came, how many flashes that were opened have a strange page, and how often the two programs
/// differed.
#[derive(Clone, Copy, Debug)]
pub(crate) struct Tally {
    pub(crate) opened: u64,
    pub(crate) not_formatted: u64,
    pub(crate) other_geometry: u64,
    pub(crate) damaged: u64,
    pub(crate) strange: u64,
    pub(crate) differ: u64,
}

const NOTHING: Tally = Tally {
    opened: 0,
    not_formatted: 0,
    other_geometry: 0,
    damaged: 0,
    strange: 0,
    differ: 0,
};

/// What both programs answered.
#[derive(Clone, Copy)]
enum Answer {
    /// The flash is opened. A page of it is strange, or none.
    Opened(bool),
    NotFormatted,
    OtherGeometry,
    Damaged,
    /// They answered otherwise, or the cache holds something else.
    Differ,
}

fn bump(count: &mut u64) {
    *count = count.saturating_add(1);
}

fn add(tally: &mut Tally, answer: Answer) {
    match answer {
        Answer::Opened(false) => bump(&mut tally.opened),
        Answer::Opened(true) => {
            bump(&mut tally.opened);
            bump(&mut tally.strange);
        }
        Answer::NotFormatted => bump(&mut tally.not_formatted),
        Answer::OtherGeometry => bump(&mut tally.other_geometry),
        Answer::Damaged => bump(&mut tally.damaged),
        Answer::Differ => bump(&mut tally.differ),
    }
}

// ---- one flash

/// What a refusal is, if the plain program has the same.
fn refused(error: OpenError, plain: &PlainLoad) -> Answer {
    match error {
        OpenError::NotFormatted => match plain {
            PlainLoad::NotFormatted => Answer::NotFormatted,
            _ => Answer::Differ,
        },
        OpenError::OtherGeometry { found, .. } => match plain {
            PlainLoad::OtherGeometry(seal) if found == *seal => Answer::OtherGeometry,
            _ => Answer::Differ,
        },
        OpenError::Damaged { block, page } => match plain {
            PlainLoad::Damaged(at) if at.block == block && at.page == page => Answer::Damaged,
            _ => Answer::Differ,
        },
        _ => Answer::Differ,
    }
}

/// What a cache that was opened is, if the plain program loads what it holds.
fn held(opened: &mut Opened, pages: &[Page], plain: &PlainLoad) -> Result<Answer, Stuck> {
    match plain {
        PlainLoad::Loaded(map) => match holds(opened, pages, map)? {
            Some(strange) => Ok(Answer::Opened(strange)),
            None => Ok(Answer::Differ),
        },
        _ => Ok(Answer::Differ),
    }
}

/// Opens the flash of a rig, and asks the plain program what its pages are loaded as.
fn answer_of(alloc: Global, rig: MemRig, geometry: &Geometry) -> Result<Answer, Stuck> {
    let mut rig = rig;
    let mut pages = Vec::new(alloc);
    put_pages(&mut rig, &mut pages)?;
    let plain = plain_load(alloc, geometry, pages.as_slice())?;
    match Opened::open(alloc, rig, geometry) {
        Ok(opened) => {
            let mut opened = opened;
            held(&mut opened, pages.as_slice(), &plain)
        }
        Err(error) => Ok(refused(error, &plain)),
    }
}

// ---- the contents

/// The numbers for which the flash is opened: sometimes those of a smaller volume.
fn wanted_of(geometry: &Geometry, words: &mut Lcg64Xsh32) -> Geometry {
    if words.next_word() % 32 != 0 {
        return *geometry;
    }
    match Geometry::new(geometry.p(), geometry.c(), geometry.l(), geometry.j(), 63) {
        Ok(smaller) => smaller,
        Err(_) => *geometry,
    }
}

/// Spoils up to three things of the pages that a run left, or makes them blank or random.
fn change(
    pages: &mut [Page],
    geometry: &Geometry,
    others: &[Page],
    number: u64,
    words: &mut Lcg64Xsh32,
) {
    match number {
        0 => {}
        1 => make_blank(pages),
        2 | 3 | 4 | 5 | 6 => make_random(pages, words),
        _ => {
            for _ in 0..1 + words.next_word() % 3 {
                spoil(pages, geometry, others, words);
            }
        }
    }
}

/// Opens the contents of this number that are made of what a run left.
fn answer_to(
    alloc: Global,
    left: &Left,
    others: &Left,
    number: u64,
    words: &mut Lcg64Xsh32,
) -> Result<Answer, Stuck> {
    let geometry = left.geometry;
    let mut pages = Vec::from_slice(alloc, left.pages.as_slice())?;
    change(
        pages.as_mut_slice(),
        &geometry,
        others.pages.as_slice(),
        number,
        words,
    );
    let mut rig = rig_with(alloc, &geometry, pages.as_slice())?;
    if number > 6 && words.next_word() % 16 == 0 {
        half_erase(&mut rig, words.next_word() % geometry.blocks());
    }
    answer_of(alloc, rig, &wanted_of(&geometry, words))
}

/// Opens all contents that are made of what a run left.
fn tally_run(
    alloc: Global,
    left: &Left,
    others: &Left,
    run: u64,
    tally: &mut Tally,
) -> Result<(), Stuck> {
    let mut words = Lcg64Xsh32::seed_from_u64(run.saturating_add(1_000_000));
    for number in 0..CONTENTS {
        let answer = answer_to(alloc, left, others, number, &mut words)?;
        add(tally, answer);
    }
    Ok(())
}

/// Opens all contents.
pub(crate) fn tally_all(alloc: Global) -> Result<Tally, Stuck> {
    let mut tally = NOTHING;
    let mut others = left_by(alloc, RUNS)?;
    for run in 0..RUNS {
        let left = left_by(alloc, run)?;
        tally_run(alloc, &left, &others, run, &mut tally)?;
        others = left;
    }
    Ok(tally)
}
