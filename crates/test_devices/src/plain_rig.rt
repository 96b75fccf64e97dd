//! Flash, disk and power as their definitions have them: plain lists, searched and copied whole. A block is known by
//! its tag, and 0 is the zero block.
use device_calls::Ending;
use ft_base::{Outcome, Stop};
use ft_media::{Counts, MediaError};
use std::alloc::{AllocError, Global};

#[derive(Clone, Copy, Debug, PartialEq, Eq)]
pub(crate) enum Kept {
    Blank,
    Whole(u64),
    Torn,
}

/// A device, its calls with the numbers that fail, and its faults.
#[derive(Drop)]
pub(crate) struct Device {
    failing: Vec<u64>,
    made: u64,
    pub(crate) faults: u64,
}

#[derive(Drop)]
pub(crate) struct Plain {
    pages: Vec<Vec<Kept>>,
    pub(crate) next: Vec<Option<u32>>,
    /// For each address the values since the last flush, the flushed one first.
    values: Vec<Vec<u64>>,
    pub(crate) on: bool,
    pub(crate) stops: Vec<Stop>,
    /// The device writes that the front stop counted.
    seen: u64,
    pub(crate) flash: Device,
    pub(crate) disk: Device,
    pub(crate) cuts: u64,
    pub(crate) counts: Counts,
}

impl Device {
    fn new(failing: Vec<u64>) -> Device {
        Device {
            failing,
            made: 0,
            faults: 0,
        }
    }

    fn read_fails(&mut self) -> bool {
        self.made = self.made.saturating_add(1);
        let fails = self.failing.contains(&self.made);
        if fails {
            self.faults = self.faults.saturating_add(1);
        }
        fails
    }
}

fn raise(count: &mut u64) {
    *count = count.saturating_add(1);
}

fn torn(page: Kept) -> Kept {
    match page {
        Kept::Blank => Kept::Blank,
        _ => Kept::Torn,
    }
}

fn cut_program(outcome: Outcome, tag: u64) -> Kept {
    match outcome {
        Outcome::Blank => Kept::Blank,
        Outcome::Whole => Kept::Whole(tag),
        Outcome::Torn | Outcome::Mixed => Kept::Torn,
    }
}

fn cut_erase(outcome: Outcome, number: usize, page: Kept) -> Kept {
    match outcome {
        Outcome::Blank => Kept::Blank,
        Outcome::Whole => page,
        Outcome::Torn => torn(page),
        Outcome::Mixed => match number % 3 {
            0 => page,
            1 => Kept::Blank,
            _ => torn(page),
        },
    }
}

impl Plain {
    pub(crate) fn new(
        alloc: Global,
        blocks: u32,
        pages: u32,
        size: u64,
        flash: Vec<u64>,
        disk: Vec<u64>,
    ) -> Result<Plain, AllocError> {
        let mut plain = Plain {
            pages: Vec::new(alloc),
            next: Vec::new(alloc),
            values: Vec::new(alloc),
            on: true,
            stops: Vec::new(alloc),
            seen: 0,
            flash: Device::new(flash),
            disk: Device::new(disk),
            cuts: 0,
            counts: Counts {
                programs: 0,
                erases: 0,
                disk_reads: 0,
                disk_writes: 0,
                disk_flushes: 0,
            },
        };
        for _ in 0..blocks {
            plain
                .pages
                .push(vec![in alloc; Kept::Blank; pages as usize]?)?;
            plain.next.push(Some(0))?;
        }
        for _ in 0..size {
            plain.values.push(vec![in alloc; 0; 1]?)?;
        }
        Ok(plain)
    }

    /// Begins a device write of the flash or of the disk.
    fn begin(&mut self, of_flash: bool) -> Ending {
        if !self.on {
            raise(&mut self.cuts);
            return Ending::Off;
        }
        let fails = self.count(of_flash);
        let Some(front) = self.stops.first().copied() else {
            return self.end(of_flash, fails);
        };
        raise(&mut self.seen);
        if self.seen < front.after {
            return self.end(of_flash, fails);
        }
        self.stops.remove(0);
        self.seen = 0;
        self.on = false;
        raise(&mut self.cuts);
        Ending::Cut(front.outcome)
    }

    fn count(&mut self, of_flash: bool) -> bool {
        let device = if of_flash {
            &mut self.flash
        } else {
            &mut self.disk
        };
        device.made = device.made.saturating_add(1);
        device.failing.contains(&device.made)
    }

    fn end(&mut self, of_flash: bool, fails: bool) -> Ending {
        if !fails {
            return Ending::Done;
        }
        let device = if of_flash {
            &mut self.flash
        } else {
            &mut self.disk
        };
        raise(&mut device.faults);
        Ending::Failed
    }

    /// Makes a crash: no block is ready, and each disk block has one value.
    fn crash(&mut self, outcome: Outcome) {
        for next in self.next.iter_mut() {
            *next = None;
        }
        for (lba, values) in self.values.iter_mut().enumerate() {
            let newest = values.last().copied().unwrap_or(0);
            let flushed = values.first().copied().unwrap_or(0);
            let left = match outcome {
                Outcome::Blank => flushed,
                Outcome::Whole => newest,
                Outcome::Torn | Outcome::Mixed => { if lba % 2 == 1 { newest } else { flushed } }
            };
            values.truncate(1);
            if let Some(only) = values.first_mut() {
                *only = left;
            }
        }
    }

    fn set_page(&mut self, block: u32, page: u32, kept: Kept) {
        if let Some(pages) = self.pages.get_mut(block as usize) {
            if let Some(place) = pages.get_mut(page as usize) {
                *place = kept;
            }
        }
    }

    fn set_next(&mut self, block: u32, next: Option<u32>) {
        if let Some(place) = self.next.get_mut(block as usize) {
            *place = next;
        }
    }

    pub(crate) fn program(&mut self, block: u32, page: u32, tag: u64) -> Ending {
        let ending = self.begin(true);
        match ending {
            Ending::Done => {
                self.set_page(block, page, Kept::Whole(tag));
                self.set_next(block, page.checked_add(1));
                raise(&mut self.counts.programs);
            }
            Ending::Failed => {
                self.set_page(block, page, Kept::Torn);
                self.set_next(block, None);
            }
            Ending::Cut(outcome) => {
                self.set_page(block, page, cut_program(outcome, tag));
                self.crash(outcome);
            }
            Ending::Off => {}
        }
        ending
    }

    pub(crate) fn erase(&mut self, block: u32) -> Ending {
        let ending = self.begin(true);
        let Some(pages) = self.pages.get_mut(block as usize) else {
            return ending;
        };
        match ending {
            Ending::Done | Ending::Failed => {
                for page in pages.iter_mut() {
                    *page = Kept::Blank;
                }
            }
            Ending::Cut(outcome) => {
                for (number, page) in pages.iter_mut().enumerate() {
                    *page = cut_erase(outcome, number, *page);
                }
            }
            Ending::Off => {}
        }
        match ending {
            Ending::Done => {
                self.set_next(block, Some(0));
                raise(&mut self.counts.erases);
            }
            Ending::Failed => self.set_next(block, None),
            Ending::Cut(outcome) => self.crash(outcome),
            Ending::Off => {}
        }
        ending
    }

    pub(crate) fn write(&mut self, lba: u64, tag: u64) -> Result<Ending, AllocError> {
        let ending = self.begin(false);
        match ending {
            Ending::Done => {
                self.push(lba, tag)?;
                raise(&mut self.counts.disk_writes);
            }
            Ending::Cut(outcome) => {
                self.push(lba, tag)?;
                self.crash(outcome);
            }
            Ending::Failed | Ending::Off => {}
        }
        Ok(ending)
    }

    fn push(&mut self, lba: u64, tag: u64) -> Result<(), AllocError> {
        if let Some(values) = self.values.get_mut(lba as usize) {
            values.push(tag)?;
        }
        Ok(())
    }

    pub(crate) fn flush(&mut self) -> Ending {
        let ending = self.begin(false);
        match ending {
            Ending::Done => {
                for values in self.values.iter_mut() {
                    let newest = values.last().copied().unwrap_or(0);
                    values.truncate(1);
                    if let Some(only) = values.first_mut() {
                        *only = newest;
                    }
                }
                raise(&mut self.counts.disk_flushes);
            }
            Ending::Cut(outcome) => self.crash(outcome),
            Ending::Failed | Ending::Off => {}
        }
        ending
    }

    pub(crate) fn cut(&mut self, outcome: Outcome) {
        self.on = false;
        raise(&mut self.cuts);
        self.crash(outcome);
    }

    pub(crate) fn read_page(&mut self, block: u32, page: u32) -> Result<Kept, MediaError> {
        if !self.on {
            raise(&mut self.cuts);
            return Err(MediaError::PowerLost);
        }
        if self.flash.read_fails() {
            return Err(MediaError::Failed);
        }
        let pages = self.pages.get(block as usize);
        Ok(
            pages
                .and_then(|pages| pages.get(page as usize))
                .copied()
                .unwrap_or(Kept::Blank),
        )
    }

    pub(crate) fn read_block(&mut self, lba: u64) -> Result<u64, MediaError> {
        if !self.on {
            raise(&mut self.cuts);
            return Err(MediaError::PowerLost);
        }
        if self.disk.read_fails() {
            return Err(MediaError::Failed);
        }
        raise(&mut self.counts.disk_reads);
        let values = self.values.get(lba as usize);
        Ok(
            values
                .and_then(|values| values.last())
                .copied()
                .unwrap_or(0),
        )
    }
}
