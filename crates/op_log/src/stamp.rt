//! Stamps, which tell the pages of one checkpoint and its log from pages that were left by others.
ghost use Rattle.std.specs.Prelude.{◌≡◌};
ghost use Rattle.cache_model.specs.Loading.{has_stamp, stamp_of};
ghost use Rattle.op_log.specs.Stamps.{named};

use cache_model::Header;

/// The format and the era, which the pages of a checkpoint and of its log share.
#[derive(Clone, Copy, Debug, PartialEq, Eq)]
pub struct Stamp {
    /// The format in which the pages are spelled, 1 or 2.
    pub format: u8,
    /// The era, 0 to 2.
    pub era: u8,
}

impl Stamp {
    /// The stamp of a page with this header.
    pub fn of(header: &Header) -> Stamp
        ensures { named result ≡ stamp_of header.now }
    {
        Stamp {
            format: header.format,
            era: header.era,
        }
    }

    /// Whether a page with this header has the stamp.
    pub fn is_of(&self, header: &Header) -> bool
        ensures { result ≡ has_stamp (named self.now) header.now }
    {
        header.format == self.format && header.era == self.era
    }
}
