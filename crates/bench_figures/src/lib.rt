//! Means, as the rows of a measurement show them: tenths and hundredths of a mean, rounded down, and times in
//! nanoseconds.
#![tactic(auto)]

ghost use Rattle.std.specs.Prelude.{◌≡◌};
ghost use Rattle.bench_figures.specs.Figures.{tenths, hundredths, nanoseconds};

use std::time::Duration;

/// A time in nanoseconds, at most 2^64 - 1.
pub fn nanoseconds(time: Duration) -> u64
    ensures { result ≡ nanoseconds time }
{
    time.as_nanos().min(u128::from(u64::MAX)) as u64
}

/// A total divided by a count, in tenths, rounded down; 0 if nothing was counted. The total in tenths is taken as at
/// most 2^64 - 1.
pub fn tenths_of(total: u64, count: u64) -> u64
    ensures { result ≡ tenths total count }
{
    if count == 0 {
        return 0;
    }
    total.saturating_mul(10) / count
}

/// The same in hundredths.
pub fn hundredths_of(total: u64, count: u64) -> u64
    ensures { result ≡ hundredths total count }
{
    if count == 0 {
        return 0;
    }
    total.saturating_mul(100) / count
}
