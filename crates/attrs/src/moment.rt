//! A moment, and its days and seconds since 2007-01-01 UTC, from which Omaha counts.

ghost use Rattle.std.specs.Prelude.{◌≡◌, ◌<◌, ◌≤◌, pos};
ghost use Rattle.attrs.specs.Moment.{elapsed, elapsed_days, elapsed_seconds};
ghost use Rattle.attrs.specs.Moment.{first_second, last_second};

/// A second of the Unix clock, which may be before 1970.
pub type Moment = i64;

/// The first second of 2007.
const FIRST_SECOND: i64 = Elapsed::FIRST_SECOND as i64;
/// The last second of the year 9999.
const LAST_SECOND: i64 = 253402300799;

/// The time from 2007-01-01 UTC to a moment.
#[derive(Clone, Copy)]
pub struct Elapsed {
    /// Whole days.
    pub days: u32,
    /// Seconds of the current day, 0 to 86399.
    pub seconds: u32,
}

impl Elapsed {
    /// The second from which time is counted, the first of 2007.
    pub const FIRST_SECOND: u64 = 1167609600;
    /// The seconds of a day.
    pub const SECONDS_OF_A_DAY: u64 = 86400;
    /// The last day of any moment: 9999-12-31.
    pub const LAST_DAY: u32 = 2919382;

    /// Law: each constant is the number in the definitions.
    pub fn day_numbers()
        ensures first { Self.FIRST_SECOND ≡ first_second }
        ensures last { Self.LAST_DAY ≡ elapsed_days (pos last_second) }
    {}

    /// The time to this moment. A moment before 2007 counts as the first second of that year, and
    /// one after 9999 as the last of that year.
    pub fn at(moment: Moment) -> Elapsed
        ensures days { result.days ≡ elapsed_days moment }
        ensures seconds { result.seconds ≡ elapsed_seconds moment }
        ensures range { result.seconds < 86400 }
        ensures last { result.days ≤ 2919382 }
    {
        let elapsed = seconds_until(moment);
        Elapsed {
            days: (elapsed / Elapsed::SECONDS_OF_A_DAY) as u32,
            seconds: (elapsed % Elapsed::SECONDS_OF_A_DAY) as u32,
        }
    }
}

// Seconds from 2007-01-01 to a moment.
fn seconds_until(moment: Moment) -> u64
    ensures value { result ≡ elapsed moment }
    ensures limit { result ≤ 252234691199 }
{
    (moment.clamp(FIRST_SECOND, LAST_SECOND) - FIRST_SECOND) as u64
}
