//! The time window of the lines that count.

ghost use Rattle.std.specs.Prelude.{◌≡◌, Some};
ghost use Rattle.std.specs.Option.{option_copied};
ghost use Rattle.report.specs.Windows as specs;

/// Times in the form of a server's log, in UTC with milliseconds, such as
/// `2026-11-24T12:19:16.042Z`.
#[derive(Clone, Copy)]
pub struct Window<'a> {
    /// The first time in the window; without it, the window begins with the first line.
    pub since: Option<&'a str>,
    /// The first time after the window.
    pub until: Option<&'a str>,
}

impl<'a> Window<'a> {
    /// Whether a time is in the window.
    pub fn has(&self, time: &str) -> bool
        ensures { result ≡ specs.is_within self.now (Some time.now) }
    {
        is_since(self.since, time) && is_until(self.until, time)
    }
}

fn is_since(since: Option<&str>, time: &str) -> bool
    ensures { result ≡ specs.is_since (option_copied since.entry) time.now }
{
    match since {
        Some(since) => !is_before(time, since),
        None => true,
    }
}

fn is_until(until: Option<&str>, time: &str) -> bool
    ensures { result ≡ specs.is_until (option_copied until.entry) time.now }
{
    match until {
        Some(until) => is_before(time, until),
        None => true,
    }
}

fn is_before(time: &str, moment: &str) -> bool
    ensures { result ≡ specs.is_before time.now moment.now }
{
    time < moment
}
