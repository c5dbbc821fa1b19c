//! The questions of a report about lines. Each has a table, whose rows are the names that it
//! counts.

ghost use Rattle.std.specs.Prelude.{◌≡◌};
ghost use Rattle.report.specs.Questions as specs;

/// What is counted in lines.
#[derive(Clone, Copy)]
pub enum Question {
    Line(LineQuestion),
    App(AppQuestion),
    Event(EventQuestion),
    /// The replies that a line of totals counts: the status of each, or `none` for a connection
    /// that got no whole reply.
    Responses,
    Chart(ChartQuestion),
}

/// About an app of a connection.
#[derive(Clone, Copy)]
pub enum AppQuestion {
    /// It made an update check, which was answered.
    UpdateCheck,
    /// The release that it was offered.
    Offered,
    /// It was offered no release.
    Unoffered,
    /// The hour, and the app's version.
    Hour,
    /// The app's bucket.
    Bucket,
    /// The server knows no such app.
    Unknown,
    /// The client's cohort named no bucket.
    WithoutCohort,
    /// The bucket is that of an empty request id.
    WithoutId,
    /// A part of its event is left out.
    CutEvent,
    /// The version that made an update check.
    UpdateCheckBy,
    /// The same with this minute or hour since 1970.
    UpdateCheckAt(u64),
    /// The offered release, with this minute or hour since 1970.
    OfferedAt(u64),
}

/// About a line.
#[derive(Clone, Copy)]
pub enum LineQuestion {
    /// Its kind.
    Kind,
    /// The status and the rule of a refusal.
    Refusal,
    /// A load that succeeded: its time, its generation and its path.
    Load,
    /// The same with the digest in place of the path.
    LoadDigest,
}

/// About an event of an app, if it is the end of an install.
#[derive(Clone, Copy)]
pub enum EventQuestion {
    /// The previous and the next version.
    Ended,
    /// The same and the result.
    Result,
    /// The version to which an install failed.
    FailedTo,
    /// The same with this minute or hour since 1970.
    FailedAt(u64),
    /// The version to which an install ended, well or not, with this minute or hour since 1970.
    EndedAt(u64),
}

/// For a chart, if one is drawn.
#[derive(Clone, Copy)]
pub enum ChartQuestion {
    /// The versions of each app, such as `editor` and `2.1` with a tab between them.
    Versions,
    /// Counts by minute. A row's name is `asks`, `offers`, `installs` or `failures`, then the app,
    /// the version, and the minute since 1970, with tabs between the four.
    ByMinute,
    /// The same by hour.
    ByHour,
}

/// The questions with a table, in the order of a screen.
pub static QUESTIONS: [Question; 19] = [
    Question::Line(LineQuestion::Kind),
    Question::Line(LineQuestion::Load),
    Question::App(AppQuestion::UpdateCheck),
    Question::App(AppQuestion::Offered),
    Question::App(AppQuestion::Unoffered),
    Question::App(AppQuestion::Bucket),
    Question::App(AppQuestion::Hour),
    Question::Event(EventQuestion::Result),
    Question::Line(LineQuestion::Refusal),
    Question::Responses,
    Question::App(AppQuestion::Unknown),
    Question::App(AppQuestion::WithoutCohort),
    Question::App(AppQuestion::WithoutId),
    Question::App(AppQuestion::CutEvent),
    Question::Event(EventQuestion::Ended),
    Question::Line(LineQuestion::LoadDigest),
    Question::Chart(ChartQuestion::Versions),
    Question::Chart(ChartQuestion::ByMinute),
    Question::Chart(ChartQuestion::ByHour),
];

impl Question {
    /// The name of its table, by which a state has it.
    pub fn member(self) -> &'static str
        ensures { result.now ≡ specs.member_of self }
    {
        match self {
            Question::Line(LineQuestion::Kind) => "kinds",
            Question::Line(LineQuestion::Refusal) => "refusals",
            Question::Line(LineQuestion::Load) => "loads",
            Question::Line(LineQuestion::LoadDigest) => "load_digests",
            Question::Responses => "responses",
            Question::App(AppQuestion::UpdateCheck) => "update_checks",
            Question::App(AppQuestion::Offered) => "offered",
            Question::App(AppQuestion::Unoffered) => "unoffered",
            Question::App(AppQuestion::Hour) => "hours",
            Question::App(AppQuestion::Bucket) => "buckets",
            Question::App(AppQuestion::Unknown) => "unknown",
            Question::App(AppQuestion::WithoutCohort) => "without_cohort",
            Question::App(AppQuestion::WithoutId) => "without_id",
            Question::App(AppQuestion::CutEvent) => "cut_events",
            Question::Event(EventQuestion::Ended) => "ended",
            Question::Event(EventQuestion::Result) => "results",
            Question::Chart(ChartQuestion::Versions) => "versions",
            Question::Chart(ChartQuestion::ByMinute) => "by_minute",
            Question::Chart(ChartQuestion::ByHour) => "by_hour",
            _ => "",
        }
    }

    /// The maximum number of rows of its table.
    pub fn limit(self) -> usize
        ensures { result ≡ specs.limit_of self }
    {
        match self {
            Question::App(AppQuestion::Hour) => 4096,
            Question::App(AppQuestion::Bucket) => 65536,
            Question::Chart(ChartQuestion::ByMinute) => 65536,
            Question::Chart(ChartQuestion::ByHour) => 262144,
            _ => 256,
        }
    }
}
