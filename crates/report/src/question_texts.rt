//! The texts of a question's table.

ghost use Rattle.std.specs.Prelude.{◌≡◌, map};
ghost use Rattle.report.specs.Questions as specs;

use crate::question::{AppQuestion, EventQuestion, LineQuestion, Question};

impl Question {
    /// The title of its table on a screen; empty for a table that isn't shown.
    pub(crate) fn title(self) -> &'static str {
        match self {
            Question::Line(LineQuestion::Kind) => "kinds of lines",
            Question::Line(LineQuestion::Refusal) => "refusals",
            Question::Line(LineQuestion::Load) => "loads",
            Question::App(AppQuestion::UpdateCheck) => "asks",
            Question::App(AppQuestion::Offered) => "offers",
            Question::App(AppQuestion::Unoffered) => "no update",
            Question::App(AppQuestion::Hour) => "asks by hour and version",
            Question::App(AppQuestion::Bucket) => "buckets",
            Question::App(AppQuestion::Unknown) => "unknown apps",
            Question::App(AppQuestion::WithoutCohort) => "without a cohort",
            Question::App(AppQuestion::WithoutId) => "without a request id",
            Question::App(AppQuestion::CutEvent) => "events that are cut",
            Question::Event(EventQuestion::Result) => "installs",
            _ => "",
        }
    }

    /// The heads of the columns on a screen after the number.
    pub(crate) fn columns(self) -> &'static [&'static str] {
        match self {
            Question::Event(EventQuestion::Result) => &["share", "result", "app", "from", "to"],
            _ => self.labels(),
        }
    }

    /// The labels of the texts of a row's name.
    pub(crate) fn labels(self) -> &'static [&'static str]
        ensures { map (λ c. c.now) result.now ≡ specs.labels_of self }
    {
        match self {
            Question::Line(LineQuestion::Kind) => &["kind"],
            Question::Line(LineQuestion::Refusal) => &["status", "rule"],
            Question::Line(LineQuestion::Load) => &["time", "generation", "path"],
            Question::Responses => &["status"],
            Question::App(AppQuestion::Offered) => &["app", "release"],
            Question::App(AppQuestion::Hour) => &["app", "hour", "version"],
            Question::Event(EventQuestion::Result) => &["result", "app", "from", "to"],
            _ => &["app"],
        }
    }

    /// Its metric; empty for a table without one.
    pub(crate) fn metric(self) -> &'static str
        ensures { result.now ≡ specs.metric_of self }
    {
        match self {
            Question::Line(LineQuestion::Kind) => "rollout_log_lines",
            Question::Line(LineQuestion::Refusal) => "rollout_refusals",
            Question::Responses => "rollout_responses",
            Question::App(AppQuestion::UpdateCheck) => "rollout_asks",
            Question::App(AppQuestion::Offered) => "rollout_offers",
            Question::App(AppQuestion::Unoffered) => "rollout_no_updates",
            Question::App(AppQuestion::Unknown) => "rollout_unknown_apps",
            Question::App(AppQuestion::WithoutCohort) => "rollout_without_cohort",
            Question::App(AppQuestion::WithoutId) => "rollout_without_request_id",
            Question::App(AppQuestion::CutEvent) => "rollout_cut_events",
            Question::Event(EventQuestion::Result) => "rollout_installs",
            _ => "",
        }
    }

    /// What its metric is.
    pub(crate) fn help(self) -> &'static str
        ensures { result.now ≡ specs.help_of self }
    {
        match self {
            Question::Line(LineQuestion::Kind) => "Lines by kind.",
            Question::Line(LineQuestion::Refusal) => "Requests that were refused.",
            Question::Responses => "Replies by status.",
            Question::App(AppQuestion::UpdateCheck) => "Asks for an update.",
            Question::App(AppQuestion::Offered) => "Asks that were offered a release.",
            Question::App(AppQuestion::Unoffered) => "Asks that got none.",
            Question::App(AppQuestion::Unknown) => "Asks for unknown apps.",
            Question::App(AppQuestion::WithoutCohort) => "Clients without a cohort.",
            Question::App(AppQuestion::WithoutId) => "Clients without a request id.",
            Question::App(AppQuestion::CutEvent) => "Apps whose events are cut.",
            Question::Event(EventQuestion::Result) => "Installs that ended, by result.",
            _ => "",
        }
    }
}
