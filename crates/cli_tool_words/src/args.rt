//! The commands of `rollout-tools`, with their arguments.

use attrs::Moment;
use cell_assignments::CellAssignment;
use cli_base::{AppArgs, DeclaredShape, RunArgs};
use moments::NamedTime;
use stage_records::StageAction;

/// The arguments of `check`: manifests. With `strict`, each warning counts unless its name is among
/// the allowed ones.
#[derive(Drop)]
pub struct CheckArgs<'a> {
    pub manifests: Vec<&'a str>,
    pub strict: bool,
    pub allowed: Vec<&'a str>,
    /// Whether the output is JSON.
    pub json: bool,
}

/// The arguments of `simulate`: a manifest, which is compared with `against`, the one served at
/// present. `app` describes the clients; the picture is written into `picture`.
#[derive(Drop)]
pub struct SimulateArgs<'a> {
    pub manifest: &'a str,
    pub against: Option<&'a str>,
    pub picture: Option<&'a str>,
    pub app: AppArgs<'a>,
    /// The only app in the output; all apps without it.
    pub appid: Option<&'a str>,
    /// Whether the command fails if a bucket loses a release.
    pub fail_on_lost: bool,
    /// Whether the output is JSON.
    pub json: bool,
}

/// The arguments of `diff`: the manifest that is served at present, and the next one. Machines that
/// request before the day `from` don't count. The counters are `cells`, or those of the server at
/// `operator`.
#[derive(Drop)]
pub struct DiffArgs<'a> {
    pub old: &'a str,
    pub new: &'a str,
    /// The only app in the output; all apps without it.
    pub appid: Option<&'a str>,
    pub from: u32,
    pub cells: Vec<CellAssignment<'a>>,
    pub operator: Option<u16>,
    /// Whether the command fails if somebody may lose a release.
    pub fail_on_lost: bool,
    /// Whether the output is JSON.
    pub json: bool,
}

/// The arguments of `report`: logs, of which the lines from one moment on and before another count.
/// The log `-` is standard input. After them the counters of the server at `operator` are printed.
#[derive(Drop)]
pub struct ReportArgs<'a> {
    pub logs: Vec<&'a str>,
    pub since: Option<NamedTime>,
    pub until: Option<NamedTime>,
    /// Whether the output is in the format of Prometheus.
    pub prometheus: bool,
    /// The file for a chart of the logs over time.
    pub picture: Option<&'a str>,
    /// The file for a page in HTML.
    pub page: Option<&'a str>,
    /// The folder of `stage` that the page also shows. Only with a page.
    pub folder: Option<&'a str>,
    /// The file of the counts so far, which the report continues. Not with a moment.
    pub state: Option<&'a str>,
    /// Whether each group of lines has a head line.
    pub heads: bool,
    pub operator: Option<u16>,
}

/// The arguments of `stage`: what to do, the operator's ports of the servers that load the result,
/// and the folder of their files. The ports are in the order of the words, and may be none.
#[derive(Drop)]
pub struct StageArgs<'a> {
    pub action: StageAction<'a>,
    pub operators: Vec<u16>,
    pub folder: &'a str,
    /// The log of a server, for `status`.
    pub log: Option<&'a str>,
    /// Who takes the step, and why: each at most 1,024 bytes.
    pub user: Option<&'a str>,
    pub because: Option<&'a str>,
    /// Whether no server loads the result.
    pub no_load: bool,
    /// Whether the command only prints what it would do.
    pub dry_run: bool,
    /// Whether it also does what it would refuse for its consequences.
    pub anyway: bool,
    /// Whether a server also loads the result if it serves an app of neither side.
    pub other_server: bool,
}

/// What `completion` prints: a shell's completions, or the page of the manual.
#[derive(Clone, Copy)]
pub enum Shell {
    Bash,
    Zsh,
    Fish,
    Man,
}

/// The arguments of `ask`: a manifest and the file of a request's body, at a given moment or the
/// present one. The counters are `cells`, or those of the server at `operator`.
#[derive(Drop)]
pub struct AskArgs<'a> {
    pub manifest: &'a str,
    pub request: &'a str,
    pub at: Option<Moment>,
    pub cells: Vec<CellAssignment<'a>>,
    pub operator: Option<u16>,
    /// Whether the output is why each app gets its offer, in place of the reply.
    pub why: bool,
}

/// The arguments of `why`: a manifest, and logs of a server, the oldest first. The log `-` is
/// standard input. The counters are `cells`, or those of the server at `operator`.
#[derive(Drop)]
pub struct WhyArgs<'a> {
    pub manifest: &'a str,
    pub logs: Vec<&'a str>,
    /// The address of the machine, as the log has it.
    pub address: Option<&'a str>,
    /// The bucket of the machine, at most 9999.
    pub bucket: Option<u16>,
    /// The id of a request or of its session, or the first characters of it.
    pub id: Option<&'a str>,
    /// Whether all its requests are explained, and not only the last three.
    pub all: bool,
    pub cells: Vec<CellAssignment<'a>>,
    pub operator: Option<u16>,
}

/// A command of `rollout-tools`.
#[derive(Drop)]
pub enum ToolCommand<'a> {
    /// Print the reply to a request.
    Ask(AskArgs<'a>),
    /// Print where and why manifests are refused, or what they declare.
    Check(CheckArgs<'a>),
    /// Print a shell's completions, or the page of the manual.
    Completion { shell: Shell },
    /// Print for whom a manifest changes what another one gives.
    Diff(DiffArgs<'a>),
    /// List a file's program, with what is known before each instruction.
    Explain { path: &'a str, shape: DeclaredShape },
    /// Write a file's program into another file, with its blocks in order.
    Order { path: &'a str, out: &'a str },
    /// Print the totals of logs.
    Report(ReportArgs<'a>),
    /// Print what the clients in all buckets get from a manifest.
    Simulate(SimulateArgs<'a>),
    /// Change what a folder's servers serve, or print the steps so far.
    Stage(StageArgs<'a>),
    /// Verify a file's program, run it, and print each step of the run.
    Trace(RunArgs<'a>),
    /// Print why a machine got what it got, by the lines of logs.
    Why(WhyArgs<'a>),
}
