//! How `stage` does an action in the folder of a manifest, and with what.

ghost use Rattle.std.specs.Prelude.{◌≡◌};
ghost use Rattle.stage_servers.specs.Ports.{ports_of};

use crate::serves::Surveyed;

/// How an action is done.
#[derive(Clone, Copy)]
pub struct StageOptions<'a> {
    /// The operator's ports of the servers that load the manifest; if there is none, 8081.
    pub operators: &'a [u16],
    /// The folder of `current.toml`.
    pub folder: &'a str,
    /// The log of a server, for the status.
    pub log: Option<&'a str>,
    /// The user who is recorded with a step, and why the step is taken.
    pub user: Option<&'a str>,
    pub because: Option<&'a str>,
    /// Whether no server loads the manifest.
    pub no_load: bool,
    /// Whether no file, record or server is changed, but `.stage/at_work`, and only printed what
    /// would be.
    pub dry_run: bool,
    /// Whether it continues if a release would be lost, a halt lifted, or another app also changed,
    /// if a server serves something else than is in place, or if a file was edited, but one of the
    /// step that `back` undoes.
    pub anyway: bool,
    /// Whether it continues at a server that serves an app of neither side.
    pub other_server: bool,
}

/// The operator's port if none is named.
const DEFAULT_PORTS: [u16; 1] = [8081];

impl<'a> StageOptions<'a> {
    /// The operator's ports of the servers.
    pub fn ports(&self) -> &[u16]
        ensures { result.now ≡ ports_of self.now }
    {
        match self.operators {
            [] => &DEFAULT_PORTS,
            [_, ..] => self.operators,
        }
    }
}

/// One call of `stage`: what it works with besides the folder.
#[derive(Drop)]
pub struct StageCall<'a, R, D> {
    pub rt: &'a R,
    pub disk: &'a D,
    /// The path of the manifest in place.
    pub manifest: &'a str,
    pub options: &'a StageOptions<'a>,
    /// What each server served before; empty if no server is to load.
    pub servers: &'a [Surveyed],
}
