//! The app of an action that halts it, or one of its releases.

ghost use Rattle.std.specs.Prelude.{◌≡◌, option_copied};
ghost use Rattle.stage_servers.specs.Drift as specs;

use stage_records::StageAction;

/// The app that an action halts at the servers, also if only one release is halted in the files.
pub fn halted_appid<'a>(action: &StageAction<'a>) -> Option<&'a str>
    ensures { option_copied result ≡ specs.halted_appid action.now }
{
    match *action {
        StageAction::Halt { appid } => Some(appid),
        StageAction::HaltRelease { appid, .. } => Some(appid),
        StageAction::Raise { .. } => None,
        StageAction::Back => None,
        StageAction::Put { .. } => None,
        StageAction::Resume { .. } => None,
        StageAction::Status => None,
        StageAction::History { .. } => None,
    }
}
