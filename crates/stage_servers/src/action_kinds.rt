//! Kinds of actions, by which they look at servers and files.

ghost use Rattle.std.specs.Prelude.{◌≡◌};
ghost use Rattle.stage_servers.specs.Drift as specs;

use stage_records::StageAction;

pub(crate) fn is_halt(action: &StageAction<'_>) -> bool
    ensures { result ≡ specs.is_halt action.now }
{
    match *action {
        StageAction::Halt { .. } => true,
        StageAction::HaltRelease { .. } => true,
        StageAction::Raise { .. } => false,
        StageAction::Back => false,
        StageAction::Put { .. } => false,
        StageAction::Resume { .. } => false,
        StageAction::Status => false,
        StageAction::History { .. } => false,
    }
}

pub(crate) fn is_back(action: &StageAction<'_>) -> bool
    ensures { result ≡ specs.is_back action.now }
{
    match *action {
        StageAction::Halt { .. } => false,
        StageAction::HaltRelease { .. } => false,
        StageAction::Raise { .. } => false,
        StageAction::Back => true,
        StageAction::Put { .. } => false,
        StageAction::Resume { .. } => false,
        StageAction::Status => false,
        StageAction::History { .. } => false,
    }
}

pub(crate) fn is_put(action: &StageAction<'_>) -> bool
    ensures { result ≡ specs.is_put action.now }
{
    match *action {
        StageAction::Halt { .. } => false,
        StageAction::HaltRelease { .. } => false,
        StageAction::Raise { .. } => false,
        StageAction::Back => false,
        StageAction::Put { .. } => true,
        StageAction::Resume { .. } => false,
        StageAction::Status => false,
        StageAction::History { .. } => false,
    }
}
