//! Whether two steps are the same.

ghost use Rattle.std.specs.Prelude.{◌≡◌, option_map, true};

use crate::step::{ReplacedFile, StagingStep, StepAction};
use attrs::Text;

fn is_same_action(action: &StepAction, other: &StepAction) -> bool
    ensures { result ≡ true → other.now ≡ action.now }
{
    match (action, other) {
        (StepAction::Halt { appid }, StepAction::Halt { appid: own }) => {
            own.as_str() == appid.as_str()
        }
        (
            StepAction::HaltRelease { appid, version },
            StepAction::HaltRelease {
                appid: own,
                version: other,
            },
        ) => own.as_str() == appid.as_str() && other.as_str() == version.as_str(),
        (
            StepAction::Raise { appid, buckets },
            StepAction::Raise {
                appid: own,
                buckets: number,
            },
        ) => own.as_str() == appid.as_str() && *number == *buckets,
        (
            StepAction::Resume { appid, buckets },
            StepAction::Resume {
                appid: own,
                buckets: number,
            },
        ) => own.as_str() == appid.as_str() && *number == *buckets,
        (StepAction::Put { manifest }, StepAction::Put { manifest: own }) => {
            own.as_str() == manifest.as_str()
        }
        _ => false,
    }
}

fn is_same_text(text: &Option<Text>, other: &Option<Text>) -> bool
    ensures { result ≡ true → other.now ≡ text.now }
{
    match (text, other) {
        (None, None) => true,
        (Some(text), Some(own)) => own.as_str() == text.as_str(),
        _ => false,
    }
}

fn is_same_before(before: &Option<Vec<u8>>, other: &Option<Vec<u8>>) -> bool
    ensures { result ≡ true → option_map (λ b. b.items) other.now
        ≡ option_map (λ b. b.items) before.now }
{
    match (before, other) {
        (None, None) => true,
        (Some(bytes), Some(others)) => others.as_slice() == bytes.as_slice(),
        _ => false,
    }
}

fn is_same_file(file: &ReplacedFile, other: &ReplacedFile) -> bool
    ensures { result ≡ true → other.now ≡ file.now }
{
    other.name.as_str() == file.name.as_str()
        && is_same_before(&file.before, &other.before)
        && other.after.as_slice() == file.after.as_slice()
}

fn are_same_files(files: &[ReplacedFile], others: &[ReplacedFile]) -> bool
    ensures { result ≡ true → others.now ≡ files.now }
{
    let mut left = files;
    let mut right = others;
    while let [file, more @ ..] = left {
        let [other, rest @ ..] = right else {
            return false;
        };
        if !is_same_file(file, other) {
            return false;
        }
        left = more;
        right = rest;
    }
    right.is_empty()
}

/// Whether two steps are the same. If it isn't decided, the result is no.
pub(crate) fn is_same_step(step: &StagingStep, other: &StagingStep) -> bool
    ensures { result ≡ true → other.now ≡ step.now }
{
    other.number == step.number
        && other.time == step.time
        && other.is_undone == step.is_undone
        && is_same_text(&step.user, &other.user)
        && is_same_text(&step.because, &other.because)
        && is_same_action(&step.action, &other.action)
        && are_same_files(&step.files, &other.files)
}
