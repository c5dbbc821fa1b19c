//! A step of staging: what it does, and the files that it replaces.

ghost use Rattle.std.specs.Prelude.{◌≡◌, option_copied};
ghost use Rattle.stage_records.specs.Steps as specs;

use attrs::Text;
use std::marker::Model;

/// What a step does.
#[derive(Drop)]
pub enum StepAction {
    /// Halts an app.
    Halt { appid: Text },
    /// Takes the statements that offer a version out of an app's rule.
    HaltRelease { appid: Text, version: Text },
    /// Changes the number of the threshold in an app's rule.
    Raise { appid: Text, buckets: u32 },
    /// Puts what an app had before its halt in place again; its rule has this number of buckets, if
    /// one is given.
    Resume { appid: Text, buckets: Option<u32> },
    /// Puts the manifest at a path, and its files, in place.
    Put { manifest: Text },
}

/// A file that a step replaces: its name relative to the folder of the manifest, its bytes before
/// (none if there was no file) and its bytes after.
#[derive(Drop)]
pub struct ReplacedFile {
    pub name: Text,
    pub before: Option<Vec<u8>>,
    pub after: Vec<u8>,
}

impl Model for ReplacedFile {
    ghost use Rattle.std.specs.Prelude.{option_map};
    ghost use Rattle.stage_records.specs.Steps as specs;

    ghost Value = { specs.ReplacedFile };

    ghost view = { λ f. record {
      name = f.name;
      before = option_map (λ bytes. bytes.items) f.before;
      after = f.after.items;
    } };
}

/// A step, with its number from 1, and its time in seconds since 1970. It is recorded whole before
/// its first file is replaced, and again when it is undone.
#[derive(Drop)]
pub struct StagingStep {
    pub number: u32,
    pub time: u64,
    /// The user who took it; None if nobody is known.
    pub user: Option<Text>,
    /// Why it was taken, in the user's words.
    pub because: Option<Text>,
    pub action: StepAction,
    pub files: Vec<ReplacedFile>,
    pub is_undone: bool,
}

impl Model for StagingStep {
    ghost use Rattle.stage_records.specs.Steps as specs;

    ghost Value = { specs.StagingStep };

    ghost view = { λ s. record {
      number = s.number;
      time = s.time;
      user = s.user;
      because = s.because;
      action = s.action;
      files = s.files.items;
      is_undone = s.is_undone;
    } };
}

/// The last step that isn't undone, of steps in the order of their numbers. It is the next to be
/// undone.
pub fn last_step(steps: &[StagingStep]) -> Option<&StagingStep>
    ensures { option_copied result ≡ specs.last_step steps.now }
{
    steps.iter().rev().find(|step| !step.is_undone)
}
