//! One app of a ruleset.

ghost use Rattle.std.specs.Prelude.{◌≡◌, IsTrue, IfOk};
ghost use Rattle.std.specs.Arc.{arc_value};
ghost use Rattle.releases.specs.Appid.{is_appid};

use bpf_verify::Verified;
use releases::Release;
use std::alloc::{AllocError, Global};
use std::marker::Model;
use std::sync::Arc;

/// An app, its releases, and the program that decides which of them is offered. A choice of the
/// program is the number of a release, from 1. The appid has 1 to 1024 bytes.
pub struct App {
    appid: String,
    program: Arc<Verified>,
    releases: Arc<Vec<Release>>,
}

// Not derived: a crate that drops one would prove the drop of each of its parts anew.
impl Drop for App {
    fn drop(self) {
        let Self {
            appid: _appid,
            program: _program,
            releases: _releases,
        } = self;
    }
}

impl Model for App {
    ghost use Rattle.std.specs.Prelude.{string_bytes};
    ghost use Rattle.std.specs.Arc.{arc_value};
    ghost use Rattle.ruleset.specs.Rules.{AppRule, IsApp};

    ghost Value = { AppRule };

    ghost view = { λ a. record {
      appid = string_bytes a.appid;
      program = arc_value a.program;
      releases = (arc_value a.releases).items;
    } };

    ghost invariant = { λ a. IsApp (record {
      appid = string_bytes a.appid;
      program = arc_value a.program;
      releases = (arc_value a.releases).items;
    }) };
}

impl App {
    ghost use Rattle.std.specs.Prelude.{string_bytes};
    ghost use Rattle.ruleset.specs.Rules.{IsApp, ChoosesAmong, programmed};

    /// An app with this appid and these releases, of which the program chooses one; doesn't
    /// allocate. The program's shape must have as many releases.
    pub fn new(appid: String, program: Arc<Verified>, releases: Arc<Vec<Release>>) -> App
        requires named { IsTrue (is_appid (string_bytes appid)) }
        requires all { ChoosesAmong (arc_value program) (arc_value releases).items }
        ensures appid { result.appid ≡ string_bytes appid }
        ensures program { result.program ≡ arc_value program }
        ensures releases { result.releases ≡ (arc_value releases).items }
    {
        let accepted: &Verified = &program;
        accepted.invariant_law();
        App {
            appid,
            program,
            releases,
        }
    }

    /// Another owner of the app's releases, with a copy of its appid and this program, which must
    /// choose among these releases.
    // open: whether an allocation fails, or a count of owners is at its most: its only error.
    pub fn with_program(&self, alloc: Global, program: Arc<Verified>) -> Result<App, AllocError>
        requires { ChoosesAmong (arc_value program) self.now.releases }
        ensures { IfOk result (λ app. app ≡ programmed (arc_value program) self.now) }
    {
        self.invariant_law();
        let Ok(appid) = String::from_str(alloc, self.appid.as_str()) else {
            return Err(AllocError);
        };
        match Arc::try_clone(&self.releases) {
            Ok(releases) => Ok(App::new(appid, program, releases)),
            Err(_) => Err(AllocError),
        }
    }

    /// Another owner of the app's program and releases, with a copy of its appid.
    // open: whether an allocation fails, or a count of owners is at its most: its only error.
    pub fn share(&self, alloc: Global) -> Result<App, AllocError>
        ensures { IfOk result (λ app. app ≡ self.now) }
    {
        match Arc::try_clone(&self.program) {
            Ok(program) => self.with_program(alloc, program),
            Err(_) => Err(AllocError),
        }
    }

    /// Law: the invariant of an app.
    pub fn invariant_law(&self)
        // The appid is valid. Every run of its program only does operations on counters that its
        // arrays allow, ends, and chooses 0 or one of its releases.
        ensures { IsApp self.now }
    {
        let _releases = &self.releases;
    }

    /// The text by which clients name the app.
    pub fn appid(&self) -> &str
        ensures { result.now ≡ self.now.appid }
    {
        self.appid.as_str()
    }

    /// The program that all its runs share.
    pub fn program(&self) -> &Arc<Verified>
        ensures { arc_value result.now ≡ self.now.program }
    {
        &self.program
    }

    /// Its releases, at most 64; a choice is the number of a release, from 1.
    pub fn releases(&self) -> &[Release]
        ensures lent { result.now ≡ self.now.releases }
        ensures all { ChoosesAmong self.now.program result.now }
    {
        self.releases.as_slice()
    }
}
