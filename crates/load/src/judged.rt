//! A manifest whose apps are judged: each app with its program, and with its rule if its file is
//! the text of one.

ghost use Rattle.std.specs.Prelude.{◌≡◌, All, IfSome, option_copied};
ghost use Rattle.load.specs.JudgedApps as specs;
ghost use Rattle.load.specs.JudgedApps.{IsJudgedApp};

use crate::load_fault::LoadFault;
use crate::sources::{AppSources, Sources};
use attrs::Text;
use bpf_verify::Verified;
use cells::Directory;
use declarations::ArrayDeclaration;
use rule_lang::Rule;

/// The program of an app's file, and the rule if the file is the text of one.
#[derive(Drop)]
pub struct AppProgram {
    pub program: Verified,
    pub rule: Option<Rule>,
}

/// An app as it was gathered, the program of its file, and the rule if the file is the text of one.
pub struct JudgedApp {
    pub sources: AppSources,
    pub program: Verified,
    pub rule: Option<Rule>,
}

// Not derived: a crate that drops one would prove the drop of each of its parts anew.
impl Drop for JudgedApp {
    fn drop(self) {
        let Self {
            sources: _sources,
            program: _program,
            rule: _rule,
        } = self;
    }
}

impl JudgedApp {
    /// What was gathered, and the program. The rule is dropped.
    pub(crate) fn into_parts(self) -> (AppSources, Verified)
        ensures sources { result.0 ≡ self.sources }
        ensures program { result.1 ≡ self.program }
    {
        let Self {
            sources,
            program,
            rule: _rule,
        } = self;
        (sources, program)
    }
}

/// A manifest, as it was gathered, whose apps all have a program; and the digest of its bytes and
/// of its apps' files (`digest_of`).
#[derive(Drop)]
pub struct JudgedManifest {
    pub server: Text,
    pub arrays: Vec<ArrayDeclaration>,
    pub directory: Directory,
    pub apps: Vec<JudgedApp>,
    pub digest: [u8; 32],
}

impl JudgedManifest {
    /// The app with this appid.
    pub fn app(&self, appid: &str) -> Option<&JudgedApp>
        ensures found { option_copied result ≡ specs.app_named self.now.apps.items appid.now }
        ensures judged { All IsJudgedApp self.now.apps.items
            → IfSome (option_copied result) IsJudgedApp }
    {
        app_in(&self.apps, appid)
    }
}

// The first app with this appid.
fn app_in<'a>(apps: &'a [JudgedApp], appid: &str) -> Option<&'a JudgedApp>
    ensures { option_copied result ≡ specs.app_named apps.now appid.now }
{
    let mut left = apps;
    while let [app, others @ ..] = left {
        if app.sources.entry.appid() == appid {
            return Some(app);
        }
        left = others;
    }
    None
}

/// Why not each app has a program, and what was gathered.
#[derive(Drop)]
pub struct RefusedApps {
    pub fault: LoadFault,
    pub sources: Sources,
}

impl RefusedApps {
    /// The fault. Everything else is dropped.
    pub fn into_fault(self) -> LoadFault
        ensures { result ≡ self.fault }
    {
        let RefusedApps { fault, sources } = self;
        drop(sources);
        fault
    }
}
