//! A server's apps, by their appids.

ghost use Rattle.std.specs.Prelude.{◌≡◌, ◌↔◌, IfSome, IfNone, IsNone, IsTrue, All, option_copied};
ghost use Rattle.ruleset.specs.Rules.{HasDuplicate, IsApp, app_in, appids_of};

use crate::app::App;
use std::marker::Model;

/// A server's apps, in order and with distinct appids, and the server's name.
pub struct Ruleset {
    server: String,
    apps: Vec<App>,
}

// Not derived: a crate that drops one would prove the drop of each of its parts anew.
impl Drop for Ruleset {
    fn drop(self) {
        let Self {
            server: _server,
            apps: _apps,
        } = self;
    }
}

impl Model for Ruleset {
    ghost use Rattle.std.specs.Prelude.{string_bytes};
    ghost use Rattle.ruleset.specs.Rules.{Rules, AppsAreKept};

    ghost Value = { Rules };

    ghost view = { λ r. record { server = string_bytes r.server; apps = r.apps.items } };

    ghost invariant = { λ r. AppsAreKept r.apps.items };
}

impl Ruleset {
    ghost use Rattle.std.specs.Prelude.{string_bytes};
    ghost use Rattle.ruleset.specs.Rules.{IsRuleset, ListsApp, OffersNone, app_of};

    /// A ruleset of these apps, for a server with this name; `None` exactly if an appid is a
    /// duplicate. It allocates nothing, and compares each pair of appids.
    pub fn new(server: String, apps: Vec<App>) -> Option<Ruleset>
        ensures apps { IfSome result (λ r. r.apps ≡ apps.items) }
        ensures server { IfSome result (λ r. r.server ≡ string_bytes server) }
        ensures duplicate { IsNone result ↔ HasDuplicate (appids_of apps.items) }
    {
        are_apps(apps.as_slice());
        if has_duplicate(apps.as_slice()) {
            return None;
        }
        Some(Ruleset { server, apps })
    }

    /// A ruleset of apps that are known to have distinct appids.
    pub fn from_distinct(server: String, apps: Vec<App>) -> Ruleset
        requires { ¬ HasDuplicate (appids_of apps.items) }
        ensures apps { result.apps ≡ apps.items }
        ensures server { result.server ≡ string_bytes server }
    {
        are_apps(apps.as_slice());
        Ruleset { server, apps }
    }

    /// Law: the invariant of a ruleset.
    pub fn invariant_law(&self)
        ensures once { ¬ HasDuplicate (appids_of self.now.apps) }
        // So an appid has one app. A run of its program only does operations on counters that the
        // program's arrays allow, and ends with 0 or a release of the app.
        ensures sound { IsRuleset self.now }
    {
        let _apps = &self.apps;
    }

    /// The apps, in order.
    pub fn apps(&self) -> &[App]
        ensures { result.now ≡ self.now.apps }
    {
        self.apps.as_slice()
    }

    /// The server's name.
    pub fn server(&self) -> &str
        ensures { result.now ≡ self.now.server }
    {
        self.server.as_str()
    }

    /// The app with this appid.
    #[tactic(auto, using(crate::proofs::Found::is_listed, crate::proofs::Found::offers_none))]
    pub fn find(&self, appid: &str) -> Option<&App>
        ensures found { option_copied result ≡ app_of self.now appid.now }
        ensures known { IfSome result (λ a. ListsApp self.now appid.now a.now) }
        ensures none { IfNone result (OffersNone self.now appid.now) }
    {
        first_app(self.apps.as_slice(), appid)
    }
}

// The first app with this appid.
fn first_app<'a>(apps: &'a [App], appid: &str) -> Option<&'a App>
    ensures { option_copied result ≡ app_in apps.now appid.now }
{
    let mut left = apps;
    while let [app, others @ ..] = left {
        if app.appid() == appid {
            return Some(app);
        }
        left = others;
    }
    None
}

// Whether two apps have the same appid.
fn has_duplicate(apps: &[App]) -> bool
    ensures { IsTrue result ↔ HasDuplicate (appids_of apps.now) }
{
    let mut left = apps;
    while let [app, others @ ..] = left {
        if first_app(others, app.appid()).is_some() {
            return true;
        }
        left = others;
    }
    false
}

// Law: the invariant of each app.
fn are_apps(apps: &[App])
    ensures { All IsApp apps.now }
{
    for app in apps {
        app.invariant_law();
    }
}
