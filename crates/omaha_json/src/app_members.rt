//! The members of an app of a request, taken out of its JSON object one after another, so that no
//! text is copied and no member is searched for.

ghost use Rattle.std.specs.Prelude.{◌≡◌};
ghost use Rattle.serde_json.specs.Data.{no_members};
ghost use Rattle.serde_json.specs.View.{view, members_view};
ghost use Rattle.omaha_json.specs.Members as specs;
ghost use Rattle.omaha_json.specs.Request.{app_facts};

use crate::value::{is_value, members_of, text_of};
use attrs::{AppFacts, Text};
use serde_json::{Map, Value};

/// A member of an app that is used.
#[derive(Clone, Copy)]
enum AppMember {
    Appid,
    Version,
    Brand,
    Ap,
    Lang,
    Cohort,
    Installdate,
    Updatecheck,
    Ping,
    Event,
}

// The member of a name.
fn app_member(name: &str) -> Option<AppMember>
    ensures { result ≡ specs.app_member name.now }
{
    match name {
        "appid" => Some(AppMember::Appid),
        "version" => Some(AppMember::Version),
        "brand" => Some(AppMember::Brand),
        "ap" => Some(AppMember::Ap),
        "lang" => Some(AppMember::Lang),
        "cohort" => Some(AppMember::Cohort),
        "installdate" => Some(AppMember::Installdate),
        "updatecheck" => Some(AppMember::Updatecheck),
        "ping" => Some(AppMember::Ping),
        "event" => Some(AppMember::Event),
        _ => None,
    }
}

/// What was found of an app. Each member is as in `AppFacts`, except that the appid may be missing.
#[derive(Drop)]
struct AppMembers {
    appid: Option<Text>,
    version: Option<Text>,
    brand: Option<Text>,
    ap: Option<Text>,
    lang: Option<Text>,
    cohort: Option<Text>,
    installdate: Option<u64>,
    updatecheck: bool,
    ping: bool,
    event: bool,
}

impl AppMembers {
    // Nothing yet.
    fn none() -> AppMembers
        ensures { result ≡ specs.app_members no_members }
    {
        AppMembers {
            appid: None,
            version: None,
            brand: None,
            ap: None,
            lang: None,
            cohort: None,
            installdate: None,
            updatecheck: false,
            ping: false,
            event: false,
        }
    }

    // Adds one member, with its value.
    fn add(&mut self, member: Option<AppMember>, value: Value)
        ensures { self.new ≡ specs.app_with member (view value) self.old }
    {
        match member {
            Some(AppMember::Appid) => self.appid = text_of(value),
            Some(AppMember::Version) => self.version = text_of(value),
            Some(AppMember::Brand) => self.brand = text_of(value),
            Some(AppMember::Ap) => self.ap = text_of(value),
            Some(AppMember::Lang) => self.lang = text_of(value),
            Some(AppMember::Cohort) => self.cohort = text_of(value),
            Some(AppMember::Installdate) => self.installdate = value.as_u64(),
            Some(AppMember::Updatecheck) => self.updatecheck = is_value(&value),
            Some(AppMember::Ping) => self.ping = is_value(&value),
            Some(AppMember::Event) => self.event = is_value(&value),
            None => {}
        }
    }

    // The facts, if there is an appid.
    fn facts(self) -> Option<AppFacts>
        ensures { result ≡ specs.facts_of self }
    {
        let AppMembers {
            appid,
            version,
            brand,
            ap,
            lang,
            cohort,
            installdate,
            updatecheck,
            ping,
            event,
        } = self;
        match appid {
            Some(appid) => Some(AppFacts {
                appid,
                version,
                brand,
                ap,
                lang,
                cohort,
                installdate,
                updatecheck,
                ping,
                event,
            }),
            None => None,
        }
    }
}

// What is found in all members of an app, from the last one on.
fn app_members(members: Map<String, Value>) -> AppMembers
    ensures { result ≡ specs.app_members (members_view members.entries) }
{
    let mut left = members;
    let mut found = AppMembers::none();
    while let Some((name, value)) = left.pop_last() {
        found.add(app_member(name.as_str()), value);
    }
    found
}

/// The facts of an app, if it is an object with an appid. Its texts are moved, and nothing is
/// allocated.
pub fn app_facts(app: Value) -> Option<AppFacts>
    ensures { result ≡ app_facts (view app) }
{
    match members_of(app) {
        Some(members) => app_members(members).facts(),
        None => None,
    }
}
