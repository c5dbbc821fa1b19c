//! The members of a request, taken out of its JSON object one after another, so that no text is
//! copied and no member is searched for.

ghost use Rattle.std.specs.Prelude.{◌≡◌};
ghost use Rattle.serde_json.specs.Data.{no_members};
ghost use Rattle.serde_json.specs.Find.{as_str};
ghost use Rattle.serde_json.specs.View.{view, members_view};
ghost use Rattle.omaha_json.specs.Members as specs;
ghost use Rattle.omaha_json.specs.Request.{is_protocol};

use crate::value::{text_in, text_of};
use attrs::Text;
use serde_json::{Map, Value};

/// A member of a request that is used.
#[derive(Clone, Copy)]
enum RequestMember {
    Protocol,
    App,
    Requestid,
    Sessionid,
    Os,
}

// The member of a name.
fn request_member(name: &str) -> Option<RequestMember>
    ensures { result ≡ specs.request_member name.now }
{
    match name {
        "protocol" => Some(RequestMember::Protocol),
        "app" => Some(RequestMember::App),
        "requestid" => Some(RequestMember::Requestid),
        "sessionid" => Some(RequestMember::Sessionid),
        "os" => Some(RequestMember::Os),
        _ => None,
    }
}

/// What was found of a request.
#[derive(Drop)]
pub(crate) struct RequestMembers {
    /// Whether its protocol is 3.1.
    pub(crate) is_version_3_1: bool,
    /// The member `app`.
    pub(crate) apps: Option<Value>,
    pub(crate) requestid: Option<Text>,
    pub(crate) sessionid: Option<Text>,
    /// The member `platform` of `os`.
    pub(crate) platform: Option<Text>,
}

impl RequestMembers {
    // Nothing yet.
    fn none() -> RequestMembers
        ensures { specs.AreMembersOf no_members result }
    {
        RequestMembers {
            is_version_3_1: false,
            apps: None,
            requestid: None,
            sessionid: None,
            platform: None,
        }
    }

    // Adds one member, with its value.
    fn add(&mut self, member: Option<RequestMember>, value: Value)
        ensures { self.new ≡ specs.request_with member value self.old }
    {
        match member {
            Some(RequestMember::Protocol) => self.is_version_3_1 = is_version_3_1(&value),
            Some(RequestMember::App) => self.apps = Some(value),
            Some(RequestMember::Requestid) => self.requestid = text_of(value),
            Some(RequestMember::Sessionid) => self.sessionid = text_of(value),
            Some(RequestMember::Os) => self.platform = text_in(value, "platform"),
            None => {}
        }
    }
}

/// What is found in all members of a request, from the last one on.
pub(crate) fn request_members(members: Map<String, Value>) -> RequestMembers
    ensures { specs.AreMembersOf (members_view members.entries) result }
{
    let mut left = members;
    let mut found = RequestMembers::none();
    while let Some((name, value)) = left.pop_last() {
        found.add(request_member(name.as_str()), value);
    }
    found
}

// Whether a protocol is 3.1.
fn is_version_3_1(protocol: &Value) -> bool
    ensures { result ≡ is_protocol (as_str (view protocol.now)) }
{
    match protocol.as_str() {
        Some(text) => text == "3.1",
        None => false,
    }
}
