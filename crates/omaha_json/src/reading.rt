//! From the bytes of a body to a request.

ghost use Rattle.std.specs.Prelude.{◌≡◌, ◌≢◌, Some, None, Ok, IfOk, IfErr, option_map};
ghost use Rattle.serde_json.specs.Data.{object};
ghost use Rattle.serde_json.specs.View.{view, items_view, members_view};
ghost use Rattle.omaha_json.specs.Request.{request_in, of_request, of_value};
ghost use Rattle.omaha_json.specs.Request.{all_facts, listed};
ghost use Rattle.omaha_json.specs.Members.{request_found};

use crate::app_members::app_facts;
use crate::app_observer::{AppObserver, WrittenApp};
use crate::omaha_fault::OmahaFault;
use crate::request::Request;
use crate::request_members::{RequestMembers, request_members};
use crate::value::object_in;
use attrs::{RequestFacts, SharedFacts};
use json_value::read_json;
use releases::MOST_APPS;
use serde_json::{Map, Value};
use std::alloc::Global;

/// The request in a body. A duplicate member has its last value, and members that the profile
/// doesn't name are ignored. The observer is passed the apps, or some of them if the request is
/// refused.
// open: whether an allocation fails (O5); which apps the observer is passed: tests.
pub fn read_request<H: AppObserver>(
    alloc: Global,
    body: &[u8],
    observer: &mut H,
) -> Result<Request, OmahaFault>
    ensures { result ≢ Err OmahaFault.Memory → result ≡ request_in body.now }
{
    let Ok(found) = read_json(alloc, body) else {
        return Err(OmahaFault::Memory);
    };
    match found {
        Some(value) => of_value(alloc, value, observer),
        None => Err(OmahaFault::Json),
    }
}

// The request in a body's value.
fn of_value<H: AppObserver>(
    alloc: Global,
    value: Value,
    observer: &mut H,
) -> Result<Request, OmahaFault>
    ensures { result ≢ Err OmahaFault.Memory → result ≡ of_value (view value) }
{
    match object_in(value, "request") {
        Some(request) => of_request(alloc, request, observer),
        None => Err(OmahaFault::Shape),
    }
}

// The request in the member `request`.
fn of_request<H: AppObserver>(
    alloc: Global,
    request: Map<String, Value>,
    observer: &mut H,
) -> Result<Request, OmahaFault>
    ensures { result ≢ Err OmahaFault.Memory
        → result ≡ of_request (object (members_view request.entries)) }
{
    of_members(alloc, request_members(request), observer)
}

// The request with these members.
#[tactic(auto, using(crate::proofs::Bodies::count_of_view))]
fn of_members<H: AppObserver>(
    alloc: Global,
    found: RequestMembers,
    observer: &mut H,
) -> Result<Request, OmahaFault>
    ensures { result ≢ Err OmahaFault.Memory → result ≡ request_found found }
{
    let RequestMembers {
        is_version_3_1,
        apps,
        requestid,
        sessionid,
        platform,
    } = found;
    if !is_version_3_1 {
        return Err(OmahaFault::Protocol);
    }
    let Some(apps) = listed(alloc, apps) else {
        return Err(OmahaFault::Shape);
    };
    if apps.as_slice().len() > MOST_APPS {
        return Err(OmahaFault::TooManyApps);
    }
    let facts = RequestFacts {
        requestid,
        sessionid,
        platform,
    };
    match all_facts(alloc, apps, observer) {
        Ok(each) => Ok(Request::new(facts, each)),
        Err(e) => Err(e),
    }
}

// The list of apps, which is empty if the member doesn't exist.
fn listed(alloc: Global, apps: Option<Value>) -> Option<Vec<Value>>
    ensures { option_map (λ apps. items_view apps.items) result
        ≡ listed (option_map view apps) }
{
    match apps {
        Some(apps) => match apps {
            Value::Array(apps) => Some(apps),
            _ => None,
        },
        None => Some(Vec::new(alloc)),
    }
}

// The facts of all apps.
fn all_facts<H: AppObserver>(
    alloc: Global,
    apps: Vec<Value>,
    observer: &mut H,
) -> Result<Vec<SharedFacts>, OmahaFault>
    ensures ok { IfOk result (λ each. all_facts (items_view apps.items) ≡ Some each.items) }
    ensures err { IfErr result (λ e. e ≢ OmahaFault.Memory
        → (e ≡ OmahaFault.Shape) × (all_facts (items_view apps.items) ≡ None)) }
{
    let Ok(mut each) = Vec::with_capacity(alloc, apps.len()) else {
        return Err(OmahaFault::Memory);
    };
    for app in apps {
        observer.observe_app(WrittenApp::of(&app));
        let Some(said) = app_facts(app) else {
            return Err(OmahaFault::Shape);
        };
        let Ok(shared) = SharedFacts::new(alloc, said) else {
            return Err(OmahaFault::Memory);
        };
        let Ok(()) = each.push(shared) else {
            return Err(OmahaFault::Memory);
        };
    }
    Ok(each)
}
