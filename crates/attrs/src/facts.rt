//! The facts of an Omaha 3.1 request: about itself, and about each of its apps. Each member is as
//! it was read, and absent if the request has none, or one of another kind.

use crate::text::Text;

/// The facts of a request itself.
#[derive(Drop)]
pub struct RequestFacts {
    pub requestid: Option<Text>,
    pub sessionid: Option<Text>,
    /// The member `platform` of `os`.
    pub platform: Option<Text>,
}

/// The facts of one app of a request.
#[derive(Drop)]
pub struct AppFacts {
    pub appid: Text,
    pub version: Option<Text>,
    pub brand: Option<Text>,
    pub ap: Option<Text>,
    pub lang: Option<Text>,
    pub cohort: Option<Text>,
    /// Days from 2007-01-01 to the installation, if it is a whole number of at least 0.
    pub installdate: Option<u64>,
    /// Whether the member exists, and isn't null; the same for the next two.
    pub updatecheck: bool,
    pub ping: bool,
    pub event: bool,
}
