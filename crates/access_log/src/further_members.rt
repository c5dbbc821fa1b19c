//! The further members of an app in a line: all but its id, its version, its outcome and its event.

ghost use Rattle.std.specs.Prelude.{OnOk};
ghost use Rattle.access_log.specs.Tokens.{AddsMembers};
ghost use Rattle.access_log.specs.More as specs;

use crate::excerpt::Excerpt;
use crate::line_buffer::LineBuffer;
use crate::member::{write_number, write_optional, write_optional_excerpt};
use std::alloc::AllocError;

/// What a client says of an app besides its id and its version.
#[derive(Clone, Copy)]
pub struct FurtherMembers<'a> {
    pub ap: Option<Excerpt<'a>>,
    pub lang: Option<Excerpt<'a>>,
    pub brand: Option<Excerpt<'a>>,
    /// The member `platform` of the request's `os`.
    pub platform: Option<Excerpt<'a>>,
    pub installdate: Option<u64>,
    /// The names of members that count as absent, since they are of another kind, divided by
    /// blanks.
    pub ignored: Option<&'a str>,
}

/// All of these members.
pub fn write_more(line: &mut LineBuffer, more: &FurtherMembers<'_>) -> Result<(), AllocError>
    ensures { OnOk result (AddsMembers line.old line.new (specs.more_members more.now)) }
{
    write_optional_excerpt(line, "ap", "ap_left_out", &more.ap)?;
    write_optional_excerpt(line, "lang", "lang_left_out", &more.lang)?;
    write_optional_excerpt(line, "brand", "brand_left_out", &more.brand)?;
    write_optional_excerpt(line, "platform", "platform_left_out", &more.platform)?;
    write_day(line, more.installdate)?;
    write_optional(line, "ignored", more.ignored)?;
    Ok(())
}

#[tactic(auto, using(crate::proofs::Added::adds_nothing))]
fn write_day(line: &mut LineBuffer, installdate: Option<u64>) -> Result<(), AllocError>
    ensures { OnOk result (AddsMembers line.old line.new (specs.day_member installdate)) }
{
    match installdate {
        Some(day) => write_number(line, "installdate", day),
        None => Ok(()),
    }
}
