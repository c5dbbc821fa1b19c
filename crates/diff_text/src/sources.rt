//! What rows are shown from: the releases of both manifests, their contents and their arrays.

ghost use Rattle.std.specs.Prelude.{◌≡◌, ◌==◌, ◌++◌, ◌≤◌, IfOk, length, nat_le, option_copied};
ghost use Rattle.std.specs.Prelude.{option_map, slice_get};
ghost use Rattle.std.specs.List.{position_or_len};
ghost use Rattle.diff_text.specs.Kinds as kinds;
ghost use Rattle.diff_text.specs.Shown as specs;

use crate::kind::RowKind;
use crate::shown::ShownRelease;
use cells::CellArray;
use diff_rules::{ContentNumbers, DiffRow};
use releases::Release;
use std::alloc::{AllocError, Global};
use std::marker::Model;

// The element at a place of two lists together.
fn release_at<'a>(old: &'a [Release], new: &'a [Release], place: usize) -> Option<&'a Release>
    ensures { option_copied result ≡ slice_get (old.now ++ new.now) place }
{
    if place < old.len() {
        return old.get(place);
    }
    new.get(place - old.len())
}

fn release_of<'a>(old: &'a [Release], new: &'a [Release], content: u8) -> Option<&'a Release>
    ensures { option_copied result ≡ kinds.release_of (old.now ++ new.now) content }
{
    if content == 0 {
        return None;
    }
    release_at(old, new, content as usize - 1)
}

fn is_within(old: &[Release], new: &[Release], content: u8) -> bool
    ensures { result ≡ nat_le content (length (old.now ++ new.now)) }
{
    let number = content as usize;
    number <= old.len() || number - old.len() <= new.len()
}

// The position of the first release with this content, or their number.
fn position_of(contents: &[u8], content: u8) -> usize
    ensures position { result ≡ position_or_len (λ c. c == content) contents.now }
    ensures within { result ≤ length contents.now }
{
    let mut place = 0;
    let mut left = contents;
    while let [first, others @ ..] = left {
        if *first == content {
            return place;
        }
        place += 1;
        left = others;
    }
    place
}

fn shown_release(
    alloc: Global,
    contents: &[u8],
    content: u8,
    release: Option<&Release>,
) -> Result<Option<ShownRelease>, AllocError>
    ensures { IfOk result (λ shown. shown
        ≡ option_map (specs.shown_by contents.now content) (option_copied release.entry)) }
{
    let Some(release) = release else {
        return Ok(None);
    };
    let number = position_of(contents, content) + 1;
    let version = String::from_str(alloc, release.version())?;
    Ok(Some(ShownRelease { number, version }))
}

/// What is shown of rows: the releases of both manifests, their contents and their arrays.
#[derive(Drop)]
pub(crate) struct RowSources<'a> {
    old: &'a [Release],
    new: &'a [Release],
    contents: &'a ContentNumbers,
    pub old_arrays: &'a [CellArray],
    pub new_arrays: &'a [CellArray],
}

impl<'a> Model for RowSources<'a> {
    ghost use Rattle.std.specs.Prelude.{◌++◌};
    ghost use Rattle.diff_text.specs.Shown as specs;

    ghost Value = { specs.RowSources };

    ghost view = { λ s. record {
      all = s.old.now ++ s.new.now;
      old_contents = s.contents.now.old.items;
      new_contents = s.contents.now.new.items;
      old_arrays = s.old_arrays.now;
      new_arrays = s.new_arrays.now;
    } };
}

fn has_content(contents: &[u8], from: &RowSources<'_>, content: u8) -> bool
    ensures { result ≡ specs.has_content contents.now from.now.all content }
{
    content == 0
        || (position_of(contents, content) < contents.len()
            && is_within(from.old, from.new, content))
}

/// Whether both contents of a row are those of a release.
pub(crate) fn has_releases(from: &RowSources<'_>, row: &DiffRow) -> bool
    ensures { result ≡ specs.has_releases from.now row.now }
{
    has_content(&from.contents.old, from, row.current)
        && has_content(&from.contents.new, from, row.next)
}

/// The kind of a row.
pub(crate) fn kind_of(from: &RowSources<'_>, row: &DiffRow) -> RowKind
    ensures { result ≡ kinds.kind_in from.now.all row.now }
{
    let release = release_of(from.old, from.new, row.current);
    let other = release_of(from.old, from.new, row.next);
    RowKind::of(release, other)
}

/// The release of the old manifest in a row.
pub(crate) fn shown_current(
    alloc: Global,
    from: &RowSources<'_>,
    row: &DiffRow,
) -> Result<Option<ShownRelease>, AllocError>
    ensures { IfOk result (λ shown. shown
        ≡ specs.shown_of from.now.all from.now.old_contents row.now.current) }
{
    let release = release_of(from.old, from.new, row.current);
    let shown = shown_release(alloc, &from.contents.old, row.current, release)?;
    Ok(shown)
}

/// The release of the new manifest in a row.
pub(crate) fn shown_next(
    alloc: Global,
    from: &RowSources<'_>,
    row: &DiffRow,
) -> Result<Option<ShownRelease>, AllocError>
    ensures { IfOk result (λ shown. shown
        ≡ specs.shown_of from.now.all from.now.new_contents row.now.next) }
{
    let release = release_of(from.old, from.new, row.next);
    let shown = shown_release(alloc, &from.contents.new, row.next, release)?;
    Ok(shown)
}

/// These together.
pub(crate) fn sources_of<'x>(
    contents: &'x ContentNumbers,
    old: &'x [Release],
    new: &'x [Release],
    old_arrays: &'x [CellArray],
    new_arrays: &'x [CellArray],
) -> RowSources<'x>
    ensures { result ≡ record {
      all = old.now ++ new.now;
      old_contents = contents.now.old.items;
      new_contents = contents.now.new.items;
      old_arrays = old_arrays.now;
      new_arrays = new_arrays.now;
    } }
{
    RowSources {
        old,
        new,
        contents,
        old_arrays,
        new_arrays,
    }
}
