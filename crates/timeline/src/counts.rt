//! The counts of a series in each bin.

ghost use Rattle.std.specs.Prelude.{◌≡◌, ◌<◌, ◌≤◌, OnOk, IfOk, length};
ghost use Rattle.timeline.specs.Bins as specs;
ghost use Rattle.timeline.specs.Marks.{drawn_by, of_version};

use crate::bins::{Bins, bin_of};
use crate::marks::{Series, added};
use crate::series_rows::names_of;
use std::alloc::{AllocError, Global};
use std::collections::BTreeMap;

/// The counts of a series in each bin.
pub(crate) fn counts_by_bin(
    alloc: Global,
    rows: &BTreeMap<String, u64>,
    drawn: Series<'_>,
    bins: &Bins,
) -> Result<Vec<u64>, AllocError>
    requires wide { 0 < bins.now.width }
    requires few { bins.now.count ≤ 200 }
    ensures { IfOk result (λ counts. counts.items
        ≡ specs.counts_by_bin bins.now (drawn_by drawn.entry) rows.now.entries) }
{
    let mut counts = no_counts(alloc, bins)?;
    raise(alloc, counts.as_mut_slice(), rows, drawn, bins)?;
    Ok(counts)
}

/// A zero for each bin.
pub(crate) fn no_counts(alloc: Global, bins: &Bins) -> Result<Vec<u64>, AllocError>
    requires { bins.now.count ≤ 200 }
    ensures zeros { IfOk result (λ zeros. zeros.items ≡ specs.no_counts bins.now) }
    ensures len { IfOk result (λ zeros. length zeros.items ≡ bins.now.count) }
{
    let zeros = Vec::from_elem(alloc, 0, bins.count as usize)?;
    Ok(zeros)
}

// Adds the series' counts to the numbers of the bins. Also returns `AllocError` if a number
// overflows 64 bits.
fn raise(
    alloc: Global,
    numbers: &mut [u64],
    rows: &BTreeMap<String, u64>,
    drawn: Series<'_>,
    bins: &Bins,
) -> Result<(), AllocError>
    requires wide { 0 < bins.now.width }
    requires all { length numbers.old ≡ bins.now.count }
    ensures raised { OnOk result
        (numbers.new
        ≡ specs.raised bins.now (drawn_by drawn.entry) rows.now.entries numbers.old) }
    ensures all { length numbers.new ≡ length numbers.old }
{
    let names = names_of(alloc, drawn)?;
    for (name, n) in rows.range(&names.first..&names.end) {
        raise_by(numbers, bins, drawn, name.as_str(), *n)?;
    }
    Ok(())
}

/// Adds the counts of one version of the series to the numbers of the bins. Also returns
/// `AllocError` if a number overflows 64 bits.
pub(crate) fn raise_by_version<'a>(
    alloc: Global,
    numbers: &mut [u64],
    rows: &BTreeMap<String, u64>,
    drawn: Series<'a>,
    version: &'a str,
    bins: &Bins,
) -> Result<(), AllocError>
    requires wide { 0 < bins.now.width }
    requires all { length numbers.old ≡ bins.now.count }
    ensures raised { OnOk result (numbers.new ≡ specs.raised bins.now
        (of_version (drawn_by drawn.entry) version.now) rows.now.entries numbers.old) }
    ensures all { length numbers.new ≡ length numbers.old }
{
    raise(alloc, numbers, rows, drawn.of_version(version), bins)
}

fn raise_by(
    numbers: &mut [u64],
    bins: &Bins,
    drawn: Series<'_>,
    name: &str,
    n: u64,
) -> Result<(), AllocError>
    requires wide { 0 < bins.now.width }
    requires all { length numbers.old ≡ bins.now.count }
    ensures raised { OnOk result (numbers.new ≡ specs.raised_at
        (specs.bin_of bins.now (drawn_by drawn.entry) name.now) n numbers.old) }
    ensures all { length numbers.new ≡ length numbers.old }
{
    match bin_of(bins, drawn, name) {
        Some(place) => raise_one(numbers, place as usize, n),
        None => Ok(()),
    }
}

fn raise_one(numbers: &mut [u64], place: usize, n: u64) -> Result<(), AllocError>
    requires { place < length numbers.old }
    ensures raised { OnOk result (numbers.new ≡ specs.raised_one place n numbers.old) }
    ensures all { length numbers.new ≡ length numbers.old }
{
    numbers[place] = added(numbers[place], n)?;
    Ok(())
}
