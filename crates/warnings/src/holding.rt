//! The possible results of a test: for one client that sends just these attributes, or for all
//! clients whose version lies at a spot.

ghost use Rattle.std.specs.Prelude.{◌≡◌};
ghost use Rattle.warnings.specs.Possible as specs;

use crate::possible::{Clients, Possible};
use crate::spot::Spot;
use attrs::{Attrs, Context, Elapsed};
use cells::Shape;
use rule_eval::{allows, compares_so, test_holds};
use rule_lang::{Comparison, Test};

/// The last day at which a server evaluates rules: that of 9999-12-31.
const LAST_TODAY: u64 = Elapsed::LAST_DAY as u64;
/// The last day of installation. An unknown day has this number also.
const LAST_INSTALL_DAY: u64 = Context::UNKNOWN_DAY as u64;

// How a day from 0 to `last` may compare with a number: as 0 does, as `last` does, or as the day
// nearest to the number.
fn day_possible(last: u64, comparison: Comparison, number: u32) -> Possible
    ensures { result ≡ specs.day_possible last comparison number }
{
    let number = number as u64;
    let at_first = compares_so(comparison, 0, number);
    let at_nearest = compares_so(comparison, number.min(last), number);
    let at_last = compares_so(comparison, last, number);
    Possible {
        holds: at_first || at_nearest || at_last,
        fails: !at_first || !at_nearest || !at_last,
    }
}

// Only the bucket of these attributes matters.
fn open_possible(spot: Spot, attrs: &Attrs, shape: &Shape, test: &Test) -> Possible
    ensures { result ≡ specs.open_possible spot attrs.now shape.now test.now }
{
    match test {
        Test::Version {
            comparison,
            version,
        } => {
            let ordering = spot.compare(Spot::at(*version));
            Possible::decided(allows(*comparison, ordering))
        }
        Test::Bucket { .. } => Possible::decided(test_holds(attrs, shape, 0, test)),
        Test::Today { comparison, number } => day_possible(LAST_TODAY, *comparison, *number),
        Test::Installed { comparison, number } => {
            day_possible(LAST_INSTALL_DAY, *comparison, *number)
        }
        _ => Possible::undecided(),
    }
}

/// The possible results of a test.
pub(crate) fn test_possible(clients: Clients, attrs: &Attrs, shape: &Shape, test: &Test) -> Possible
    ensures { result ≡ specs.test_possible clients attrs.now shape.now test.now }
{
    match clients {
        Clients::AllAt(spot) => open_possible(spot, attrs, shape, test),
        Clients::One => Possible::decided(test_holds(attrs, shape, 0, test)),
    }
}
