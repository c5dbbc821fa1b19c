//! Dimensions: a coordinate with the cells into which both rules cut its numbers.

ghost use Rattle.std.specs.Prelude.{◌≡◌, true};
ghost use Rattle.diff_space.specs.Lines as lines;
ghost use Rattle.diff_space.specs.Scopes.{scope_of};

use crate::bounds::{Bounds, most_takes};
use crate::coordinate::Coordinate;
use crate::number_line::{MOST_CELLS, are_rising};
use attrs::{Attribute, Bucket, Context, Elapsed, Flag};
use cells::Shape;
use rule_lang::{Literal, Test, array_named};
use std::alloc::{AllocError, Global};
use std::marker::Model;

/// A coordinate, the texts that it distinguishes, the numbers at which its cells begin, in their
/// order, and its greatest number. Each cell goes up to the next start.
#[derive(Drop)]
pub struct Dimension {
    pub of: Coordinate,
    pub texts: Vec<Literal>,
    pub starts: Vec<u128>,
    pub last: u128,
}

impl Model for Dimension {
    ghost use Rattle.diff_space.specs.Coordinates as specs;

    ghost Value = { specs.Dimension };

    ghost view = { λ d. record {
      of = d.of;
      texts = d.texts.items;
      starts = d.starts.items;
      last = d.last;
    } };
}

impl Dimension {
    ghost use Rattle.std.specs.Prelude.{◌+◌, length, slice_get};
    ghost use Rattle.diff_space.specs.Coordinates.{begin_of};

    /// How many cells it has.
    pub fn cells(&self) -> usize
        ensures { result ≡ length self.now.starts }
    {
        self.starts.len()
    }

    /// The number at which a cell begins.
    pub fn begin(&self, cell: u16) -> u128
        ensures { result ≡ begin_of self.now cell }
    {
        match self.starts.get(cell as usize) {
            Some(start) => *start,
            None => 0,
        }
    }

    /// The first number after a cell; none for the last one.
    pub fn end(&self, cell: u16) -> Option<u128>
        ensures { result ≡ slice_get self.now.starts (cell + 1) }
    {
        self.starts.get(cell as usize + 1).copied()
    }
}

// The least number of a coordinate.
fn low_in(bounds: &Bounds<'_>, of: &Coordinate) -> u128
    ensures { result ≡ lines.low_in (scope_of bounds.now) of.now }
{
    match of {
        Coordinate::Today => bounds.from_day as u128,
        _ => 0,
    }
}

fn last_remainder(modulus: Option<u32>) -> u128
    ensures { result ≡ lines.last_remainder modulus }
{
    let last = Bucket::COUNT as u128 - 1;
    match modulus {
        None => last,
        Some(0) => last,
        Some(modulus) => last.min(modulus as u128 - 1),
    }
}

// The greatest number of a coordinate.
fn high_in(bounds: &Bounds<'_>, of: &Coordinate, texts: usize) -> u128
    ensures { result ≡ lines.high_in (scope_of bounds.now) of.now texts }
{
    match of {
        Coordinate::Version => u128::MAX,
        Coordinate::Today => Elapsed::LAST_DAY as u128,
        Coordinate::Installed => Context::UNKNOWN_DAY as u128,
        Coordinate::Bucket { modulus, .. } => last_remainder(*modulus),
        Coordinate::Flag(_) => 1,
        Coordinate::Text(_) => texts as u128,
        Coordinate::Takes { array, index } => most_takes(bounds, array, *index) as u128,
    }
}

// Whether each number has a cell of its own, as flags and texts require.
fn is_discrete(of: &Coordinate, cells: usize, last: u128) -> bool
    ensures { result ≡ lines.is_discrete of.now cells last }
{
    match of {
        Coordinate::Flag(_) => last < cells as u128 && cells as u128 - 1 == last,
        Coordinate::Text(_) => last < cells as u128 && cells as u128 - 1 == last,
        _ => true,
    }
}

/// Whether the starts rise, from the least number on, up to the greatest one; and each text and
/// each truth value of a flag has a cell of its own.
pub(crate) fn is_line(bounds: &Bounds<'_>, dimension: &Dimension) -> bool
    ensures { result ≡ true → lines.IsLine (scope_of bounds.now) dimension.now }
{
    are_rising(&dimension.starts, dimension.last)
        && dimension.starts.len() <= MOST_CELLS
        && dimension.begin(0) == low_in(bounds, &dimension.of)
        && dimension.last == high_in(bounds, &dimension.of, dimension.texts.len())
        && is_discrete(&dimension.of, dimension.starts.len(), dimension.last)
}

fn line_of(alloc: Global, bounds: &Bounds<'_>, of: Coordinate) -> Result<Dimension, AllocError> {
    let mut starts = Vec::new(alloc);
    starts.push(low_in(bounds, &of))?;
    let last = high_in(bounds, &of, 0);
    Ok(Dimension {
        of,
        texts: Vec::new(alloc),
        starts,
        last,
    })
}

fn flag_of(flag: Flag) -> Option<Coordinate> {
    match flag {
        Flag::Updatecheck => None,
        Flag::InstalldateKnown => Some(Coordinate::Installed),
        _ => Some(Coordinate::Flag(flag)),
    }
}

fn text_of(attribute: Attribute) -> Option<Coordinate> {
    match attribute {
        Attribute::Appid => None,
        _ => Some(Coordinate::Text(attribute)),
    }
}

// What a test is about; none if it is constant for the app.
fn coordinate_of(
    alloc: Global,
    shape: &Shape,
    test: &Test,
) -> Result<Option<Coordinate>, AllocError> {
    match test {
        Test::Version { .. } => Ok(Some(Coordinate::Version)),
        Test::Today { .. } => Ok(Some(Coordinate::Today)),
        Test::Installed { .. } => Ok(Some(Coordinate::Installed)),
        Test::Bucket { salt, modulus, .. } => Ok(Some(Coordinate::Bucket {
            salt: *salt,
            modulus: *modulus,
        })),
        Test::Flag(flag) => Ok(flag_of(*flag)),
        Test::Attr { attribute, .. } => Ok(text_of(*attribute)),
        Test::Take { array, index } => match array_named(shape.arrays(), array.as_str()) {
            Some(array) => Ok(Some(Coordinate::Takes {
                array: array.copy(alloc)?,
                index: *index,
            })),
            None => Ok(None),
        },
    }
}

/// The dimension of a test, with one cell; none if the test is constant for the app.
pub(crate) fn dimension_of(
    alloc: Global,
    bounds: &Bounds<'_>,
    shape: &Shape,
    test: &Test,
) -> Result<Option<Dimension>, AllocError> {
    match coordinate_of(alloc, shape, test)? {
        Some(of) => Ok(Some(line_of(alloc, bounds, of)?)),
        None => Ok(None),
    }
}
