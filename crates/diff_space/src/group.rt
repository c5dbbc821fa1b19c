//! Groups of dimensions that depend on each other. A group lists the tuples of cells that a machine
//! can have in them.

ghost use Rattle.std.specs.Prelude.{◌≡◌, Contains, IfOk, OnOk, true};
ghost use Rattle.diff_space.specs.Groups.{all_cells};
ghost use Rattle.diff_space.specs.Families.{HasAdded};

use std::alloc::{AllocError, Global};
use std::collections::BTreeMap;
use std::marker::Model;

/// The cells of a group's dimensions in their order, and the buckets that have them, in rising
/// order. In a group without a bucket there are none.
#[derive(Drop)]
pub struct Tuple {
    pub cells: Vec<u16>,
    pub buckets: Vec<u16>,
}

impl Model for Tuple {
    ghost use Rattle.diff_space.specs.Groups as specs;

    ghost Value = { specs.Tuple };

    ghost view = { λ t. record { cells = t.cells.items; buckets = t.buckets.items } };
}

/// The indices of dimensions, in rising order, and the tuples that a machine can have in them.
#[derive(Drop)]
pub struct Group {
    pub dimensions: Vec<usize>,
    pub tuples: Vec<Tuple>,
    // The places of tuples by hashes of their cells.
    places: BTreeMap<u64, usize>,
}

impl Model for Group {
    ghost use Rattle.diff_space.specs.Groups as specs;

    ghost Value = { specs.Group };

    ghost view = { λ g. record { dimensions = g.dimensions.items; tuples = g.tuples.items } };
}

fn are_same(cells: &[u16], others: &[u16]) -> bool
    ensures { result ≡ true → cells.now ≡ others.now }
{
    cells == others
}

// Whether the tuple at a place has these cells.
fn is_tuple_at(tuples: &[Tuple], place: usize, cells: &[u16]) -> bool
    ensures { result ≡ true → Contains (all_cells tuples.now) cells.now }
{
    if place >= tuples.len() {
        return false;
    }
    let tuple = &tuples[place];
    are_same(&tuple.cells, cells)
}

fn hash_of(cells: &[u16]) -> u64 {
    let mut hash: u64 = 14695981039346656037;
    for cell in cells {
        hash = (hash ^ *cell as u64).wrapping_mul(1099511628211);
    }
    hash
}

// The place of the tuple with these cells; it is added unless it is found there by its hash.
fn add_tuple(
    alloc: Global,
    tuples: &mut Vec<Tuple>,
    places: &mut BTreeMap<u64, usize>,
    cells: Vec<u16>,
) -> Result<usize, AllocError>
    ensures { IfOk result (λ place. HasAdded tuples.old.items tuples.new.items cells.items) }
{
    let hash = hash_of(&cells);
    let known = places.get(&hash).copied().unwrap_or(tuples.len());
    if is_tuple_at(tuples, known, &cells) {
        return Ok(known);
    }
    let place = tuples.len();
    let _before = places.insert(hash, place)?;
    let buckets = Vec::new(alloc);
    tuples.push(Tuple { cells, buckets })?;
    Ok(place)
}

impl Tuple {
    // Adds a bucket that isn't below those that are there.
    fn add_bucket(&mut self, bucket: u16) -> Result<(), AllocError>
        ensures { self.new.cells ≡ self.old.cells }
    {
        if self.buckets.last().copied() == Some(bucket) {
            return Ok(());
        }
        self.buckets.push(bucket)?;
        Ok(())
    }
}

fn add_bucket(tuples: &mut Vec<Tuple>, place: usize, bucket: u16) -> Result<(), AllocError>
    ensures { all_cells tuples.new.items ≡ all_cells tuples.old.items }
{
    if place < tuples.len() {
        tuples[place].add_bucket(bucket)?;
    }
    Ok(())
}

// Adds a tuple, unless it is there, and its bucket, if there is one.
fn add_cells(
    alloc: Global,
    tuples: &mut Vec<Tuple>,
    places: &mut BTreeMap<u64, usize>,
    cells: Vec<u16>,
    bucket: Option<u16>,
) -> Result<(), AllocError>
    ensures { OnOk result (HasAdded tuples.old.items tuples.new.items cells.items) }
{
    let place = add_tuple(alloc, tuples, places, cells)?;
    match bucket {
        Some(bucket) => {
            add_bucket(tuples, place, bucket)?;
            Ok(())
        }
        None => Ok(()),
    }
}

impl Group {
    ghost use Rattle.diff_space.specs.Groups.{HasTuple};
    ghost use Rattle.diff_space.specs.Families.{GrowsTo};
    ghost use Rattle.std.specs.Prelude.{[]};

    /// A group of these dimensions without tuples.
    pub(crate) fn new(alloc: Global, dimensions: Vec<usize>) -> Group
        ensures { result ≡ record { dimensions = dimensions.items; tuples = [] } }
    {
        Group {
            dimensions,
            tuples: Vec::new(alloc),
            places: BTreeMap::new(alloc),
        }
    }

    /// The indices of its dimensions.
    pub(crate) fn members(&self) -> &[usize]
        ensures { result.now ≡ self.now.dimensions }
    {
        &self.dimensions
    }

    /// Adds a tuple, unless it is there, and its bucket, if there is one.
    pub(crate) fn add(
        &mut self,
        alloc: Global,
        cells: Vec<u16>,
        bucket: Option<u16>,
    ) -> Result<(), AllocError>
        ensures grows { OnOk result (GrowsTo self.old self.new) }
        ensures has { OnOk result (HasTuple self.new cells.items) }
    {
        add_cells(alloc, &mut self.tuples, &mut self.places, cells, bucket)
    }
}
