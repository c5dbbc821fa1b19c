//! The shape of an app: what the verifier's verdict on a program depends on, besides the program.

ghost use Rattle.std.specs.Prelude.{◌≡◌, ◌<◌, ◌≤◌, [], length, IfOk, IfErr, All};
ghost use Rattle.cells.specs.Arrays.{AreNumbered, IsShape};

use crate::array::{ArrayNo, CellArray, copies};
use crate::cells_fault::CellsFault;
use crate::directory::Directory;
use std::alloc::{AllocError, Global};
use std::marker::Model;

/// How many releases a program chooses among, and the arrays that it may use: its map `i` is the
/// array `i`. Two of the arrays are equal or share no cell.
#[derive(Drop)]
pub struct Shape {
    releases: u8,
    arrays: Vec<CellArray>,
}

impl Model for Shape {
    ghost use Rattle.cells.specs.Arrays.{AppShape, IsShape};

    ghost Value = { AppShape };

    ghost view = { λ s. record { releases = s.releases; arrays = s.arrays.items } };

    ghost invariant = { λ s. IsShape (record { releases = s.releases; arrays = s.arrays.items }) };
}

impl Shape {
    /// The most releases of an app.
    pub const MOST_RELEASES: u8 = 64;

    /// The shape of an app with `releases` releases, 0 to 64, over the arrays of these numbers of
    /// the directory, in their order. Returns N3 if an allocation fails.
    // open: whether an allocation fails (N3).
    pub fn of(
        alloc: Global,
        releases: u8,
        directory: &Directory,
        numbers: &[ArrayNo],
    ) -> Result<Shape, CellsFault>
        requires releases { releases ≤ 64 }
        requires numbers { All (λ n. n.number < length directory.now) numbers.now }
        ensures releases { IfOk result (λ s. s.releases ≡ releases) }
        ensures arrays { IfOk result (λ s. AreNumbered directory.now numbers.now s.arrays) }
        ensures memory { IfErr result (λ e. e ≡ CellsFault.Memory) }
    {
        let arrays = numbered(alloc, directory.arrays(), numbers)?;
        Ok(Shape { releases, arrays })
    }

    /// The shape of an app with `releases` releases, 0 to 64, whose programs use no array. It
    /// allocates nothing.
    pub fn plain(alloc: Global, releases: u8) -> Shape
        requires { releases ≤ 64 }
        ensures releases { result.releases ≡ releases }
        ensures arrays { result.arrays ≡ [] }
    {
        Shape {
            releases,
            arrays: Vec::new(alloc),
        }
    }

    /// A copy of the shape. Returns N3 if an allocation fails.
    // open: whether an allocation fails (N3).
    pub fn copy(&self, alloc: Global) -> Result<Shape, CellsFault>
        ensures same { IfOk result (λ s. s ≡ self.now) }
        ensures memory { IfErr result (λ e. e ≡ CellsFault.Memory) }
    {
        let arrays = copies(alloc, &self.arrays)?;
        Ok(Shape {
            releases: self.releases,
            arrays,
        })
    }

    /// How many releases the app has: a program ends with 0, or with the number of a release.
    #[inline]
    pub fn releases(&self) -> u8
        ensures value { result ≡ self.now.releases }
        ensures in_range { result ≤ 64 }
    {
        self.releases
    }

    /// The arrays, by the numbers that a program has for them.
    #[inline]
    pub fn arrays(&self) -> &[CellArray]
        ensures { result.now ≡ self.now.arrays }
    {
        &self.arrays
    }

    /// Law: the type's invariant.
    pub fn invariant_law(&self)
        ensures { IsShape self.now }
    {
        let _arrays = &self.arrays;
    }
}

// The arrays of these numbers.
fn numbered(
    alloc: Global,
    arrays: &[CellArray],
    numbers: &[ArrayNo],
) -> Result<Vec<CellArray>, AllocError>
    requires { All (λ n. n.number < length arrays.now) numbers.now }
    ensures { IfOk result (λ v. AreNumbered arrays.now numbers.now v.items) }
{
    let mut kept = Vec::with_capacity(alloc, numbers.len())?;
    for number in numbers {
        let array = arrays[number.number].copy(alloc)?;
        let Ok(()) = kept.push(array) else {
            return Err(AllocError);
        };
    }
    Ok(kept)
}
