//! The shape for which programs are judged or run.

use cells::{Directory, Shape};
use declarations::{declare_all, read_spec};
use std::alloc::Global;
use std::test::Fail;

/// The shape of `releases` releases, over the arrays that the text declares.
pub(crate) fn shape_over(alloc: Global, releases: u8, arrays: &str) -> Result<Shape, Fail> {
    let mut directory = Directory::new(alloc);
    let declared = declare_all(alloc, &mut directory, &read_spec(alloc, arrays)?);
    let Ok(numbers) = declared else {
        return Err(Fail::from("an array is refused"));
    };
    Ok(Shape::of(alloc, releases.min(64), &directory, &numbers)?)
}
