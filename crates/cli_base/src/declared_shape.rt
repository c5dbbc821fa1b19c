//! The shape under which a program is verified, as options declare it.

ghost use Rattle.std.specs.Prelude.{◌≤◌};

use declarations::ArrayDeclaration;

/// The number of the app's releases, and the arrays that the program may use.
#[derive(Drop)]
pub struct DeclaredShape {
    pub releases: u8,
    pub arrays: Vec<ArrayDeclaration>,
    pub ghost releases_in_range: { releases ≤ 64 },
}
