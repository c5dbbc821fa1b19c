//! Up to three values, in order: the operands or arguments after a mnemonic.

ghost use Rattle.std.specs.Prelude.{◌≡◌, ⊤};
ghost use Rattle.bpf_text.specs.Three.{none, one, two, three};

use std::alloc::AllocError;

/// The first, second and third value, as far as there are any.
pub struct UpToThree<T> {
    pub first: Option<T>,
    pub second: Option<T>,
    pub third: Option<T>,
}

impl<T: Copy> Clone for UpToThree<T> {
    ghost is_clone = { λ x y. y ≡ x };

    ghost is_infallible = { λ _. ⊤ };

    fn clone(&self) -> Result<UpToThree<T>, AllocError> {
        Ok(*self)
    }
}

impl<T: Copy> Copy for UpToThree<T> {}

pub fn none<T>() -> UpToThree<T>
    ensures { result ≡ none }
{
    UpToThree {
        first: None,
        second: None,
        third: None,
    }
}

pub fn one<T>(first: T) -> UpToThree<T>
    ensures { result ≡ one first }
{
    UpToThree {
        first: Some(first),
        second: None,
        third: None,
    }
}

pub fn two<T>(first: T, second: T) -> UpToThree<T>
    ensures { result ≡ two first second }
{
    UpToThree {
        first: Some(first),
        second: Some(second),
        third: None,
    }
}

pub fn three<T>(first: T, second: T, third: T) -> UpToThree<T>
    ensures { result ≡ three first second third }
{
    UpToThree {
        first: Some(first),
        second: Some(second),
        third: Some(third),
    }
}
