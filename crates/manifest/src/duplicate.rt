//! Duplicate names in a list.

ghost use Rattle.std.specs.Prelude.{◌≡◌, List, ℕ, map, option_copied};
ghost use Rattle.std.specs.List.{list_any};
ghost use Rattle.std.specs.Str.{bytes_eq};
ghost use Rattle.manifest.specs.DuplicateNames.{repeated};

use crate::app::AppEntry;
use declarations::ArrayDeclaration;

/// Something whose name must be unique in its list.
pub trait Named {
    ghost name_of: { Self → List ℕ };

    /// The name.
    fn name(&self) -> &str
        ensures { result.now ≡ name_of self.now };
}

impl Named for ArrayDeclaration {
    ghost name_of = { λ a. a.name };

    fn name(&self) -> &str {
        ArrayDeclaration::name(self)
    }
}

impl Named for AppEntry {
    ghost name_of = { λ a. a.appid };

    fn name(&self) -> &str {
        self.appid()
    }
}

/// The first name that occurs again later.
pub(crate) fn repeated_name<N: Named>(list: &[N]) -> Option<&str>
    ensures { option_copied result ≡ repeated (map N.name_of list.now) }
{
    let mut rest = list;
    while let [item, after @ ..] = rest {
        if has_name(after, item.name()) {
            return Some(item.name());
        }
        rest = after;
    }
    None
}

/// Whether something in the list has this name.
pub fn has_name<N: Named>(list: &[N], name: &str) -> bool
    ensures { result ≡ list_any (bytes_eq name.now) (map N.name_of list.now) }
{
    let mut rest = list;
    while let [item, after @ ..] = rest {
        if name == item.name() {
            return true;
        }
        rest = after;
    }
    false
}
