//! A release; contracts see its texts and the list of its packages.

ghost use Rattle.std.specs.Prelude.{◌≡◌};

use crate::package::Package;
use attrs::Text;
use std::marker::Model;

/// A release of an app.
pub struct Release {
    version: Text,
    codebase: Text,
    packages: Vec<Package>,
}

// Not derived: a crate that drops one would prove the drop of each of its parts anew.
impl Drop for Release {
    fn drop(self) {
        let Self {
            version: _version,
            codebase: _codebase,
            packages: _packages,
        } = self;
    }
}

impl Model for Release {
    ghost use Rattle.releases.specs.Release as specs;

    ghost Value = { specs.Release };

    ghost view = { λ r. record {
      version = r.version;
      codebase = r.codebase;
      packages = r.packages.items;
    } };

    ghost invariant = { λ r. specs.IsRelease r.version r.packages.items };
}

impl Release {
    ghost use Rattle.releases.specs.Release as specs;

    /// A release with these texts and packages; doesn't allocate. The version must be readable, and
    /// there must be 1 to 16 packages.
    pub fn new(version: Text, codebase: Text, packages: Vec<Package>) -> Release
        requires { specs.IsRelease version packages.items }
        ensures { result ≡ record {
          version = version;
          codebase = codebase;
          packages = packages.items;
        } }
    {
        Release {
            version,
            codebase,
            packages,
        }
    }

    /// Its version, as the manifest writes it.
    pub fn version(&self) -> &str
        ensures { result.now ≡ self.now.version }
    {
        self.version.as_str()
    }

    /// The URL below which its files are.
    pub fn codebase(&self) -> &str
        ensures { result.now ≡ self.now.codebase }
    {
        self.codebase.as_str()
    }

    /// Its files, in the manifest's order.
    pub fn packages(&self) -> &[Package]
        ensures { result.now ≡ self.now.packages }
    {
        self.packages.as_slice()
    }
}
