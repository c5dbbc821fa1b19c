//! One declaration: a name, a width, a length and an optional quota.

ghost use Rattle.std.specs.Prelude.{◌≡◌};

use cells::{ArrayName, CellWidth};
use std::fmt;
use std::marker::Model;

/// The declaration of an array with 1 to 4096 cells. A quota, 1 to 2^63 - 1, needs 64-bit cells.
pub struct ArrayDeclaration {
    name: ArrayName,
    width: CellWidth,
    length: u16,
    quota: Option<u64>,
}

// Not derived: a crate that drops one would prove the drop of each of its parts anew.
impl Drop for ArrayDeclaration {
    fn drop(self) {
        let Self {
            name: _name,
            width: _width,
            length: _length,
            quota: _quota,
        } = self;
    }
}

impl Model for ArrayDeclaration {
    ghost use Rattle.cells.specs.Directory.{Declaration, declaration, IsDeclaration};

    ghost Value = { Declaration };

    ghost view = { λ a. declaration a.name a.width a.length a.quota };

    ghost invariant = { λ a. IsDeclaration (declaration a.name a.width a.length a.quota) };
}

impl ArrayDeclaration {
    ghost use Rattle.cells.specs.Arrays.{HasRanges};
    ghost use Rattle.cells.specs.Directory.{declaration, IsDeclaration};

    /// A declaration with these values.
    // open: whether an allocation fails.
    pub fn new(
        name: ArrayName,
        width: CellWidth,
        length: u16,
        quota: Option<u64>,
    ) -> ArrayDeclaration
        requires { HasRanges width length quota }
        ensures { result ≡ declaration name width length quota }
    {
        let _text = name.as_str();
        ArrayDeclaration {
            name,
            width,
            length,
            quota,
        }
    }

    /// The array's name.
    pub fn name(&self) -> &str
        ensures { result.now ≡ self.now.name }
    {
        self.name.as_str()
    }

    /// The width of its cells.
    pub fn width(&self) -> CellWidth
        ensures { result ≡ self.now.width }
    {
        self.width
    }

    /// The number of its cells, 1 to 4096.
    pub fn length(&self) -> u16
        ensures { result ≡ self.now.length }
    {
        self.length
    }

    /// How many takes each cell grants.
    pub fn quota(&self) -> Option<u64>
        ensures { result ≡ self.now.quota }
    {
        self.quota
    }

    /// Law: the invariant of a declaration.
    pub fn invariant_law(&self)
        ensures { IsDeclaration self.now }
    {
        let _width = self.width;
    }
}

/// The text of a list with just this declaration.
impl fmt::Display for ArrayDeclaration {
    ghost use Rattle.std.specs.Prelude.{Some};
    ghost use Rattle.declarations.specs.Texts.{declaration_text};

    ghost output = { λ d. Some (declaration_text d) };

    fn fmt<W: fmt::Write>(&self, f: &mut fmt::Formatter<W>) -> fmt::Result {
        let width = match self.width {
            CellWidth::Bits32 => "32",
            CellWidth::Bits64 => "64",
        };
        let name = self.name.as_str();
        let length = self.length;
        match self.quota {
            None => write!(f, "{name}:{width}:{length}"),
            Some(quota) => write!(f, "{name}:{width}:{length}:{quota}"),
        }
    }
}
