//! The helpers that a program may call (RFC 9669, "Helper Functions"). Each has a row: its number
//! in CALL, its arguments from R1 on, and the greatest number that it returns.

ghost use Rattle.std.specs.Prelude.{◌≡◌, Some};
ghost use Rattle.attrs.specs.Attributes.{Attributes, AreShort};
ghost use Rattle.bpf_semantics.specs.Helpers as helpers;

/// The address of an array's counter at a key, or 0 if the array has no such key.
pub const LOOKUP: i32 = 1;
/// Whether an attribute is a text on the stack.
pub const ATTR_IS: i32 = 2;
/// The length of an attribute.
pub const ATTR_LEN: i32 = 3;
/// The bucket of a salt.
pub const BUCKET: i32 = 4;

/// A helper: a function that a program calls.
#[derive(Clone, Copy)]
pub enum Helper {
    /// The address of an array's counter at a key, or 0.
    Lookup,
    /// Whether an attribute is a text on the stack.
    AttrIs,
    /// The length of an attribute.
    AttrLen,
    /// The bucket of a salt.
    Bucket,
}

/// The arguments of a helper, from R1 on, and its result.
#[derive(Clone, Copy)]
pub enum Prototype {
    /// A map and a key. It returns the address of the map's counter at the key, or 0.
    OfMap,
    /// An attribute's number, and the address and the length of a text on the stack. It returns 0
    /// or 1.
    OfText,
    /// A number. It returns at most `most`.
    OfNumber { most: u64 },
}

impl Helper {
    /// The helper with this number, if there is one.
    #[inline]
    pub fn of(number: i32) -> Option<Helper>
        ensures { result ≡ helpers.helper_of number }
    {
        if number == LOOKUP {
            Some(Helper::Lookup)
        } else if number == ATTR_IS {
            Some(Helper::AttrIs)
        } else if number == ATTR_LEN {
            Some(Helper::AttrLen)
        } else if number == BUCKET {
            Some(Helper::Bucket)
        } else {
            None
        }
    }

    /// The helper's prototype.
    #[inline]
    pub fn prototype(self) -> Prototype
        ensures { result ≡ helpers.prototype_of self }
    {
        match self {
            Helper::Lookup => Prototype::OfMap,
            Helper::AttrIs => Prototype::OfText,
            Helper::AttrLen => Prototype::OfNumber { most: 1024 },
            Helper::Bucket => Prototype::OfNumber { most: 9999 },
        }
    }
}

impl Prototype {
    /// The prototype of the helper that a CALL names, if there is one.
    #[inline]
    pub fn called(number: i32) -> Option<Prototype>
        ensures { result ≡ helpers.called_prototype number }
    {
        match Helper::of(number) {
            Some(helper) => Some(helper.prototype()),
            None => None,
        }
    }
}

/// Law: each constant is the number of its helper.
pub fn helper_numbers()
    ensures lookup { helpers.helper_of LOOKUP ≡ Some Helper.Lookup }
    ensures attr_is { helpers.helper_of ATTR_IS ≡ Some Helper.AttrIs }
    ensures attr_len { helpers.helper_of ATTR_LEN ≡ Some Helper.AttrLen }
    ensures bucket { helpers.helper_of BUCKET ≡ Some Helper.Bucket }
{}

/// Law: a helper that takes a number returns at most what its prototype says, if texts have at most
/// 1024 bytes.
pub fn numbers_are_within()
    ensures { (a : Attributes) → AreShort a.texts → helpers.AllKeepMost a }
{}
