//! Slots of eight bytes: the number that an instruction takes, and the target of a jump (RFC 9669,
//! "Jump Instructions"). A slot's number is a plain `usize`; a jump counts from the slot after its
//! own.

ghost use Rattle.std.specs.Prelude.{◌≡◌, ◌<◌, ◌≤◌};
ghost use Rattle.bpf_insn.specs.Program.{landing, slots_moved};
ghost use Rattle.bpf_insn.specs.Spelling.{width_of, slots_of};

use crate::insn::{Insn, Width};
use crate::operand::Distance;

/// The greatest number of slots of a program.
pub const MOST_SLOTS: usize = 4096;

impl Distance {
    /// The number of slots that it moves, from the instruction after the jump.
    #[inline]
    pub fn slots(self) -> i32
        ensures { result ≡ slots_moved self }
    {
        match self {
            Distance::Short(slots) => slots as i32,
            Distance::Long(slots) => slots,
        }
    }

    /// The slot that a jump at this slot lands on; `None` below slot 0.
    #[inline]
    pub fn target(self, slot: usize) -> Option<usize>
        requires { slot < 4096 }
        ensures { result ≡ landing slot (slots_moved self) }
    {
        let target = slot as i64 + 1 + self.slots() as i64;
        if target < 0 {
            None
        } else {
            Some(target as usize)
        }
    }
}

impl Insn {
    /// One slot, or two for a wide load.
    #[inline]
    pub fn width(&self) -> Width
        ensures { result ≡ width_of self.now }
    {
        match self {
            Insn::Wide { .. } => Width::Two,
            _ => Width::One,
        }
    }
}

impl Width {
    /// One slot or two.
    #[inline]
    pub fn slots(self) -> usize
        ensures slots { result ≡ slots_of self }
        ensures in_range { result ≤ 2 }
    {
        match self {
            Width::One => 1,
            Width::Two => 2,
        }
    }
}
