//! Eight bytes and their fields, both ways: opcode, dst and src, offset and imm, all little-endian.
//! dst is in the low four bits of the second byte, and src in the high ones.

ghost use Rattle.std.specs.Prelude.{◌≡◌, ◌<◌, length};
ghost use Rattle.bpf_insn.specs.Spelling.{bytes_of, IsFields};

use crate::fields::Fields;

/// The fields of eight bytes.
pub fn split_fields(bytes: &[u8]) -> Fields
    requires { length bytes.now ≡ 8 }
    ensures bytes { bytes.now ≡ bytes_of result }
    ensures fits { IsFields result }
{
    Fields {
        opcode: bytes[0],
        dst: bytes[1] & 0x0f,
        src: bytes[1] >> 4,
        offset: i16::from_le_bytes([bytes[2], bytes[3]]),
        imm: i32::from_le_bytes([bytes[4], bytes[5], bytes[6], bytes[7]]),
    }
}

/// The bytes with these fields.
pub fn join_fields(fields: Fields) -> [u8; 8]
    requires dst { fields.dst < 16 }
    requires src { fields.src < 16 }
    ensures { result ≡ bytes_of fields }
{
    let offset = fields.offset.to_le_bytes();
    let imm = fields.imm.to_le_bytes();
    [
        fields.opcode,
        fields.dst + 16 * fields.src,
        offset[0],
        offset[1],
        imm[0],
        imm[1],
        imm[2],
        imm[3],
    ]
}
