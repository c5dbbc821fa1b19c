//! The context of an app: 64 bytes, little-endian, that a program may read at any offset.

ghost use Rattle.std.specs.Prelude.{◌≡◌, ◌+◌, ◌<◌, ◌≤◌, length, All};
ghost use Rattle.std.specs.List.{splice};

use std::marker::Model;

/// The facts of one app of a request at a moment. The type's invariant: the bucket is below 10000,
/// the flags below 64, and the seconds below 86400.
#[derive(Clone, Copy)]
pub struct Context {
    /// The four numbers of the app's version; `Attrs` sets them to 0 if it isn't known.
    pub version: [u32; 4],
    /// Which of the 10000 buckets the app is in.
    pub bucket: u16,
    /// A sum of the flags below.
    pub flags: u8,
    /// Days from 2007-01-01 to the installation, or `UNKNOWN_DAY`.
    pub install_day: u32,
    /// Days from 2007-01-01 to the moment.
    pub today: u32,
    /// Seconds of that day.
    pub seconds: u32,
}

impl Model for Context {
    ghost use Rattle.std.specs.Prelude.{◌<◌};
    ghost use Rattle.attrs.specs.Context as specs;

    ghost Value = { specs.Context };

    ghost view = { λ c. record {
      version = c.version;
      bucket = c.bucket;
      flags = c.flags;
      install_day = c.install_day;
      today = c.today;
      seconds = c.seconds;
    } };

    ghost inverse = { λ c. record {
      version = c.version;
      bucket = c.bucket;
      flags = c.flags;
      install_day = c.install_day;
      today = c.today;
      seconds = c.seconds;
    } };

    ghost invariant = { λ c. (c.bucket < 10000) × (c.flags < 64) × (c.seconds < 86400) };
}

impl Context {
    ghost use Rattle.attrs.specs.Context.{context_bytes, HasContextRanges};
    ghost use Rattle.attrs.specs.Context.{version_known, updatecheck, ping, event};
    ghost use Rattle.attrs.specs.Context.{cohort_known, installdate_known, unknown_day};
    ghost use Rattle.attrs.specs.Context.{bucket_offset, flags_offset, install_day_offset};
    ghost use Rattle.attrs.specs.Context.{today_offset, seconds_offset, IsAt};
    ghost use Rattle.attrs.specs.Context as specs;
    ghost use Rattle.std.specs.Int.{w8, w16, w32, to_le_bytes};

    /// The app sent a valid version.
    pub const VERSION_KNOWN: u8 = 1;
    /// The app requests an update.
    pub const UPDATECHECK: u8 = 2;
    /// The app sent a ping.
    pub const PING: u8 = 4;
    /// The app sent an event.
    pub const EVENT: u8 = 8;
    /// The app's cohort names its bucket.
    pub const COHORT_KNOWN: u8 = 16;
    /// The app sent its install day.
    pub const INSTALLDATE_KNOWN: u8 = 32;

    /// The offset of the bucket, two bytes.
    pub const BUCKET_OFFSET: u8 = 16;
    /// The offset of the flags, one byte.
    pub const FLAGS_OFFSET: u8 = 18;
    /// The offset of the install day, four bytes.
    pub const INSTALL_DAY_OFFSET: u8 = 20;
    /// The offset of the day of the moment, four bytes.
    pub const TODAY_OFFSET: u8 = 24;
    /// The offset of the seconds of that day, four bytes.
    pub const SECONDS_OFFSET: u8 = 28;

    /// The install day of an app that sent none.
    pub const UNKNOWN_DAY: u32 = u32::MAX;

    /// Law: each flag and the unknown day have the numbers of the layout.
    pub fn flag_numbers()
        ensures version { Self.VERSION_KNOWN ≡ version_known }
        ensures updatecheck { Self.UPDATECHECK ≡ updatecheck }
        ensures ping { Self.PING ≡ ping }
        ensures event { Self.EVENT ≡ event }
        ensures cohort { Self.COHORT_KNOWN ≡ cohort_known }
        ensures installdate { Self.INSTALLDATE_KNOWN ≡ installdate_known }
        ensures day { Self.UNKNOWN_DAY ≡ unknown_day }
    {}

    /// Law: each offset has the number of the layout.
    pub fn offset_numbers()
        ensures bucket { Self.BUCKET_OFFSET ≡ bucket_offset }
        ensures flags { Self.FLAGS_OFFSET ≡ flags_offset }
        ensures install_day { Self.INSTALL_DAY_OFFSET ≡ install_day_offset }
        ensures today { Self.TODAY_OFFSET ≡ today_offset }
        ensures seconds { Self.SECONDS_OFFSET ≡ seconds_offset }
    {}

    /// Law: each field is at its offset in the bytes, little-endian.
    #[tactic(auto, unfolding(crate::specs::Context::context_bytes))]
    pub fn fields_are_at_offsets()
        ensures bucket { (c : specs.Context) → IsAt c bucket_offset (to_le_bytes w16 c.bucket) }
        ensures flags { (c : specs.Context) → IsAt c flags_offset (to_le_bytes w8 c.flags) }
        ensures install_day { (c : specs.Context)
            → IsAt c install_day_offset (to_le_bytes w32 c.install_day) }
        ensures today { (c : specs.Context) → IsAt c today_offset (to_le_bytes w32 c.today) }
        ensures seconds { (c : specs.Context)
            → IsAt c seconds_offset (to_le_bytes w32 c.seconds) }
    {}

    /// Law: the type's invariant, and the range of each other number.
    pub fn invariant_law(&self)
        ensures { HasContextRanges self.now }
    {
        let [_first, _second, _third, _fourth] = self.version;
        let _install_day = self.install_day;
        let _today = self.today;
        let _bucket = &self.bucket;
    }

    /// The bytes of the context.
    pub fn bytes(&self) -> [u8; 64]
        ensures layout { result ≡ context_bytes self.now }
        ensures length { length result ≡ 64 }
        ensures bytes { All (λ b. b < 256) result }
    {
        let mut bytes = [0; 64];
        put(&mut bytes, 0, &self.version[0].to_le_bytes());
        put(&mut bytes, 4, &self.version[1].to_le_bytes());
        put(&mut bytes, 8, &self.version[2].to_le_bytes());
        put(&mut bytes, 12, &self.version[3].to_le_bytes());
        put(
            &mut bytes,
            Context::BUCKET_OFFSET,
            &self.bucket.to_le_bytes(),
        );
        put(&mut bytes, Context::FLAGS_OFFSET, &self.flags.to_le_bytes());
        put(
            &mut bytes,
            Context::INSTALL_DAY_OFFSET,
            &self.install_day.to_le_bytes(),
        );
        put(&mut bytes, Context::TODAY_OFFSET, &self.today.to_le_bytes());
        put(
            &mut bytes,
            Context::SECONDS_OFFSET,
            &self.seconds.to_le_bytes(),
        );
        bytes
    }
}

// Writes the bytes of a field at its offset.
fn put(bytes: &mut [u8], offset: u8, field: &[u8])
    requires { offset + length field.now ≤ length bytes.old }
    ensures { bytes.new ≡ splice bytes.old offset (offset + length field.now) field.now }
{
    let start = offset as usize;
    bytes[start..start + field.len()].copy_from_slice(field);
}
