//! The outermost objects of a JSON text (RFC 8259), byte by byte. The text may be cut.

ghost use Rattle.std.specs.Prelude.{◌≡◌, [], IfOk, OnOk, if◌then◌else◌, ◌==◌};
ghost use Rattle.report.specs.Objects as specs;

use std::alloc::{AllocError, Global};

/// A part of a text: outside of strings, in one, or after a backslash in one.
#[derive(Clone, Copy)]
pub(crate) enum JsonPart {
    Plain,
    Quoted,
    Escaped,
}

/// What has been read of a text.
#[derive(Drop)]
pub(crate) struct ObjectReader {
    pub(crate) part: JsonPart,
    /// How many objects are open.
    pub(crate) depth: u64,
    /// The bytes of the outermost object so far.
    pub(crate) object: Vec<u8>,
}

impl ObjectReader {
    /// At the start of a text of this length, for which there is room.
    pub(crate) fn new(alloc: Global, length: usize) -> Result<ObjectReader, AllocError>
        ensures { IfOk result (λ reader. specs.json_place reader ≡ specs.json_start) }
    {
        let object = Vec::with_capacity(alloc, length)?;
        Ok(ObjectReader {
            part: JsonPart::Plain,
            depth: 0,
            object,
        })
    }

    /// Reads a byte, and returns whether it ends an outermost object.
    pub(crate) fn read(&mut self, byte: u8) -> Result<bool, AllocError>
        ensures place { OnOk result
            (specs.json_place self.new ≡ specs.after_byte (specs.json_place self.old) byte) }
        ensures closes { IfOk result
            (λ b. b ≡ specs.closes_object (specs.json_place self.old) (specs.json_place self.new)) }
    {
        let depth = self.depth;
        forget_unless(&mut self.object, depth);
        self.object.push(byte)?;
        self.depth = depth_after(self.part, depth, byte);
        self.part = part_after(self.part, byte);
        Ok(depth > 0 && self.depth == 0)
    }

    /// The bytes of the outermost object so far: all of it, if the last byte ended one.
    pub(crate) fn object(&self) -> &[u8]
        ensures { result.now ≡ self.now.object.items }
    {
        self.object.as_slice()
    }
}

// Clears the bytes unless an object is open.
fn forget_unless(object: &mut Vec<u8>, depth: u64)
    ensures { object.new.items ≡ (if depth == 0 then [] else object.old.items) }
{
    if depth == 0 {
        object.clear();
    }
}

fn part_after(part: JsonPart, byte: u8) -> JsonPart
    ensures { result ≡ specs.part_after part byte }
{
    match part {
        JsonPart::Plain if byte == b'"' => JsonPart::Quoted,
        JsonPart::Plain => JsonPart::Plain,
        JsonPart::Quoted if byte == b'"' => JsonPart::Plain,
        JsonPart::Quoted if byte == b'\\' => JsonPart::Escaped,
        JsonPart::Quoted | JsonPart::Escaped => JsonPart::Quoted,
    }
}

fn depth_after(part: JsonPart, depth: u64, byte: u8) -> u64
    ensures { result ≡ specs.depth_after part depth byte }
{
    match part {
        JsonPart::Plain if byte == b'{' => depth.saturating_add(1),
        JsonPart::Plain if byte == b'}' => depth.saturating_sub(1),
        _ => depth,
    }
}
