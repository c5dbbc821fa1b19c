//! How long a line is.

use crate::given::is_line;
use crate::texts::is_spelled;
use access_log::LogEvent;
use std::alloc::{AllocError, Global};
use std::test::Fail;

// Whether a reason of this many `a` is in its line.
fn is_whole(alloc: Global, length: usize) -> Result<bool, AllocError> {
    let reason = "a".repeat(alloc, length)?;
    is_spelled(alloc, &reason, &reason)
}

// Whether this is the line of a reason of this many `a`, from its kind on.
fn is_line_of(alloc: Global, length: usize, line: &str) -> Result<bool, AllocError> {
    let reason = "a".repeat(alloc, length)?;
    is_line(alloc, &LogEvent::Unaccepted(&reason), line)
}

/// The line of the first has 4096 bytes.
#[test]
fn no_line_has_over_4096_bytes(rt: HostRuntime) -> Result<(), Fail> {
    assert!(rt; is_whole(rt.alloc(), 4015)?);
    assert!(rt; is_line_of(rt.alloc(), 4016, "\"too-long\",\"bytes\":4097}")?);
    assert!(rt; is_line_of(rt.alloc(), 9000, "\"too-long\",\"bytes\":9081}")?);
    Ok(())
}
