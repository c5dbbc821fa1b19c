//! Which file names stay in the folder of a manifest.

ghost use Rattle.std.specs.Prelude.{◌≡◌};
ghost use Rattle.why_refused_manifest.specs.Inside as specs;

use std::path::Path;

/// Whether a name stays in the folder from which it is resolved, or below: it isn't absolute, and
/// none of its parts is `..`. A symbolic link may still lead out; the disk checks that.
pub(crate) fn is_inside(name: &str) -> bool
    ensures { result ≡ specs.is_inside name.now }
{
    for part in Path::new(name).components() {
        if leads_out(part.as_os_str()) {
            return false;
        }
    }
    true
}

fn leads_out(part: &str) -> bool
    ensures { result ≡ specs.leads_out part.now }
{
    part == "/" || part == ".."
}
