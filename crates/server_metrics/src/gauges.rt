//! The parts of a gauge in the text format of Prometheus, version 0.0.4.

ghost use Rattle.std.specs.Prelude.{OnOk};
ghost use Rattle.printing.specs.Pushed.{Puts};
ghost use Rattle.server_metrics.specs.Servers as specs;

use std::alloc::AllocError;
use std::fmt::Write;

/// Appends the help and the type of a gauge.
pub(crate) fn push_gauge(text: &mut String, name: &str, help: &str) -> Result<(), AllocError>
    ensures { OnOk result (Puts text.old text.new (specs.gauge name.now help.now)) }
{
    write!(text, "# HELP {name} {help}\n")?;
    write!(text, "# TYPE {name} gauge\n")
}
