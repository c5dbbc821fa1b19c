//! A law: control characters are escaped, and all other characters are printed unchanged.

ghost use Rattle.printing.specs.Laws.{PrintsNoControl};

/// Law. The output has no control characters, and a text without them is printed unchanged.
pub fn no_control_is_printed()
    ensures { PrintsNoControl }
{}
