//! The law of the definitions: what is read is what was written.

ghost use Rattle.counters_file.specs.Text.{ReadsBack};

use cells::arrays_lie_apart;

/// Law: the text of halted apps, arrays and values is read as these apps and arrays, with the
/// values of their cells. All other cells are 0.
pub fn reads_back()
    ensures { ReadsBack }
{
    arrays_lie_apart();
}
