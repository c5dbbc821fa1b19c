//! Laws of answered lines, by the definitions only.

ghost use Rattle.operator.specs.Leading.{HaltsHold, LinesGoOnwards, LinesKeepToArrays};
ghost use Rattle.operator.specs.Leading.{LinesOnlyRead, LinesServeLoads};

use crate::loader::Loader;
use cells::arrays_preserved;
use halts::halts_sound;

/// Law. Answered lines only append to what is published. Programs that know only a server's arrays
/// still do so afterwards, and the counters were only read.
pub fn loads_monotone<L: Loader>(loader: &L)
    ensures onwards { LinesGoOnwards (L.loads loader.now) }
    ensures only { LinesKeepToArrays (L.loads loader.now) }
    ensures reads { LinesOnlyRead (L.loads loader.now) }
{
    let _loader = loader;
    arrays_preserved();
    halts_sound();
}

/// Law. A halt holds, whatever is loaded, until a line resumes the app. If what is served is the
/// last load, with the programs of the halted apps replaced, it still is afterwards.
pub fn halts_hold<L: Loader>(loader: &L)
    ensures hold { HaltsHold (L.loads loader.now) }
    ensures serve { LinesServeLoads (L.loads loader.now) }
{
    let _loader = loader;
    halts_sound();
}
