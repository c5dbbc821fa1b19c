//! What a halt does to an app, and that it does nothing to another. By the definitions only.

ghost use Rattle.halts.specs.Halts.{HaltAdds, HaltedAreHeld, KeepsApps, KeepsArrays, OthersStay};
ghost use Rattle.halts.specs.Halts.{ResumeLifts, ServesAll};

/// Law. Of a halted app each run ends with 0 and without an event on counters, for each request. An
/// app that isn't halted has the program, the releases and the place that it had. No app is added,
/// removed or renamed, and the programs know no further array.
pub fn halts_sound()
    ensures held { HaltedAreHeld }
    ensures others { OthersStay }
    ensures apps { KeepsApps }
    ensures arrays { KeepsArrays }
    ensures all { ServesAll }

    // A halt halts one app more, and a resume lifts only that of its app.
    ensures adds { HaltAdds }
    ensures lifts { ResumeLifts }
{}
