//! Whole programs over counters and helpers, with their events.

ghost use Rattle.std.specs.Prelude.{◌≡◌, ℕ, pos, [], ◌∷◌, Some, slice_get};
ghost use Rattle.attrs.specs.Attributes.{Attributes};
ghost use Rattle.cells.specs.declared.event.CellOp.TheVariants as cell;
ghost use Rattle.cells.specs.Events.{event};
ghost use Rattle.bpf_semantics.specs.Run.{EndsWith};
ghost use Rattle.worked_examples.specs.CounterPrograms as worked;
ghost use Rattle.worked_examples.specs.CounterPrograms.{EndsOver, TrapsOver, AreValues};

/// `ldmap r1, 0 / mov r2, KEY / call 1 / jeq r0, 0, +2 / mov r0, 1 / exit / mov r0, 2 / exit` over
/// an array of four counters ends with 1 for key 3, which exists, and with 2 for key 4, which
/// doesn't. If the result isn't compared with 0, its use is a trap: `ldmap r1, 0 / mov r2, 4 / call
/// 1 / ldxdw r3, [r0+0] / mov r0, 0 / exit`.
pub fn lookups()
    ensures found { EndsOver worked.four_wide (worked.lookup_program (pos 3)) [] 1 6 }
    ensures missing { EndsOver worked.four_wide (worked.lookup_program (pos 4)) [] 2 6 }
    ensures unchecked { TrapsOver worked.four_wide worked.unchecked_program 3 }
{}

/// `ldmap r1, 0 / mov r2, 0 / call 1 / mov r6, r0 / jeq r0, 0, +1 / ldxdw r3, [r6+0] / mov r0, 0 /
/// exit` loads the counter, whatever its value, and ends with 0.
pub fn loads_of_counters()
    ensures { (value : ℕ)
        → EndsOver worked.one_wide worked.checked_program
        (event 0 cell.Load value ∷ []) 0 8 }
{}

/// `ldcell r6, 0, 0 / mov32 r2, -1 / stxw [r6+0], r2 / mov r2, 1 / faddw [r6+0], r2 / mov r0, 0 /
/// mov r3, 5 / cmpxchgw [r6+0], r3 / and r0, 1 / exit` over a 32-bit counter: the sum wraps, and
/// the exchange finds 0 and stores 5. The old value is zero-extended: if R2 is the choice after
/// `faddw`, it is 4294967295.
pub fn narrow_counters()
    ensures ends { EndsOver worked.one_narrow worked.narrow_program worked.narrow_events 0 10 }
    ensures values { AreValues 0 worked.narrow_events (0xFFFFFFFF ∷ 0 ∷ 5 ∷ []) }
    ensures fetched { EndsOver worked.one_narrow worked.fetched_program worked.fetched_events
        0xFFFFFFFF 7 }
{}

/// Operands are truncated to a counter's 32 bits: `ldcell r6, 0, 0 / mov r2, -1 / stxw [r6+0], r2 /
/// aaddw [r6+0], r2 / mov r0, 0 / exit` stores and adds 4294967295.
pub fn cut_operands()
    ensures { (reply : ℕ)
        → EndsOver worked.one_narrow worked.uncut_program (worked.cut_events reply) 0 6 }
{}

/// `ldcell r6, 0, 0 / mov r2, 1 / fadddw [r6+0], r2 / jge r2, 2, +2 / mov r0, 1 / exit / mov r0, 0
/// / exit` takes 1 from a quota of two: the replies 0 and 1 lead to release 1, and 2 leads to none.
pub fn takes()
    ensures first { EndsOver worked.quota_of_two worked.take_program
        (event 0 (cell.Add 1) 0 ∷ []) 1 6 }
    ensures second { EndsOver worked.quota_of_two worked.take_program
        (event 0 (cell.Add 1) 1 ∷ []) 1 6 }
    ensures third { EndsOver worked.quota_of_two worked.take_program
        (event 0 (cell.Add 1) 2 ∷ []) 0 6 }
{}

/// `stb [r10-8], 49 / mov r1, 1 / mov r2, r10 / add r2, -8 / mov r3, 1 / call 2 / exit` ends with 1
/// if the app's version text is `1`, and with 0 if it is `01`.
pub fn compared_texts()
    ensures same { (a : Attributes) → slice_get a.texts 1 ≡ Some (49 ∷ [])
        → EndsWith worked.version_is_program a 1 7 }
    ensures other { (a : Attributes) → slice_get a.texts 1 ≡ Some (48 ∷ 49 ∷ [])
        → EndsWith worked.version_is_program a 0 7 }
{}
