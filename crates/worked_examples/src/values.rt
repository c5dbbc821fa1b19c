//! Pointers, joins and the stack, on values worked out by hand.

ghost use Rattle.std.specs.Prelude.{◌≡◌};
ghost use Rattle.std.specs.Prelude.{true, false, pos, negsuc};
ghost use Rattle.bpf_insn.specs.declared.operand.AluOp.TheVariants.{Add, Sub};
ghost use Rattle.bpf_insn.specs.declared.operand.Bits.TheVariants.{Bits64, Bits32};
ghost use Rattle.bpf_insn.specs.declared.operand.LoadKind.TheVariants as load;
ghost use Rattle.abs_value.specs.declared.value.Abs.TheVariants.{Unusable, Num, Ctx, Stk};
ghost use Rattle.abs_value.specs.declared.value.Abs.TheVariants.{Map, MayCell, Cell};
ghost use Rattle.abs_value.specs.declared.origin.Origin.TheVariants.{Found, Fixed};
ghost use Rattle.abs_value.specs.declared.slot.AbsSlot.TheVariants.{Kept, Bytes};
ghost use Rattle.worked_examples.specs.Examples.{span};
ghost use Rattle.abs_value.specs.Numbers.{single, up_to};
ghost use Rattle.abs_value.specs.Values.{places, alu_value, copied_value, join_values};
ghost use Rattle.abs_value.specs.Stack.{stored, slot_at, loaded_from, has_unset, join_slots};
ghost use Rattle.worked_examples.specs.Examples as found;
ghost use Rattle.worked_examples.specs.Examples.{no_bytes, kept_at_end, two_halves};

/// A pointer moves within its region: a single number by its signed view, a range only up.
pub fn pointer_moves()
    ensures to_the_end { alu_value Bits64 Add (Ctx (places 0 0)) (Num (single 64))
        ≡ Ctx (places 64 64) }
    ensures past_the_end { alu_value Bits64 Add (Ctx (places 0 0)) (Num (single 65)) ≡ Unusable }
    ensures down { alu_value Bits64 Add (Ctx (places 4 8)) (Num (single 0xFFFFFFFFFFFFFFFC))
        ≡ Ctx (places 0 4) }
    ensures below { alu_value Bits64 Add (Ctx (places 4 8)) (Num (single 0xFFFFFFFFFFFFFFFB))
        ≡ Unusable }
    ensures range { alu_value Bits64 Add (Ctx (places 4 8)) (Num (span 0 56))
        ≡ Ctx (places 4 64) }
    ensures range_past { alu_value Bits64 Add (Ctx (places 4 8)) (Num (span 0 57)) ≡ Unusable }
    ensures taken { alu_value Bits64 Sub (Ctx (places 4 8)) (Num (single 4)) ≡ Ctx (places 0 4) }
    ensures range_taken { alu_value Bits64 Sub (Ctx (places 4 8)) (Num (span 0 1)) ≡ Unusable }
    ensures frame_down { alu_value Bits64 Add (Stk 512) (Num (single 0xFFFFFFFFFFFFFE00)) ≡ Stk 0 }
    ensures frame_taken { alu_value Bits64 Sub (Stk 512) (Num (single 512)) ≡ Stk 0 }
    ensures frame_below { alu_value Bits64 Sub (Stk 512) (Num (single 513)) ≡ Unusable }
    ensures frame_above { alu_value Bits64 Add (Stk 512) (Num (single 1)) ≡ Unusable }
    ensures frame_range { alu_value Bits64 Add (Stk 0) (Num (span 0 1)) ≡ Unusable }
    ensures half { alu_value Bits32 Add (Stk 512) (Num (single 0)) ≡ Unusable }
    ensures number_first { alu_value Bits64 Add (Num (single 8)) (Ctx (places 0 0)) ≡ Unusable }
    ensures copied { copied_value Bits64 (Stk 512) ≡ Stk 512 }
    ensures copied_half { copied_value Bits32 (Stk 512) ≡ Unusable }
{}

/// A join keeps what both sides know.
pub fn joins()
    ensures numbers { join_values (Num (span 3 5)) (Num (span 1 4)) ≡ Num (span 1 5) }
    ensures context { join_values (Ctx (places 8 8)) (Ctx (places 0 4)) ≡ Ctx (places 0 8) }
    ensures frame { join_values (Stk 504) (Stk 504) ≡ Stk 504 }
    ensures frames { join_values (Stk 504) (Stk 496) ≡ Unusable }
    ensures mixed { join_values (Num (single 0)) (Ctx (places 0 0)) ≡ Unusable }
    ensures maps { join_values (Map 1) (Map 1) ≡ Map 1 }
    ensures other_map { join_values (Map 1) (Map 2) ≡ Unusable }
    ensures answers { join_values (MayCell found.first) (MayCell found.first)
        ≡ MayCell found.first }
    ensures other_call { join_values (MayCell found.first) (MayCell found.second) ≡ Unusable }
    ensures found { join_values (Cell (Found found.first)) (MayCell found.first)
        ≡ MayCell found.first }
    ensures found_too { join_values (MayCell found.first) (Cell (Found found.first))
        ≡ MayCell found.first }
    ensures cells { join_values (Cell (Fixed 3)) (Cell (Fixed 3)) ≡ Cell (Fixed 3) }
    ensures other_cell { join_values (Cell (Fixed 3)) (Cell (Fixed 4)) ≡ Unusable }
    ensures fixed_or_found { join_values (Cell (Fixed 3)) (Cell (Found found.first)) ≡ Unusable }
    ensures unusable { join_values Unusable (Num (single 0)) ≡ Unusable }
    ensures kept { join_slots (Kept (Num (single 1))) (Kept (Num (single 2)))
        ≡ Kept (Num (span 1 2)) }
    ensures kept_apart { join_slots (Kept (Stk 0)) (Kept (Num (single 2))) ≡ Bytes 255 }
    ensures kept_and_set { join_slots (Kept (Num (single 1))) (Bytes 240) ≡ Bytes 240 }
    ensures set { join_slots (Bytes 60) (Bytes 240) ≡ Bytes 48 }
{}

/// A store of a whole slot keeps the value; any other store leaves set bytes, in two slots if it
/// passes the end of one. A load of a whole slot gives the kept value.
pub fn stack_bytes()
    ensures whole { slot_at kept_at_end 63 ≡ Kept (Num (single 7)) }
    ensures loaded { loaded_from kept_at_end 504 load.Double ≡ Num (single 7) }
    ensures loaded_part { loaded_from kept_at_end 504 load.Word ≡ Num (up_to 0xFFFFFFFF) }
    ensures loaded_sign { loaded_from kept_at_end 504 load.SignedByte
        ≡ Num (up_to 0xFFFFFFFFFFFFFFFF) }
    ensures part { slot_at (stored kept_at_end 504 1 (Num (single 0))) 63 ≡ Bytes 255 }
    ensures low_half { slot_at (stored no_bytes 504 4 (Num (single 0))) 63 ≡ Bytes 15 }
    ensures high_half { slot_at (stored no_bytes 508 4 (Num (single 0))) 63 ≡ Bytes 240 }
    ensures first_slot { slot_at two_halves 62 ≡ Bytes 240 }
    ensures next_slot { slot_at two_halves 63 ≡ Bytes 15 }
    ensures loaded_both { loaded_from two_halves 500 load.Double ≡ Num (up_to 0xFFFFFFFFFFFFFFFF) }
    ensures all_set { has_unset two_halves (pos 500) 8 ≡ false }
    ensures one_unset { has_unset two_halves (pos 501) 8 ≡ true }
    ensures one_before { has_unset two_halves (pos 499) 1 ≡ true }
    ensures outside { has_unset kept_at_end (pos 508) 8 ≡ false }
    ensures before_the_stack { has_unset no_bytes (negsuc 3) 4 ≡ false }
    ensures into_the_stack { has_unset no_bytes (negsuc 3) 5 ≡ true }
{}
