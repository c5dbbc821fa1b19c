//! Laws about the definitions, for the crates above: each operation on abstract values covers what
//! the machine computes, and interval ends stay in order.

ghost use Rattle.abs_value.specs.Order as ranges;
ghost use Rattle.abs_value.specs.Laws as laws;
ghost use Rattle.abs_value.specs.Numbers as numbers;

use bpf_insn::results_fit;
use bpf_semantics::helpers::numbers_are_within;

/// Law: when an interval and known bits tighten each other, they represent the same numbers as
/// before; so does a result. A value that is found empty represents no number.
pub fn numbers_are_kept()
    ensures tidy { laws.IsTidy numbers.tidy }
    ensures tidied { laws.IsTidy numbers.tidied }
    ensures empty { laws.EmptyHasNone }
{}

/// Law: each operation on abstract values includes the machine's result for the numbers that they
/// include. The operations are arithmetic, MOV, NEG, MOVSX, END, and a load of unknown bytes.
/// `Number::single` and `Number::up_to` include their numbers.
pub fn results_sound()
    ensures alu { laws.IncludesResults }
    ensures copied { laws.IncludesCopies }
    ensures negated { laws.IncludesNegations }
    ensures extended { laws.IncludesExtensions }
    ensures reordered { laws.IncludesReorderings }
    ensures loaded { laws.IncludesLoaded }
    ensures single { laws.IncludesSingle }
    ensures up_to { laws.IncludesUpTo }
{
    results_fit();
}

/// Law: the edge that a run takes at a jump isn't dropped, and the two narrowed values on it
/// include the numbers that were compared. So no run takes a dropped edge.
pub fn edges_are_kept()
    ensures { laws.KeepsTaken }
{}

/// Law: a register whose value is usable is set. Writing a register and narrowing its value cover
/// the resulting state, and the opening state covers the start of a run.
pub fn registers_sound()
    ensures registers { laws.RegistersAreThere }
    ensures operands { laws.OperandsAreThere }
    ensures writes { laws.CoversWrites }
    ensures learnt { laws.CoversLearnt }
    ensures opening { laws.CoversOpening }
{}

/// Law: what covers a state still covers it when another call has returned. Results of calls before
/// a slot are before each later slot, and so are these with the result of the call at the slot.
pub fn answers_are_kept()
    ensures later { laws.CoversLater }
    ensures before { laws.StaysBefore }
    ensures next { laws.AnswersBefore }
{}

/// Law: at a conditional jump the edge that a run takes isn't dropped, and the abstract state on it
/// covers the state. It still covers the state once each copy of a lookup's result is known.
pub fn lookups_sound()
    ensures answered { laws.CoversAnswered }
    ensures edges { laws.CoversEdges }
{}

/// Law: the abstract state after a CALL covers the state after it, for each helper.
pub fn calls_sound()
    ensures { laws.CoversCalls }
{
    numbers_are_within();
}

/// Law: a join represents all that either side represents.
pub fn joins_sound()
    ensures first { laws.CoversFirst }
    ensures second { laws.CoversSecond }
{}

/// Law: a join doesn't depend on the order of its two sides.
pub fn joins_commute()
    ensures { laws.JoinsCommute }
{}

/// Law: a store within the stack is possible, and the abstract state after it covers the state
/// after it.
pub fn stores_sound()
    ensures { laws.CoversStores }
{}

/// Law: a load within the stack of bytes that are all set reads a number that its value includes.
pub fn loads_sound()
    ensures { laws.CoversLoads }
{}

/// Law: bytes of the stack that are all set can be read, however many.
pub fn bytes_are_there()
    ensures { laws.BytesAreThere }
{}

/// Law: if the ends of values are in order, each operation gives a value whose ends are in order.
pub fn values_monotone()
    ensures alu { ranges.ResultsInOrder }
    ensures copied { ranges.CopiesInOrder }
    ensures negated { ranges.NegationsInOrder }
    ensures extended { ranges.ExtensionsInOrder }
    ensures reordered { ranges.ReorderingsInOrder }
    ensures loaded { ranges.LoadedInOrder }
    ensures refined { ranges.EdgesInOrder }
    ensures joined { ranges.JoinsInOrder }
    ensures answered { ranges.AnswersInOrder }
    ensures called { ranges.CallsInOrder }
{}

/// Law: if all ends in states are in order, each operation gives a state in which they are.
pub fn states_monotone()
    ensures opening { ranges.OpeningInOrder }
    ensures operands { ranges.OperandsInOrder }
    ensures writes { ranges.WritesInOrder }
    ensures stores { ranges.StoresInOrder }
    ensures loads { ranges.LoadsInOrder }
    ensures joins { ranges.StateJoinsInOrder }
    ensures edges { ranges.RefinedInOrder }
    ensures calls { ranges.CalledInOrder }
{}
