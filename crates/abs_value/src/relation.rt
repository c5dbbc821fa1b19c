//! The relation of two numbers that an edge of a conditional jump implies.

ghost use Rattle.std.specs.Prelude.{◌≡◌};
ghost use Rattle.abs_value.specs.Narrowing as narrowing;

use bpf_insn::Condition;

/// The relation of a first number to a second.
#[derive(Clone, Copy)]
pub enum Relation {
    Equal,
    Unequal,
    Less,
    AtMost,
    More,
    AtLeast,
    /// They have a bit in common.
    Meets,
    /// They have no bit in common.
    Misses,
}

impl Relation {
    /// The relation for which the condition holds, signed or not.
    fn of(condition: Condition) -> Relation
        ensures { result ≡ narrowing.relation condition }
    {
        match condition {
            Condition::Eq => Relation::Equal,
            Condition::Ne => Relation::Unequal,
            Condition::Lt | Condition::Slt => Relation::Less,
            Condition::Le | Condition::Sle => Relation::AtMost,
            Condition::Gt | Condition::Sgt => Relation::More,
            Condition::Ge | Condition::Sge => Relation::AtLeast,
            Condition::Set => Relation::Meets,
        }
    }

    fn opposite(self) -> Relation
        ensures { result ≡ narrowing.opposite self }
    {
        match self {
            Relation::Equal => Relation::Unequal,
            Relation::Unequal => Relation::Equal,
            Relation::Less => Relation::AtLeast,
            Relation::AtMost => Relation::More,
            Relation::More => Relation::AtMost,
            Relation::AtLeast => Relation::Less,
            Relation::Meets => Relation::Misses,
            Relation::Misses => Relation::Meets,
        }
    }

    /// The relation if the jump is taken, or if it isn't.
    pub(crate) fn learnt(condition: Condition, jumps: bool) -> Relation
        ensures { result ≡ narrowing.learnt condition jumps }
    {
        let relation = Relation::of(condition);
        if jumps { relation } else { relation.opposite() }
    }
}
