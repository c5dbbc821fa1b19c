//! A law of the definitions: a list of declarations has one outcome.

ghost use Rattle.declarations.specs.OneWay.{ListsDeclareOneWay};

use cells::declares_one_way;

/// Law: a list of declarations is declared in at most one way, or refused in at most one. No
/// running code calls it.
pub fn lists_declare_one_way()
    ensures { ListsDeclareOneWay }
{
    declares_one_way();
}
