//! Laws of the definitions: what a server sends as Omaha's reply is what the dry run finds, and the
//! explanation of a request is about that reply. Nothing that runs calls them.

ghost use Rattle.dry_run.specs.Meanings.{OpensTheSame};
ghost use Rattle.dry_run.specs.Noted.{MembersAreNoted, ReadMembersAreExplained};
ghost use Rattle.dry_run.specs.Sent as specs;
ghost use Rattle.dry_run.specs.Why.{ExplainsReply};

use load::{opened_is_made, sources_are_made};

/// Law: the texts that a server with this newest ruleset may send as Omaha's reply are exactly
/// those that answer the request's apps under it. A server may also refuse, if out of memory or
/// without a ruleset.
pub fn sends_replies()
    ensures { specs.SendsReplies }
{}

/// Law: on counters with the same values there is one reply.
pub fn reply_unique()
    ensures { specs.HasOneReply }
{}

/// Law: a server sends what was found as Omaha's reply to a body, under two conditions. The newest
/// ruleset that its watcher knows, the moment and the values of its counters are those of the dry
/// run; and no other request's run changes a counter between this one's runs. It isn't said whether
/// the server sends Omaha's reply at all, or refuses because it has no memory or no ruleset.
pub fn sends_what_is_found()
    ensures { specs.SendsWhatIsFound }
{}

/// Law: a server refuses a body that isn't a request with the same fault, or because it is out of
/// memory.
pub fn refuses_alike()
    ensures { specs.RefusesAlike }
{}

/// Law: the choices in the explanation are those of the reply to the same body, at the same moment,
/// on the same counters.
pub fn explains_reply()
    ensures { ExplainsReply }
{}

/// Law: what `open_why` opens is what `open_files` opens.
pub fn opens_the_same()
    ensures { OpensTheSame }
{
    opened_is_made();
    sources_are_made();
}

/// Law: a member of a request or of an app that is present without a line counts, and a member with
/// a line counts as absent.
pub fn notes_sound()
    ensures members { MembersAreNoted }
    // The lines are those of the members from which the request is read.
    ensures read { ReadMembersAreExplained }
{}
