//! Laws of several starts, by the definitions only. The functions do nothing.

ghost use Rattle.restart_laws.specs.Moments.{CrashesLeaveEnough, CrashesLeaveOpenings};
ghost use Rattle.restart_laws.specs.Servers.{EachCountsOn, ServersCountAsOne};
ghost use Rattle.restart_laws.specs.Starts.{StartsGrantNoMore};

/// Law: servers that were stopped, one after another, grant a quota as one server would have that
/// did what all did. Each opened its counters with the last values of the one before. An array that
/// a later server declared counts from that server on.
pub fn servers_count_as_one()
    ensures all { ServersCountAsOne }
    // So each server counts on, whatever servers were before it.
    ensures each { EachCountsOn }
{}

/// Law: take starts of a server of which some were stopped and some crashed, each of which opened a
/// quota's cell as the one before may leave it. All together send at most as many places as the
/// quota has.
pub fn starts_grant_no_more()
    ensures { StartsGrantNoMore }
{}

/// Law: take a start that keeps two rules at each moment. A commit's number isn't below the opening
/// one, and is above each place that was sent. A place is sent only if each number that a crash may
/// leave is above it. Then a crash leaves such a number at any moment.
pub fn crashes_leave_openings()
    ensures enough { CrashesLeaveEnough }
    // So the next start may open the cell with it, as the law of starts requires.
    ensures openings { CrashesLeaveOpenings }
{}
