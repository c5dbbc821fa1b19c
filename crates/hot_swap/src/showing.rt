//! Publishes the next ruleset in place of the last.

ghost use Rattle.std.specs.Prelude.{◌≡◌, ◌≤◌, [], ◌∷◌, ◌++◌, Some, IfOk, IfSome, MatchResult};
ghost use Rattle.std.specs.Arc.{arc_value};
ghost use Rattle.left_right.specs.Sides.{view};

use crate::known_prefix::KnownPrefix;
use crate::next::NextInstall;
use crate::published_ruleset::PublishedRuleset;
use crate::publisher_id::PublisherId;
use crate::seats::{OnePublisher, PublisherKnown};
use left_right::writer::Writer;
use ruleset::Ruleset;
use std::alloc::{AllocError, Global};
use std::sync::{Arc, Wait};

/// The writing half of `left_right`, which publishes rulesets to the readers.
pub(crate) type PublishedWriter = Writer<
    PublishedRuleset,
    NextInstall,
    Option<PublisherId>,
    OnePublisher,
>;

/// A writer that has published nothing yet, with places for 1 to 65 readers.
pub(crate) fn nothing_shown(
    alloc: Global,
    first: &Arc<Ruleset>,
    known: &KnownPrefix,
    readers: usize,
) -> Result<PublishedWriter, AllocError>
    requires { (1 ≤ readers) × (readers ≤ 65) }
    ensures { IfOk result (λ w. w.desk.shown.value.known.publisher ≡ known.now.publisher) }
{
    let one = PublishedRuleset::nothing(Arc::try_clone(first)?, known.copy());
    let two = PublishedRuleset::nothing(Arc::try_clone(first)?, known.copy());
    let writer = Writer::new(alloc, one, two, readers)?;
    Ok(writer)
}

/// Appends the next ruleset to the list and publishes it, and returns all that is then installed.
pub(crate) fn show<R: Wait>(
    writer: PublishedWriter,
    next: NextInstall,
    rt: &R,
) -> (PublishedWriter, Option<KnownPrefix>)
    requires one { writer.desk.shown.value.known.publisher ≡ next.known.publisher }
    ensures one { result.0.desk.shown.value.known.publisher ≡ next.known.publisher }
    ensures same_publisher { view writer.desk.place ≡ Some next.known.publisher
        → view result.0.desk.place ≡ Some next.known.publisher }
    ensures grown { IfSome result.1 (λ k. (view result.0.desk.place ≡ Some next.known.publisher)
        × (k.publisher ≡ next.known.publisher)
        × (k.rulesets ≡ next.known.rulesets ++ arc_value next.rules ∷ [])) }
{
    let known = next.known.copy();
    let (writer, done) = publish(writer, next, rt);
    match done {
        Ok(()) => {
            let grown = writer.published().list_up_to(known);
            (writer, grown)
        }
        Err(_) => (writer, None),
    }
}

// Publishes the next ruleset. If a failed install left an operation waiting, the same publish
// replaces that one's ruleset.
fn publish<R: Wait>(
    mut writer: PublishedWriter,
    next: NextInstall,
    rt: &R,
) -> (PublishedWriter, Result<(), AllocError>)
    requires one { writer.desk.shown.value.known.publisher ≡ next.known.publisher }
    ensures { MatchResult result.1
        (λ _. (view result.0.desk.place ≡ Some next.known.publisher)
        × (result.0.desk.shown.value.generation ≡ next.generation)
        × (arc_value result.0.desk.shown.value.rules ≡ arc_value next.rules)
        × (result.0.desk.shown.value.known.publisher ≡ next.known.publisher))
        (λ _. (view result.0.desk.place ≡ view writer.desk.place)
        × (result.0.desk.shown.value ≡ writer.desk.shown.value)) }
{
    let Ok(()) = writer.append(next) else {
        return (writer, Err(AllocError));
    };
    writer.publish_as::<PublisherKnown, R>(rt)
}
