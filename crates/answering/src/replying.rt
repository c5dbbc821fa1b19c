//! Makes the reply to a request: each of its apps is looked up and run, under one ruleset. Once all
//! have run, what they did to the counters has to be stored.

ghost use Rattle.std.specs.Prelude.{IfOk};
ghost use Rattle.cells.specs.Grown.{Grows};
ghost use Rattle.hot_swap.specs.Published.{Extends};
ghost use Rattle.answering.specs.Answer.{RepliesToRequest, Sends};
ghost use Rattle.answering.specs.Reply.{settled_reply};

use crate::apps::run_apps;
use crate::covered_text::CoveredText;
use crate::observer::RequestObserver;
use crate::rejection::Rejection;
use crate::turn::Turn;
use cells::CellSteps;
use cover::Cover;
use hot_swap::Watcher;
use omaha_json::{OmahaFault, Request, found_text};
use ruleset::Ruleset;

/// Writes the text of the reply to a request into the buffer `text` and returns it, or returns the
/// refusal. The ruleset is looked up once. The observer is passed the result of each app, unless
/// the reply is withheld.
pub fn reply_to<C: CellSteps, K: Cover<C>, W: RequestObserver>(
    turn: &Turn<'_, C>,
    cover: &K,
    text: Vec<u8>,
    request: &Request,
    pass: &mut C::Pass,
    watcher: &mut Watcher,
    observer: &mut W,
) -> Result<CoveredText<K::Receipt>, Rejection>
    requires { C.belongs turn.now.cells.now pass.old }
    ensures belongs { C.belongs turn.now.cells.now pass.new }
    ensures watched { Extends watcher.old watcher.new }
    ensures covered { IfOk result (λ reply. K.covers cover.now reply.receipt pass.old pass.new) }
    ensures replies { Grows C.grew pass.old pass.new (λ events. Sends (K.withholds cover.now)
        (RepliesToRequest request.now watcher.new turn.now.moment.now) events
        (settled_reply result)) }
{
    let Ok(current) = watcher.current() else {
        return Err(Rejection::no_place());
    };
    let rules: &Ruleset = &current.1;
    let mark = cover.begin(pass);
    let Ok(found) = run_apps(turn, request, rules, pass) else {
        return Err(Rejection::of_omaha(OmahaFault::Memory));
    };
    let Some(receipt) = cover.settle(turn.cells, pass, mark) else {
        return Err(Rejection::uncovered());
    };
    let answers = found.as_slice();
    observer.observe(current.0, request, answers);
    match found_text(text, rules.server(), request.apps(), answers, turn.moment) {
        Ok(text) => Ok(CoveredText { text, receipt }),
        Err(_) => Err(Rejection::of_omaha(OmahaFault::Memory)),
    }
}
