//! The reply to a line, and how it is printed.

ghost use Rattle.std.specs.Prelude.{◌≡◌, ◌+◌, ◌-◌, ◌<◌, ◌≤◌, ◌^◌, Some};
ghost use Rattle.replay.specs.Replies.{opening_reply, with_answer, reply_to, reply_text};

use std::fmt;
use world::{Effect, WorldFault};

/// The reply to a line; it is displayed as the line that is printed.
#[derive(Clone, Copy)]
pub struct Reply {
    /// The result of its last event, or of the first one that was refused.
    pub answer: Result<Effect, WorldFault>,
    /// How many of its events were done.
    pub done: usize,
    /// Whether the line had a count.
    pub counted: bool,
}

impl Reply {
    /// The reply for these results; those after a refusal don't count.
    pub(crate) fn to(counted: bool, answers: &[Result<Effect, WorldFault>]) -> Reply
        ensures { result ≡ reply_to counted answers.now }
    {
        let mut reply = Reply::opening(counted);
        let mut left = answers;
        while let [answer, others @ ..] = left {
            reply = reply.with(*answer);
            left = others;
        }
        reply
    }

    // Nothing is done.
    fn opening(counted: bool) -> Reply
        ensures { result ≡ opening_reply counted }
    {
        Reply {
            answer: Ok(Effect::Stepped),
            done: 0,
            counted,
        }
    }

    // Adds one more result.
    fn with(self, answer: Result<Effect, WorldFault>) -> Reply
        requires { self.done < 2 ^ 64 - 1 }
        ensures reply { result ≡ with_answer self answer }
        ensures few { result.done ≤ self.done + 1 }
    {
        if self.answer.is_err() {
            return self;
        }
        let done = match answer {
            Ok(_) => self.done + 1,
            Err(_) => self.done,
        };
        Reply {
            answer,
            done,
            counted: self.counted,
        }
    }
}

impl fmt::Display for Reply {
    ghost output = { λ reply. Some (reply_text reply) };

    fn fmt<W: fmt::Write>(&self, f: &mut fmt::Formatter<W>) -> fmt::Result {
        let done = self.done;
        match self.answer {
            Ok(Effect::Started) => write!(f, "started"),
            Ok(Effect::Stepped) => write!(f, "stepped {done}"),
            Ok(Effect::Ended { .. }) => write!(f, "stepped {done}"),
            Ok(
                Effect::Finished {
                    choice,
                    instructions,
                    ruleset,
                },
            ) => write!(f, "finished {choice} after {instructions} under {ruleset}"),
            Ok(Effect::Swapped { ruleset }) => write!(f, "swapped {ruleset}"),
            Err(fault) if self.counted => write!(f, "refused {fault} after {done}"),
            Err(fault) => write!(f, "refused {fault}"),
        }
    }
}
