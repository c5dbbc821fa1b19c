//! One request of an update server, from its bytes to the bytes of its reply.
//!
//! A request is read and its body is checked. The newest ruleset is looked up once. For each app
//! that requests an update and is in the ruleset, the app's program is run to its end, one app
//! after the other. Then the reply is written, if what the runs did to the server's counters is
//! stored as far as it has to be. A bad request is refused by a line of text. What a run did to the
//! counters stays, even if an allocation fails before the reply is made.
//!
//! `answer`, and `answer_in`, which it calls, have one contract, the definition `Answers`. It says
//! that what was written is the reply to what was read, or a prefix of it. One relation, with a
//! constructor for each outcome, defines that reply under the watcher's ruleset, and the events
//! that the runs made. The pass, a ghost token, grew by these events.
//!
//! See docs/SPECIFICATION.md, "Requests"; docs/SPECIFICATION.md, "The front".
#![tactic(auto)]

mod answer_buffers;
mod answering;
mod apps;
mod chosen;
mod covered_text;
mod observer;
mod reading;
mod rejection;
mod replying;
mod sent;
mod settling;
mod turn;

pub use answer_buffers::AnswerBuffers;
pub use answering::{AnswerFault, answer};
pub use apps::run_apps;
pub use chosen::reply_text;
pub use observer::{NoObserver, RequestObserver};
pub use sent::Sent;
pub use settling::answer_in;
pub use turn::Turn;
