//! The facts of one app of a request, which the request, the attributes of the app's run and the
//! log own together. So none of the app's texts is copied.

ghost use Rattle.std.specs.Prelude.{◌≡◌, IfOk};

use crate::facts::AppFacts;
use std::alloc::{AllocError, Global};
use std::marker::Model;
use std::sync::Arc;

/// One owner's handle to the facts of an app.
pub struct SharedFacts {
    facts: Arc<AppFacts>,
}

// Not derived: a crate that drops one would prove the drop of each of its parts anew.
impl Drop for SharedFacts {
    fn drop(self) {
        let Self { facts: _facts } = self;
    }
}

impl Model for SharedFacts {
    ghost use Rattle.attrs.specs.declared.facts.AppFacts.{AppFacts};

    ghost Value = { AppFacts };

    ghost view = { λ s. s.facts.value };
}

impl SharedFacts {
    /// These facts, with one allocation.
    pub fn new(alloc: Global, facts: AppFacts) -> Result<SharedFacts, AllocError>
        ensures { IfOk result (λ s. s ≡ facts) }
    {
        match Arc::new(alloc, facts) {
            Ok(facts) => Ok(SharedFacts { facts }),
            Err(_) => Err(AllocError),
        }
    }

    /// Another owner of the same facts. It allocates nothing, and fails only if there can't be
    /// another owner.
    pub fn share(&self) -> Result<SharedFacts, AllocError>
        ensures { IfOk result (λ s. s ≡ self.now) }
    {
        match Arc::try_clone(&self.facts) {
            Ok(facts) => Ok(SharedFacts { facts }),
            Err(_) => Err(AllocError),
        }
    }

    /// The facts.
    pub fn facts(&self) -> &AppFacts
        ensures { result.now ≡ self.now }
    {
        &self.facts
    }

    /// The app's id.
    pub fn appid(&self) -> &str
        ensures { result.now ≡ self.now.appid }
    {
        self.facts.appid.as_str()
    }
}
