//! What a server served, by the lines of its log so far: the digest of each generation's manifest,
//! and the halted apps. Nothing is promised of it; rows compare it.

use report::{number_in, text_in};
use serde_json::Value;
use std::alloc::{AllocError, Global};
use std::mem;

/// A generation, as far as the log has it.
#[derive(Drop)]
pub(crate) struct LoggedGeneration {
    number: Option<u64>,
    /// The digest of its manifest, in hexadecimal digits.
    digest: Option<String>,
    /// The appids of the apps that an operator halted, without those that were resumed.
    halted: Vec<String>,
}

impl LoggedGeneration {
    // Nothing is known of it.
    fn unknown(alloc: Global) -> LoggedGeneration {
        LoggedGeneration {
            number: None,
            digest: None,
            halted: Vec::new(alloc),
        }
    }

    /// The digest of its manifest, in hexadecimal digits.
    pub(crate) fn digest(&self) -> Option<&str> {
        match &self.digest {
            Some(digest) => Some(digest.as_str()),
            None => None,
        }
    }

    /// Whether an operator halted this app.
    pub(crate) fn has_halted(&self, appid: &str) -> bool {
        for app in &self.halted {
            if app.as_str() == appid {
                return true;
            }
        }
        false
    }
}

/// The newest generation of a log so far, and the one before, whose requests may still end.
#[derive(Drop)]
pub(crate) struct ServedGenerations {
    newest: LoggedGeneration,
    before: LoggedGeneration,
}

impl ServedGenerations {
    /// Before the first line.
    pub(crate) fn new(alloc: Global) -> ServedGenerations {
        ServedGenerations {
            newest: LoggedGeneration::unknown(alloc),
            before: LoggedGeneration::unknown(alloc),
        }
    }

    /// Notes a line, if it is about a generation.
    pub(crate) fn note(&mut self, alloc: Global, line: &Value) -> Result<(), AllocError> {
        let Some(kind) = text_in(line, "kind") else {
            return Ok(());
        };
        match kind {
            "start" => self.start(alloc, line),
            "serving" => {
                self.newest.number = number_in(line, "generation");
                Ok(())
            }
            "load" => self.load(alloc, line),
            "halt" => self.halt(alloc, line),
            _ => Ok(()),
        }
    }

    /// A copy of what the log so far has of a generation.
    pub(crate) fn copy_of(
        &self,
        alloc: Global,
        number: Option<u64>,
    ) -> Result<LoggedGeneration, AllocError> {
        if number.is_some() && self.newest.number == number {
            return copied(alloc, &self.newest);
        }
        if number.is_some() && self.before.number == number {
            return copied(alloc, &self.before);
        }
        Ok(LoggedGeneration::unknown(alloc))
    }

    // A generation begins.
    fn begin(&mut self, next: LoggedGeneration) {
        self.before = mem::replace(&mut self.newest, next);
    }

    // A start, whose generation the line `serving` has.
    fn start(&mut self, alloc: Global, line: &Value) -> Result<(), AllocError> {
        if text_in(line, "refusal").is_some() {
            return Ok(());
        }
        let digest = owned(alloc, text_in(line, "digest"))?;
        self.begin(LoggedGeneration {
            number: None,
            digest,
            halted: Vec::new(alloc),
        });
        Ok(())
    }

    // A load, which keeps the halts. A refused one has no generation.
    fn load(&mut self, alloc: Global, line: &Value) -> Result<(), AllocError> {
        let number = number_in(line, "generation");
        if number.is_none() {
            return Ok(());
        }
        let halted = others(alloc, &self.newest.halted, None)?;
        let digest = owned(alloc, text_in(line, "digest"))?;
        self.begin(LoggedGeneration {
            number,
            digest,
            halted,
        });
        Ok(())
    }

    // A halt or the end of one, which keeps the manifest. If nothing changed, neither did the
    // generation.
    fn halt(&mut self, alloc: Global, line: &Value) -> Result<(), AllocError> {
        let number = number_in(line, "generation");
        if number.is_none() || number == self.newest.number {
            return Ok(());
        }
        let Some(app) = text_in(line, "app") else {
            return Ok(());
        };
        let mut halted = others(alloc, &self.newest.halted, Some(app))?;
        if is_text(text_in(line, "word"), "halt") {
            let app = String::from_str(alloc, app)?;
            halted.push(app)?;
        }
        let digest = owned(alloc, self.newest.digest())?;
        self.begin(LoggedGeneration {
            number,
            digest,
            halted,
        });
        Ok(())
    }
}

fn copied(alloc: Global, generation: &LoggedGeneration) -> Result<LoggedGeneration, AllocError> {
    let halted = others(alloc, &generation.halted, None)?;
    let digest = owned(alloc, generation.digest())?;
    Ok(LoggedGeneration {
        number: generation.number,
        digest,
        halted,
    })
}

// Copies of these appids, except for one.
fn others(
    alloc: Global,
    apps: &Vec<String>,
    except: Option<&str>,
) -> Result<Vec<String>, AllocError> {
    let mut copies = Vec::with_capacity(alloc, apps.len())?;
    for app in apps {
        if !is_text(except, app.as_str()) {
            let copy = String::from_str(alloc, app.as_str())?;
            copies.push(copy)?;
        }
    }
    Ok(copies)
}

fn is_text(text: Option<&str>, other: &str) -> bool {
    match text {
        Some(text) => text == other,
        None => false,
    }
}

fn owned(alloc: Global, text: Option<&str>) -> Result<Option<String>, AllocError> {
    match text {
        Some(text) => Ok(Some(String::from_str(alloc, text)?)),
        None => Ok(None),
    }
}
