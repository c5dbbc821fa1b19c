//! What is known of what a server serves, compared with what is in place.

use crate::load_notes::LoadNote;

/// What is in place: the lines by which a server would show its apps, if a load wouldn't refuse it;
/// and the digest of the manifest and its files.
#[derive(Drop)]
pub(crate) struct InPlace {
    pub(crate) shown: Option<String>,
    pub(crate) digest: String,
}

/// What a server serves: what is in place, other apps, or other rules or programs for these apps.
/// If its last load has another generation than the noted one, only its apps are known; a restarted
/// server may have the same one again.
#[derive(Clone, Copy)]
pub(crate) enum Served {
    InPlace,
    OtherApps,
    OtherFiles,
    SameApps,
}

impl Served {
    /// What a server serves, by the generation and the apps that it shows, and the note of its last
    /// load by `stage`.
    pub(crate) fn of(
        in_place: &InPlace,
        generation: &str,
        shown: &str,
        note: Option<LoadNote<'_>>,
    ) -> Served {
        match in_place.shown.as_deref() {
            Some(apps) if apps == shown => {}
            _ => return Served::OtherApps,
        }
        match note {
            Some(note) if note.generation != generation => Served::SameApps,
            Some(note) if note.digest == in_place.digest.as_str() => Served::InPlace,
            Some(_) => Served::OtherFiles,
            None => Served::SameApps,
        }
    }

    /// Whether it is what is in place, if that is known.
    pub(crate) fn is_in_place(self) -> Option<bool> {
        match self {
            Served::InPlace => Some(true),
            Served::OtherApps | Served::OtherFiles => Some(false),
            Served::SameApps => None,
        }
    }

    /// What a status says of it.
    pub(crate) fn words(self) -> &'static str {
        match self {
            Served::InPlace => "what is in place unless restarted since",
            Served::OtherApps => "other apps than those in place: load it",
            Served::OtherFiles => "not what is in place: load it",
            Served::SameApps => {
                "the apps in place; only its log shows which rules it loaded (--log LOG)"
            }
        }
    }
}

/// Whether two things are both so, if that is known.
pub(crate) fn are_both(one: Option<bool>, other: Option<bool>) -> Option<bool> {
    match (one, other) {
        (Some(true), other) => other,
        (Some(false), _) | (_, Some(false)) => Some(false),
        _ => None,
    }
}
