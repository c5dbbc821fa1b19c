//! What `stage` does with the folder of a server's files.

/// What a call of `stage` does. Some actions are steps, which are recorded.
#[derive(Clone, Copy)]
pub enum StageAction<'a> {
    /// Replaces the app's rule or program by one that offers no release.
    Halt {
        appid: &'a str,
    },
    /// Takes the statements that offer a version out of the app's rule.
    HaltRelease {
        appid: &'a str,
        version: &'a str,
    },
    /// Changes the number of buckets in the app's rule, to 0 to 10000.
    Raise {
        appid: &'a str,
        buckets: u32,
    },
    /// Puts what the app had before its halt in place again; if a number is given, 0 to 10000, its
    /// rule then has this number of buckets.
    Resume {
        appid: &'a str,
        buckets: Option<u32>,
    },
    /// Undoes the last step that isn't undone.
    Back,
    /// Puts the manifest at a path, and the files that it names, in place.
    Put {
        manifest: &'a str,
    },
    /// Prints what each app offers, the last steps, and what the servers serve.
    Status,
    /// Prints all steps, or those of one app.
    History {
        appid: Option<&'a str>,
    },
}
