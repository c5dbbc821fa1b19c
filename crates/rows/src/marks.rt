//! Marks: the first words of lines, which say what the lines do.

/// What a line does, by its mark.
#[derive(Clone, Copy)]
pub(crate) enum Mark {
    /// `--`: writes a file, whose text is the lines below.
    File,
    /// `+`: writes a file with this text.
    Text,
    /// `copies`: appends to the last file.
    Copies,
    /// `%`: a command that prepares.
    Prepare,
    /// `$`: a command.
    Command,
    /// `link`: makes a symbolic link.
    Link,
    /// `<`: the text of a file.
    Show,
    /// `send`: what comes back for the bytes of a file.
    Send,
    /// `narrow`: a command whose standard output takes only ten bytes.
    Narrow,
    /// `no-memory`: the refusals if memory for words is refused.
    NoMemory,
    /// `background`: a command that runs in the background.
    Background,
    /// `slowly`: sends the end of a request late, in the background.
    Slowly,
    /// `give`: the next client of a port gets the bytes of a file, in the background.
    Give,
    /// `wait`: waits for the end of what was last begun in the background.
    Wait,
}

impl Mark {
    /// Whether it begins something that a later line waits for.
    pub(crate) fn begins(self) -> bool {
        matches!(self, Mark::Background | Mark::Slowly | Mark::Give)
    }
}

/// The first word of a text, up to a space, and the text after that.
pub(crate) fn first_word(text: &str) -> (&str, &str) {
    text.split_once(' ').unwrap_or((text, ""))
}

/// The mark that a line's first word is, if it is one that begins a step.
pub(crate) fn mark_of(word: &str) -> Option<Mark> {
    match word {
        "--" => Some(Mark::File),
        "+" => Some(Mark::Text),
        "copies" => Some(Mark::Copies),
        "%" => Some(Mark::Prepare),
        "$" => Some(Mark::Command),
        "link" => Some(Mark::Link),
        "<" => Some(Mark::Show),
        "send" => Some(Mark::Send),
        "narrow" => Some(Mark::Narrow),
        "no-memory" => Some(Mark::NoMemory),
        "background" => Some(Mark::Background),
        "slowly" => Some(Mark::Slowly),
        "give" => Some(Mark::Give),
        "wait" => Some(Mark::Wait),
        _ => None,
    }
}
