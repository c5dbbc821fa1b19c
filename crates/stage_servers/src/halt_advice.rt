//! What to call if files lift halts that no load ends: the load is refused, left out, or not seen.

// No contract says what is printed: rows compare it.

use printing::TextBuffer;

// Adds the commands that end the halts of these apps at a server.
fn push_ends(text: &mut TextBuffer, appids: &[String]) {
    let mut mark = "rollout resume ";
    for appid in appids {
        text.push_printed(mark, appid.as_str(), "");
        mark = ", and rollout resume ";
    }
}

/// Adds the ports of the servers of which no reply says that they loaded the manifest, if there are
/// any, each after a space; and what to do, if the files lift the halts of these apps.
pub(crate) fn push_refused(text: &mut TextBuffer, ports: &str, manifest: &str, appids: &[String]) {
    if ports.is_empty() {
        return;
    }
    text.push("stage: not loaded at");
    text.push(ports);
    let advice = "; the files are in place: mend that, and then call rollout load ";
    text.push_printed(advice, manifest, "\n");
    if !appids.is_empty() {
        text.push("stage: once that is loaded, call ");
        push_ends(text, appids);
        text.push("\n");
    }
}

/// Adds that no server is loaded, and what to do, if the files lift the halts of these apps.
pub(crate) fn push_unloaded(text: &mut TextBuffer, appids: &[String]) {
    if !appids.is_empty() {
        text.push("stage: no server is loaded: once one is, call ");
        push_ends(text, appids);
        text.push("\n");
    }
}

/// Adds that nobody knows whether these apps are offered now, and what to do.
pub(crate) fn push_unread(text: &mut TextBuffer, appids: &[String]) {
    text.push("what is in place can't be read: mend that, load it, and then call ");
    push_ends(text, appids);
}
