//! What `simulate` evaluates, and how its output looks.

/// A manifest, and what is printed of its simulation.
#[derive(Clone, Copy)]
pub struct SimulationOptions<'a> {
    pub manifest: &'a str,
    /// The manifest that is served at present, with which it is compared.
    pub against: Option<&'a str>,
    /// The only app in the output; all apps without it.
    pub appid: Option<&'a str>,
    /// The file for a picture.
    pub picture: Option<&'a str>,
    /// Whether the output is the line of JSON of `shares_json` or `moves_json`, and not tables.
    pub json: bool,
}
