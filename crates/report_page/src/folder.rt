//! What a folder of `stage` has, as a page shows it.

/// What a folder of `stage` has: what its apps are offered, and the steps so far.
pub struct FolderFacts {
    pub apps: Vec<OfferedApp>,
    /// The last steps, the newest first.
    pub steps: Vec<TakenStep>,
    /// How many steps were taken before these.
    pub earlier_steps: u64,
    pub digests: FolderDigests,
    /// What of the folder couldn't be read: sentences without a full stop.
    pub unread: Vec<String>,
}

impl Drop for FolderFacts {
    fn drop(self) {
        let Self {
            apps: _apps,
            steps: _steps,
            earlier_steps: _earlier_steps,
            digests: _digests,
            unread: _unread,
        } = self;
    }
}

/// The digests of what a folder has and had, by which loads are explained, in hexadecimal digits.
pub struct FolderDigests {
    /// That of what is in place, if it can be read.
    pub in_place: Option<String>,
    /// Those of what the last steps found and left.
    pub left: Vec<String>,
    /// When the first of these steps was taken, in seconds since 1970. Only loads from then on are
    /// judged; none, if it isn't known.
    pub since: Option<u64>,
}

impl Drop for FolderDigests {
    fn drop(self) {
        let Self {
            in_place: _in_place,
            left: _left,
            since: _since,
        } = self;
    }
}

/// What an app's rule offers.
pub struct OfferedApp {
    pub appid: String,
    /// The statements of its rule in words, in their order.
    pub statements: Vec<String>,
    pub quotas: Vec<OfferedQuota>,
}

impl Drop for OfferedApp {
    fn drop(self) {
        let Self {
            appid: _appid,
            statements: _statements,
            quotas: _quotas,
        } = self;
    }
}

/// How often a rule may grant something at most. The count so far is the counter of this index.
pub struct OfferedQuota {
    pub array: String,
    pub index: u64,
    pub limit: u64,
}

impl Drop for OfferedQuota {
    fn drop(self) {
        let Self {
            array: _array,
            index: _index,
            limit: _limit,
        } = self;
    }
}

/// A step that was taken in a folder, by its record. A text that isn't known is empty.
pub struct TakenStep {
    pub number: u64,
    /// When it was taken, in UTC by RFC 3339.
    pub time: String,
    /// What it did, in words.
    pub action: String,
    /// The app whose rule it changed; empty if it put another manifest in place.
    pub appid: String,
    /// What it did to it, in few words, such as `raise to 5 %`.
    pub label: String,
    pub who: String,
    pub why: String,
    /// `done`, `undone` or `stopped`.
    pub state: String,
}

impl Drop for TakenStep {
    fn drop(self) {
        let Self {
            number: _number,
            time: _time,
            action: _action,
            appid: _appid,
            label: _label,
            who: _who,
            why: _why,
            state: _state,
        } = self;
    }
}
