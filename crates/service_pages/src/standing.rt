//! How a service stands beside its desk.

/// How a service stands beside its desk.
#[derive(Clone, Copy, Debug)]
pub struct Standing {
    /// The program's version. Empty where nobody told it.
    pub version: &'static str,
    /// When the process began, in seconds since 1970. 0 where nobody knows.
    pub started: u64,
    /// What time it is, in seconds since 1970. 0 where nobody knows.
    pub time: u64,
    /// Whether the configuration that was read last is the one that is followed.
    pub is_followed: bool,
    /// When the configuration was read that is followed, in seconds since 1970. 0 where nobody knows.
    pub followed_since: u64,
    /// Whether there is a journal.
    pub has_journal: bool,
    /// Whether what is submitted cannot be kept any more.
    pub is_broken: bool,
    /// Whether the device that keeps it does not come back.
    pub is_hanging: bool,
    /// How many connections are served, and how many may be at once. 0 where nobody counts them.
    pub connections: u64,
    pub most_connections: u64,
    /// For how many there was no place.
    pub turned_away: u64,
    /// How often sources were asked, and how often in vain.
    pub refreshes: u64,
    pub failed_refreshes: u64,
    /// How many searches there were for an allocation.
    pub reallocations: u64,
}

impl Standing {
    ghost use Rattle.std.specs.Prelude.{◌≡◌};
    ghost use Rattle.service_pages.specs.Counted.{is_full};

    /// Whether there is no place for another connection.
    pub(crate) fn is_full(&self) -> bool
        ensures { result ≡ is_full self.now }
    {
        self.most_connections > 0 && self.connections >= self.most_connections
    }

    /// How many seconds ago a moment is, where both are known.
    pub(crate) fn seconds_since(&self, moment: u64) -> Option<u64> {
        if moment == 0 || self.time < moment {
            return None;
        }
        Some(self.time - moment)
    }
}
