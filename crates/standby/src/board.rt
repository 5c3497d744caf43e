//! What is known while an instance stands by.
use etcd_terms::Looked;
use etcd_turns::Sight;
use lists::Text;

/// What is known while an instance stands by.
#[derive(Drop)]
pub(crate) struct Board {
    /// The URL at which who leads is reached.
    pub(crate) leader: Option<Text>,
    /// Whether all was read once.
    pub(crate) has_read_all: bool,
    /// How many blocks the last look found that were not read before.
    pub(crate) behind: u64,
    /// How many blocks of the epoch that goes on were read.
    pub(crate) blocks: u64,
    /// How many looks had an answer, and how many had none.
    pub(crate) looks: u64,
    pub(crate) missed: u64,
    /// Whether the last one had none.
    pub(crate) is_silent: bool,
    /// How many leases were not granted, and whether one was not since somebody led.
    pub(crate) refused: u64,
    pub(crate) is_refused: bool,
}

impl Board {
    /// Nothing is known yet.
    pub(crate) fn new() -> Board {
        Board {
            leader: None,
            has_read_all: false,
            behind: 0,
            blocks: 0,
            looks: 0,
            missed: 0,
            is_silent: false,
            refused: 0,
            is_refused: false,
        }
    }

    /// A look had an answer: who leads is reached there, so many blocks were read by then, and so many of them were not before.
    pub(crate) fn see(&mut self, sight: &Sight, leader: Option<Text>, blocks: u64, found: u64) {
        self.looks = self.looks.saturating_add(1);
        self.is_silent = false;
        self.leader = leader;
        self.blocks = blocks;
        self.behind = if sight.looked == Looked::More {
            found
        } else {
            0
        };
        if sight.looked == Looked::Whole {
            self.has_read_all = true;
        }
        if sight.leader.is_some() {
            self.is_refused = false;
        }
    }
}
