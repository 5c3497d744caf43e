//! The names of members.

/// Of the document.
pub(crate) static DOCUMENT: [&str; 8] = [
    "name",
    "allocator",
    "prometheus",
    "listen",
    "state",
    "lease",
    "tokens",
    "join",
];

/// Of `tokens`.
pub(crate) static TOKENS: [&str; 3] = ["allocator", "admin", "prometheus"];

/// Of `join`.
pub(crate) static JOIN: [&str; 2] = ["reach", "limits"];
