//! The paths of etcd's gateway to which bodies are posted.

/// Where a lease is granted.
pub const GRANT_PATH: &str = "/v3/lease/grant";

/// Where a lease is kept alive.
pub const KEEP_PATH: &str = "/v3/lease/keepalive";

/// Where a lease is given up.
pub const REVOKE_PATH: &str = "/v3/lease/revoke";

/// Where a key is read.
pub const GET_PATH: &str = "/v3/kv/range";

/// Where all other requests are posted.
pub const TRANSACTION_PATH: &str = "/v3/kv/txn";
