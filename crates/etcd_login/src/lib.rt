//! How an instance logs in to an etcd with authentication, through its JSON gateway, without a socket.
#![tactic(auto)]

mod login;
mod token;

pub use login::{LOGIN_PATH, Login, login_body};
pub use token::{is_token_over, read_token};
