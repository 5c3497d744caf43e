//! What is posted.
ghost use Rattle.std.specs.Prelude.{◌≡◌, IfOk};
ghost use Rattle.serde_json.specs.View.{view};
ghost use Rattle.serde_json.specs.Written.{compact_text};
ghost use Rattle.etcd_login.specs.Logins.{login_data};

use json_values::text_of;
use lists::{Plain, Text};
use serde_json::{Value, json};
use std::alloc::{AllocError, Global};

/// Where who logs in gets a token.
pub const LOGIN_PATH: &str = "/v3/auth/authenticate";

/// As whom etcd is asked.
#[derive(Drop)]
pub struct Login {
    pub name: Text,
    pub password: Text,
}

impl Login {
    /// A copy.
    pub fn copy(&self) -> Result<Login, AllocError>
        ensures { IfOk result (λ l. l ≡ self.now) }
    {
        let name = self.name.copy()?;
        let password = self.password.copy()?;
        Ok(Login { name, password })
    }
}

/// Asks for a token.
pub fn login_body(alloc: Global, login: &Login) -> Result<Text, AllocError>
    ensures { IfOk result (λ t. t ≡ compact_text (login_data login.now.name login.now.password)) }
{
    let value = login_value(alloc, login.name.as_str(), login.password.as_str())?;
    text_of(alloc, &value)
}

fn login_value(alloc: Global, name: &str, password: &str) -> Result<Value, AllocError>
    ensures { IfOk result (λ v. view v ≡ login_data name.now password.now) }
{
    json!(in alloc; {"name": name, "password": password})
}
