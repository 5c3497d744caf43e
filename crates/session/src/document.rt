//! The document of a session.
ghost use Rattle.std.specs.Prelude.{◌≡◌, ◌≤◌, IfOk, codes, option_map};
ghost use Rattle.std.specs.Result.{result_ok};
ghost use Rattle.serde_json.specs.Data.{depth};
ghost use Rattle.serde_json.specs.Read.{max_depth};
ghost use Rattle.serde_json.specs.View.{view};
ghost use Rattle.json_values.specs.Spelling.{member_in};
ghost use Rattle.sd_documents.specs.Config.{config_data, config_read};
ghost use Rattle.session.specs.Documents.{Gives, config_in as config_said, config_of as config_of_data, few_rounds, session_data, session_in as session_said, session_read};

use crate::error::SessionError;
use crate::joining::joins_in;
use crate::pages::{Page, pages_in};
use fleet_events::Event;
use json_values::{member, number, parse, text_of};
use lists::{List, Text};
use sd_documents::{Config, SdError, read_config};
use serde_json::Value;
use std::alloc::{AllocError, Global};

/// The most rounds of a session.
pub const MOST_ROUNDS: u32 = 1_000;

/// What a session has.
#[derive(Drop)]
pub struct Session {
    pub config: Config,
    /// Each collector's Join, in order.
    pub joins: List<Event>,
    /// How many rounds there are. At most `MOST_ROUNDS`.
    pub rounds: u32,
    /// What is served beside, in order.
    pub pages: List<Page>,
    /// The paths that the allocator is asked for after the rounds.
    pub asks: List<Text>,
}

/// Reads the document of a session: an object with the members `config`, `collectors`, `rounds`, `serve` and `ask`. A configuration
/// that is refused is no session.
pub fn read_session(alloc: Global, bytes: &[u8]) -> Result<Session, SessionError>
    ensures { Gives session_data result (session_read bytes.now) }
{
    let Some(document) = parse(alloc, bytes)? else {
        return Err(SessionError::NotJson);
    };
    session_in(alloc, &document)?.ok_or(SessionError::Shape)
}

/// What the value of the document says.
#[tactic(auto, unfolding(crate::specs::Documents::session_in))]
fn session_in(alloc: Global, document: &Value) -> Result<Option<Session>, AllocError>
    requires { depth (view document.now) ≤ max_depth }
    ensures { IfOk result (λ o. option_map session_data o ≡ session_said (view document.now)) }
{
    let Some(config) = config_in(alloc, document)? else {
        return Ok(None);
    };
    let Some(joins) = joins_in(alloc, document)? else {
        return Ok(None);
    };
    let Some(rounds) = rounds_in(document) else {
        return Ok(None);
    };
    let Some(pages) = pages_in(alloc, document)? else {
        return Ok(None);
    };
    let Some(asks) = member(alloc, document, "ask")? else {
        return Ok(None);
    };
    Ok(Some(Session {
        config,
        joins,
        rounds,
        pages,
        asks,
    }))
}

/// The configuration, if there is one that is read without a fault.
fn config_in(alloc: Global, document: &Value) -> Result<Option<Config>, AllocError>
    requires { depth (view document.now) ≤ max_depth }
    ensures { IfOk result (λ o. option_map config_data o ≡ config_said (view document.now)) }
{
    match document.get("config") {
        Some(config) => config_of(alloc, config),
        None => Ok(None),
    }
}

/// The configuration that a value says. Its text is read, since configurations are read from texts.
fn config_of(alloc: Global, config: &Value) -> Result<Option<Config>, AllocError>
    requires { depth (view config.now) ≤ max_depth }
    ensures { IfOk result (λ o. option_map config_data o ≡ config_of_data (view config.now)) }
{
    let text = text_of(alloc, config)?;
    config_from(alloc, text.as_str().as_bytes())
}

fn config_from(alloc: Global, text: &[u8]) -> Result<Option<Config>, AllocError>
    ensures { IfOk result (λ o. option_map config_data o ≡ result_ok (config_read text.now)) }
{
    match read_config(alloc, text) {
        Ok(config) => Ok(Some(config)),
        Err(SdError::Memory) => Err(AllocError),
        Err(_) => Ok(None),
    }
}

/// How many rounds there are.
fn rounds_in(document: &Value) -> Option<u32>
    ensures { result ≡ member_in few_rounds (codes "rounds") (view document.now) }
{
    let rounds = number(document.get("rounds")?)?;
    if rounds <= MOST_ROUNDS {
        Some(rounds)
    } else {
        None
    }
}
