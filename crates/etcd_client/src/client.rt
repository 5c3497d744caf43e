//! The endpoints of etcd, asked in turn.
use crate::limits::limit_millis;
use crate::watch::Watch;
use etcd_login::{LOGIN_PATH, Login, is_token_over, login_body, read_token};
use etcd_turns::{Etcd, Reply};
use http_get::Cause;
use lists::Text;
use scrape_client::{Answer, Ask, LONGEST_BODY, Lookups, Method, ask_within};
use std::alloc::AllocGlobal;
use std::net::Net;
use std::random::RandomSource;
use std::sync::{Arc, Wait};
use std::thread;
use std::time::{Clock, Duration};

const JSON: (&str, &str) = ("content-type", "application/json");

/// The header that has the token of who logged in.
const AUTHORIZATION: &str = "authorization";

/// How long is waited before another endpoint is asked, in milliseconds.
const PAUSE: u64 = 20;

/// The status of what whoever asks may not do (RFC 9110, section 15.5.4), and how often in a row it is taken for a thing that passes.
const FORBIDDEN: u16 = 403;

const MOST_FORBIDDEN: u32 = 100;

/// How many times as long is waited for an answer at the most, where none came for long.
const MOST_TIMES: u64 = 8;

/// The endpoints of etcd, of which one is asked until it does not answer. Nobody else is to ask the look-ups meanwhile.
#[derive(Drop)]
pub struct EtcdClient<R> {
    rt: R,
    lookups: Arc<Lookups>,
    /// Each is `HOST:PORT`.
    endpoints: Vec<Text>,
    /// Which is asked next.
    at: usize,
    /// As whom they are asked, and the token for it, where one is known.
    login: Option<Login>,
    token: Option<Text>,
    watch: Arc<Watch>,
    /// How many requests were answered 200, and how many were not.
    pub answered: u64,
    pub missed: u64,
    /// How many were not since the last that was, and how many of the last in a row were forbidden.
    silent: usize,
    forbidden: u32,
}

impl<R> EtcdClient<R> {
    /// Asks these endpoints, as somebody where etcd wants to know who asks.
    pub fn new(
        rt: R,
        lookups: Arc<Lookups>,
        endpoints: Vec<Text>,
        login: Option<Login>,
        watch: Arc<Watch>,
    ) -> EtcdClient<R> {
        EtcdClient {
            rt,
            lookups,
            endpoints,
            at: 0,
            login,
            token: None,
            watch,
            answered: 0,
            missed: 0,
            silent: 0,
            forbidden: 0,
        }
    }

    /// How long is waited for the answer to a body of so many bytes. After each round of all endpoints without an answer it is longer: an answer may be long, and
    /// the way to it slow.
    fn limit(&self, bytes: usize) -> Duration {
        let rounds = self.silent.checked_div(self.endpoints.len()).unwrap_or(0);
        let times = (rounds as u64).saturating_add(1).min(MOST_TIMES);
        Duration::from_millis(limit_millis(bytes).saturating_mul(times))
    }
}

impl<R: Wait + Clock + Net + RandomSource + AllocGlobal> EtcdClient<R> {
    /// Asks with the token, where there is one.
    fn ask(&self, path: &str, body: &[u8]) -> Result<Answer, Cause> {
        match &self.token {
            Some(token) => {
                let headers = [JSON, (AUTHORIZATION, token.as_str())];
                self.ask_with(headers.as_slice(), path, body)
            }
            None => self.ask_with([JSON].as_slice(), path, body),
        }
    }

    fn ask_with(&self, headers: &[(&str, &str)], path: &str, body: &[u8]) -> Result<Answer, Cause> {
        match self.endpoints.get(self.at) {
            Some(endpoint) => {
                let ask = Ask {
                    method: Method::Post,
                    address: endpoint.as_str(),
                    path,
                    headers,
                    body,
                    longest: LONGEST_BODY,
                    limit: self.limit(body.len()),
                };
                ask_within(&self.rt, &self.lookups, &ask)
            }
            None => Err(Cause::NoAddress),
        }
    }

    /// Asks for a token, where one is wanted and none is known.
    fn log_in(&mut self) {
        if self.token.is_none() {
            self.token = self.new_token();
        }
    }

    /// A token, where there is somebody to log in as.
    fn new_token(&self) -> Option<Text> {
        match &self.login {
            Some(login) => self.token_for(login),
            None => None,
        }
    }

    fn token_for(&self, login: &Login) -> Option<Text> {
        let body = login_body(self.rt.alloc(), login).ok()?;
        let answer = self
            .ask_with([JSON].as_slice(), LOGIN_PATH, body.as_str().as_bytes())
            .ok()?;
        read_token(self.rt.alloc(), answer.status, answer.body.as_slice()).ok()?
    }

    /// The next endpoint is asked from now on.
    fn turn_away(&mut self) {
        self.missed = self.missed.saturating_add(1);
        self.silent = self.silent.saturating_add(1);
        let next = self.at.saturating_add(1);
        self.at = if next < self.endpoints.len() { next } else { 0 };
        thread::sleep(&self.rt, Duration::from_millis(PAUSE));
    }

    /// Who may not do what is asked for long does not lead: nothing of it is kept.
    fn note_forbidden(&mut self, status: u16) {
        if status != FORBIDDEN {
            self.forbidden = 0;
            return;
        }
        self.forbidden = self.forbidden.saturating_add(1);
        if self.forbidden >= MOST_FORBIDDEN {
            self.watch.refuse();
        }
    }

    fn came(&mut self, answer: Answer) -> Reply {
        self.note_forbidden(answer.status);
        if is_token_over(answer.status) {
            self.token = None;
        }
        if answer.status == 200 {
            self.answered = self.answered.saturating_add(1);
            self.silent = 0;
        } else {
            self.turn_away();
        }
        Reply {
            status: answer.status,
            body: answer.body,
        }
    }
}

impl<R: Wait + Clock + Net + RandomSource + AllocGlobal> Etcd for EtcdClient<R> {
    ghost may_post = { λ _ _ _ _ _. Unit {0} };

    fn post(&mut self, path: &str, body: &[u8]) -> Option<Reply> {
        self.log_in();
        match self.ask(path, body) {
            Ok(answer) => Some(self.came(answer)),
            Err(_) => {
                self.turn_away();
                None
            }
        }
    }

    fn may_lead(&self) -> bool {
        !self.watch.is_over()
    }
}
