//! A request over a connection of its own, as a future.
ghost use Rattle.std.specs.Prelude.{IfErr, IfOk, IfSome, OnErr};
ghost use Rattle.futures.specs.Task.{IsArmed, Keeps};
ghost use Rattle.futures.specs.Poll.{OnPending};

use crate::ask::{Answer, Ask, Method};
use crate::faults::{http_cause, hyper_cause, io_cause};
use bytes::Bytes;
use futures::Future;
use futures::task::{Context, Poll};
use http::Response;
use http::request::Builder;
use http::response::Parts;
use http_body_util::combinators::Collect;
use http_body_util::{BodyExt, Collected, Full, Limited, LimitedError};
use http_get::Cause;
use hyper::body::Incoming;
use hyper::client::conn::http1::{Connection, ResponseFuture, handshake};
use hyper::{Request, header};
use lists::List;
use std::alloc::{AllocError, AllocGlobal, Global};
use std::hash::RandomState;
use std::net::{Net, SocketAddr};
use std::random::RandomSource;
use tokio::net::{ConnectFuture, TcpStream};
use tokio::reactor::Handle;

/// How far an exchange is.
#[derive(Drop)]
enum Stage {
    Connecting(ConnectFuture, RandomState, Request<Full<Bytes>>),
    Asking(ResponseFuture<TcpStream>),
    /// The body is read of an answer with this head.
    Reading(Parts),
    Over,
}

/// One request over a new connection, from the connecting to the end of the body.
#[derive(Drop)]
pub(crate) struct Exchange {
    alloc: Global,
    stage: Stage,
    /// The connection, which is driven beside what is asked over it, until it ends.
    line: Option<Connection<TcpStream, Full<Bytes>>>,
    body: Option<Collect<Limited<Incoming<TcpStream>>>>,
    /// The most bytes of the body.
    longest: usize,
}

impl Exchange {
    /// Begins to connect.
    pub(crate) fn begin<R: Net + RandomSource + AllocGlobal>(
        rt: &R,
        reactor: &Handle,
        address: SocketAddr,
        ask: &Ask<'_>,
    ) -> Result<Exchange, Cause>
        ensures { IfOk result ⟦<Exchange as Future>⟧.can_poll }
    {
        let alloc = rt.alloc();
        let Ok(keys) = RandomState::new(rt) else {
            return Err(Cause::Broken);
        };
        let request = request_for(alloc, ask)?;
        let connect = TcpStream::connect(rt, address, reactor);
        Ok(Exchange {
            alloc,
            stage: Stage::Connecting(connect, keys, request),
            line: None,
            body: None,
            longest: ask.longest,
        })
    }

    fn poll_connecting(
        &mut self,
        connect: ConnectFuture,
        keys: RandomState,
        request: Request<Full<Bytes>>,
        cx: &mut Context<'_>,
    ) -> Poll<Result<Answer, Cause>>
        requires { ⟦<Exchange as Future>⟧.can_poll self.old }
        ensures again { OnPending result (⟦<Exchange as Future>⟧.can_poll self.new) }
        ensures armed { OnPending result (IsArmed cx.new) }
        ensures kept { Keeps cx.old cx.new }
    {
        let mut connect = connect;
        match connect.poll(cx) {
            Poll::Ready(Ok(socket)) => {
                drop(connect);
                self.ask(socket, keys, request, cx)
            }
            Poll::Ready(Err(e)) => {
                drop((connect, keys, request));
                Poll::Ready(Err(io_cause(&e)))
            }
            Poll::Pending => {
                self.go_on(Stage::Connecting(connect, keys, request));
                Poll::Pending
            }
        }
    }

    /// Goes on with this stage.
    fn go_on(&mut self, stage: Stage)
        requires { ⟦<Exchange as Future>⟧.can_poll self.old }
        ensures { ⟦<Exchange as Future>⟧.can_poll self.new }
    {
        drop(std::mem::replace(&mut self.stage, stage));
    }

    /// Drives this connection from now on.
    fn follow(&mut self, line: Connection<TcpStream, Full<Bytes>>)
        requires before { ⟦<Exchange as Future>⟧.can_poll self.old }
        requires line { ⟦<Connection<TcpStream, Full<Bytes>> as Future>⟧.can_poll line }
        ensures { ⟦<Exchange as Future>⟧.can_poll self.new }
    {
        drop(self.line.replace(line));
    }

    /// Asks over a connection that stands.
    fn ask(
        &mut self,
        socket: TcpStream,
        keys: RandomState,
        request: Request<Full<Bytes>>,
        cx: &mut Context<'_>,
    ) -> Poll<Result<Answer, Cause>>
        requires { ⟦<Exchange as Future>⟧.can_poll self.old }
        ensures again { OnPending result (⟦<Exchange as Future>⟧.can_poll self.new) }
        ensures armed { OnPending result (IsArmed cx.new) }
        ensures kept { Keeps cx.old cx.new }
    {
        match handshake(self.alloc, keys, socket) {
            Ok((mut sender, line)) => {
                let asked = sender.send_request(request);
                drop(sender);
                self.follow(line);
                self.go_on(Stage::Asking(asked));
                cx.yield_now()
            }
            Err(e) => {
                drop(request);
                Poll::Ready(Err(hyper_cause(&e)))
            }
        }
    }

    fn poll_asking(
        &mut self,
        asked: ResponseFuture<TcpStream>,
        cx: &mut Context<'_>,
    ) -> Poll<Result<Answer, Cause>>
        requires { ⟦<Exchange as Future>⟧.can_poll self.old }
        ensures again { OnPending result (⟦<Exchange as Future>⟧.can_poll self.new) }
        ensures armed { OnPending result (IsArmed cx.new) }
        ensures kept { Keeps cx.old cx.new }
    {
        let mut asked = asked;
        match asked.poll(cx) {
            Poll::Ready(Ok(response)) => {
                drop(asked);
                self.read(response);
                cx.yield_now()
            }
            Poll::Ready(Err(e)) => {
                drop(asked);
                Poll::Ready(Err(hyper_cause(&e)))
            }
            Poll::Pending => {
                self.go_on(Stage::Asking(asked));
                Poll::Pending
            }
        }
    }

    /// Begins to read the body of a response.
    fn read(&mut self, response: Response<Incoming<TcpStream>>)
        requires { ⟦<Exchange as Future>⟧.can_poll self.old }
        ensures { ⟦<Exchange as Future>⟧.can_poll self.new }
    {
        let (head, body) = response.into_parts();
        self.go_on(Stage::Reading(head));
        drop(
            self.body
                .replace(Limited::new(body, self.longest).collect(self.alloc)),
        );
    }

    fn poll_reading(&mut self, head: Parts, cx: &mut Context<'_>) -> Poll<Result<Answer, Cause>>
        requires { ⟦<Exchange as Future>⟧.can_poll self.old }
        ensures again { OnPending result (⟦<Exchange as Future>⟧.can_poll self.new) }
        ensures armed { OnPending result (IsArmed cx.new) }
        ensures kept { Keeps cx.old cx.new }
    {
        let Some(body) = self.body.take() else {
            drop(head);
            return Poll::Ready(Err(Cause::Broken));
        };
        match polled(body, cx) {
            Ok(Ok(all)) => Poll::Ready(answer_of(self.alloc, head, all)),
            Ok(Err(error)) => {
                drop(head);
                Poll::Ready(Err(body_cause(&error)))
            }
            Err(body) => {
                self.go_on(Stage::Reading(head));
                drop(self.body.replace(body));
                Poll::Pending
            }
        }
    }

    /// Drives the connection as far as it goes at once.
    fn drive(&mut self, cx: &mut Context<'_>)
        requires { ⟦<Exchange as Future>⟧.can_poll self.old }
        ensures again { ⟦<Exchange as Future>⟧.can_poll self.new }
        ensures kept { Keeps cx.old cx.new }
    {
        if let Some(line) = self.line.take() {
            match polled(line, cx) {
                Ok(ended) => drop(ended),
                Err(line) => self.follow(line),
            }
        }
    }
}

impl Future for Exchange {
    ghost use Rattle.std.specs.Prelude.{IfSome, IsSome};

    type Output = Result<Answer, Cause>;

    ghost can_poll = { λ e. IfSome e.line ⟦<Connection<TcpStream, Full<Bytes>> as Future>⟧.can_poll × IfSome e.body (λ c. IsSome c.collected) };

    fn poll(&mut self, cx: &mut Context<'_>) -> Poll<Result<Answer, Cause>> {
        self.drive(cx);
        match std::mem::replace(&mut self.stage, Stage::Over) {
            Stage::Connecting(connect, keys, request) => {
                self.poll_connecting(connect, keys, request, cx)
            }
            Stage::Asking(asked) => self.poll_asking(asked, cx),
            Stage::Reading(head) => self.poll_reading(head, cx),
            Stage::Over => Poll::Ready(Err(Cause::Broken)),
        }
    }
}

/// Why a body is not read to its end.
fn body_cause(error: &LimitedError<hyper::Error>) -> Cause {
    match error {
        LimitedError::LengthLimit => Cause::TooLong,
        LimitedError::Body(e) => hyper_cause(e),
    }
}

/// What a future gives, or the future, where it gives nothing yet.
fn polled<F: Future>(future: F, cx: &mut Context<'_>) -> Result<F::Output, F>
    requires { F.can_poll future }
    ensures again { IfErr result F.can_poll }
    ensures armed { OnErr result (IsArmed cx.new) }
    ensures kept { Keeps cx.old cx.new }
{
    let mut future = future;
    match future.poll(cx) {
        Poll::Ready(output) => Ok(output),
        Poll::Pending => Err(future),
    }
}

fn request_for(alloc: Global, ask: &Ask<'_>) -> Result<Request<Full<Bytes>>, Cause> {
    let body = match Bytes::copy_from_slice(alloc, ask.body) {
        Ok(body) => body,
        Err(AllocError) => return Err(Cause::Memory),
    };
    head_for(alloc, ask)
        .body(Full::new(body))
        .map_err(|e| http_cause(&e))
}

fn head_for(alloc: Global, ask: &Ask<'_>) -> Builder {
    let builder = match ask.method {
        Method::Get => Request::get(alloc, ask.path),
        Method::Post => Request::post(alloc, ask.path),
    };
    let mut builder = builder.header(header::HOST, ask.address);
    for (name, value) in ask.headers {
        builder = builder.header(*name, *value);
    }
    builder
}

/// The answer, where its body is not encoded.
fn answer_of(alloc: Global, head: Parts, all: Collected) -> Result<Answer, Cause> {
    if is_encoded(&head) {
        drop((head, all));
        return Err(Cause::Encoded);
    }
    match copied(alloc, all) {
        Ok(body) => {
            let Parts {
                status,
                headers,
                ..
            } = head;
            Ok(Answer {
                status: status.as_u16(),
                headers,
                body,
            })
        }
        Err(AllocError) => {
            drop(head);
            Err(Cause::Memory)
        }
    }
}

fn is_encoded(head: &Parts) -> bool {
    match head.headers.get(header::CONTENT_ENCODING) {
        Some(coding) => !coding.as_bytes().eq_ignore_ascii_case(b"identity"),
        None => false,
    }
}

fn copied(alloc: Global, all: Collected) -> Result<List<u8>, AllocError> {
    let bytes = all.to_bytes()?;
    Ok(List::from_vec(bytes.as_slice().to_vec(alloc)?))
}
