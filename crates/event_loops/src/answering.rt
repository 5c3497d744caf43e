//! What makes that which answers the requests of connections.
ghost use Rattle.std.specs.Prelude.{IfOk};

use crate::json_refusals::JsonRefusals;
use crate::socket::Socket;
use bytes::Bytes;
use http_body_util::Full;
use hyper::body::Incoming;
use hyper::rt::TokioTimer;
use hyper::service::Service;
use hyper::{Request, Response};
use std::alloc::AllocError;
use std::io;
use std::net::SocketAddr;
use tokio::net::TcpStream;
use tokio::time::Handle;

/// What a connection reads from and writes to.
pub type Wire<R> = Socket<JsonRefusals<TcpStream>, TokioTimer<R>>;

/// Makes what answers the requests of connections, and is told of connections that are not served.
pub trait Answering<R> {
    /// What a loop has for its connections.
    type OfLoop: Drop;

    /// What answers the requests of a connection.
    type Service: Service<
        Request<Incoming<Wire<R>>>,
        Response = Response<Full<Bytes>>,
        Error = AllocError,
    >;

    /// What a loop with these timers has for its connections.
    fn of_loop(&self, time: &Handle) -> io::Result<Self::OfLoop>;

    /// What answers the requests of a connection from this address.
    fn service(&self, of_loop: &Self::OfLoop, from: SocketAddr) -> Result<Self::Service, AllocError>
        ensures { IfOk result Self.Service.can_call };

    /// A loop found no memory to begin, a connection could not be taken, or nothing could be made that serves it.
    fn fail(&self);

    /// A connection was turned away, since no place became free.
    fn turn_away(&self);
}
