//! Accepts connections and runs what serves each of them, all on the calling thread.
ghost use Rattle.std.specs.Prelude.{IfOk};
ghost use Rattle.futures.specs.Task.{Keeps};

use crate::gate::Gate;
use futures::executor::TaskSet;
use futures::task::{Context, Poll};
use futures::{Future, ready};
use std::alloc::AllocGlobal;
use std::io;
use std::net::SocketAddr;
use std::random::RandomSource;
use std::sync::Wait;
use std::time::{Clock, Duration};
use tokio::io::{AsyncRead, AsyncWrite};
use tokio::net::{TcpListener, TcpStream};
use tokio::runtime::LocalRuntime;
use tokio::sync::{OwnedNotified, OwnedSemaphorePermit};
use tokio::time::{Handle, Sleep};

/// How long no connection is taken where there is no place for one, or one could not be taken.
const PAUSE_MILLIS: u64 = 5;

/// So often a place is looked for, after a pause each, before a connection is turned away.
const MOST_TRIES: u32 = 50;

/// And so often an idle connection is ended for it.
const TRIES_A_PLACE: u32 = 10;

/// How much of what a connection has sent is read before it is turned away.
const HEAD_BYTES: usize = 4_096;

/// What a connection is told for which there is no place.
const BUSY: &[u8] =
    b"HTTP/1.1 503 Service Unavailable\r\ncontent-type: application/json\r\ncontent-length: 18\r\nretry-after: 1\r\nconnection: close\r\n\r\n{\"refused\":\"Busy\"}";

/// Makes what serves a connection.
pub trait Serving {
    type Conn: Future<Output = ()>;

    /// What serves a connection from this address. Its place is given back when that is dropped.
    fn serve(
        &self,
        socket: TcpStream,
        from: SocketAddr,
        place: OwnedSemaphorePermit,
    ) -> io::Result<Self::Conn>
        ensures { IfOk result Self.Conn.can_poll };

    /// A connection could not be taken, or nothing could be made that serves it.
    fn fail(&self);

    /// A place is wanted: an idle connection of this loop is to end.
    fn make_room(&self);

    /// A connection was turned away, since no place became free.
    fn turn_away(&self);

    /// The connections of this loop are to end.
    fn end(&self);
}

/// Lets connections in until the gate is stopped.
#[derive(Drop)]
struct Door<'a, R, M: Serving> {
    clock: R,
    time: Handle,
    listener: TcpListener,
    tasks: &'a TaskSet<M::Conn>,
    serving: &'a M,
    gate: &'a Gate,
    told: OwnedNotified,
    newcomer: Option<Newcomer>,
    pause: Option<Sleep>,
}

/// A connection for which there was no place yet.
#[derive(Drop)]
struct Newcomer {
    socket: TcpStream,
    from: SocketAddr,
    /// How often one was looked for.
    tries: u32,
}

impl<R: Clock, M: Serving> Door<'_, R, M> {
    fn let_in(&self, socket: TcpStream, from: SocketAddr, place: OwnedSemaphorePermit) {
        match self.serving.serve(socket, from, place) {
            Ok(conn) => self.spawn(conn),
            Err(_) => self.serving.fail(),
        }
    }

    fn spawn(&self, conn: M::Conn)
        requires { M.Conn.can_poll conn }
    {
        if self.tasks.spawn(conn).is_err() {
            self.serving.fail();
        }
    }

    /// Takes nothing for a while.
    fn rest(&mut self) {
        self.pause = self
            .time
            .sleep(&self.clock, Duration::from_millis(PAUSE_MILLIS))
            .ok();
    }

    /// Lets a connection in where there is a place for it. Else an idle one ends for it, and after some tries it is turned away.
    fn admit(&mut self, cx: &mut Context<'_>, newcomer: Newcomer)
        ensures { Keeps cx.old cx.new }
    {
        match self.gate.place() {
            Some(place) => self.let_in(newcomer.socket, newcomer.from, place),
            None if newcomer.tries >= MOST_TRIES => {
                turn_away(cx, newcomer.socket);
                self.serving.turn_away();
            }
            None => self.hold(newcomer),
        }
    }

    /// Looks for a place again after a pause.
    fn hold(&mut self, newcomer: Newcomer) {
        if newcomer.tries.is_multiple_of(TRIES_A_PLACE) {
            self.serving.make_room();
        }
        self.newcomer = Some(Newcomer {
            socket: newcomer.socket,
            from: newcomer.from,
            tries: newcomer.tries.saturating_add(1),
        });
        self.rest();
    }
}

/// Tells a connection that there is no place for it, as far as that goes at once.
fn turn_away(cx: &mut Context<'_>, socket: TcpStream)
    ensures { Keeps cx.old cx.new }
{
    let mut socket = socket;
    let mut head = [0u8; HEAD_BYTES];
    let _ = socket.poll_read(cx, &mut head);
    let _ = socket.poll_write(cx, BUSY);
    let _ = socket.poll_shutdown(cx);
}

impl<R: Clock + Drop, M: Serving> Future for Door<'_, R, M> {
    type Output = ();

    fn poll(&mut self, cx: &mut Context<'_>) -> Poll<()> {
        if self.told.poll(cx).is_ready() || self.gate.is_stopped() {
            self.serving.end();
            return Poll::Ready(());
        }
        if let Some(pause) = &mut self.pause {
            let _ = ready!(pause.poll(cx));
            self.pause = None;
        }
        if let Some(newcomer) = self.newcomer.take() {
            self.admit(cx, newcomer);
            return cx.yield_now();
        }
        match self.listener.poll_accept(cx) {
            Poll::Pending => return Poll::Pending,
            Poll::Ready(Ok((socket, from))) => {
                let tries = 0;
                self.admit(
                    cx,
                    Newcomer {
                        socket,
                        from,
                        tries,
                    },
                );
            }
            Poll::Ready(Err(_)) => {
                self.serving.fail();
                self.rest();
            }
        }
        cx.yield_now()
    }
}

/// Serves connections on this thread, any number at once, until the gate is stopped and each connection has ended.
pub fn serve_all<R, M: Serving>(
    rt: &R,
    runtime: &mut LocalRuntime,
    listener: TcpListener,
    serving: &M,
    gate: &Gate,
) -> io::Result<()>
where
    R: Wait + Clock + RandomSource + AllocGlobal + Copy + Drop,
{
    let longest = gate.times().request.saturating_add(gate.times().linger);
    runtime.set_shutdown_timeout(Some(Duration::from_millis(longest)));
    let tasks = runtime.task_set(rt)?;
    let door = Door {
        clock: *rt,
        time: runtime.handle().time().clone()?,
        listener,
        tasks: &tasks,
        serving,
        gate,
        told: gate.told()?,
        newcomer: None,
        pause: None,
    };
    runtime.block_on_with(rt, &tasks, door)
}
