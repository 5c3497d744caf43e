//! What a service, and an event loop of it, take of the machine.
use std::alloc::AllocGlobal;
use std::net::{Net, TcpListener, TcpStream};
use std::random::RandomSource;
use std::sync::Wait;
use std::thread::Threads;
use std::time::Clock;

/// What a service takes of the machine that it runs on: threads that wait for one another, clocks, sockets, chance and memory.
pub trait Runtime: Wait
    + Threads
    + Clock
    + Net<Listener = TcpListener, Stream = TcpStream>
    + RandomSource
    + AllocGlobal
    + Sync
    + Send
    + Copy
    + Drop {}

impl<R> Runtime for R
where
    R: Wait
        + Threads
        + Clock
        + Net<Listener = TcpListener, Stream = TcpStream>
        + RandomSource
        + AllocGlobal
        + Sync
        + Send
        + Copy
        + Drop,
{}

/// What an event loop takes of the machine that it runs on: to wait, clocks, sockets, chance and memory.
pub trait LoopRuntime: Wait
    + Clock
    + Net<Listener = TcpListener, Stream = TcpStream>
    + RandomSource
    + AllocGlobal
    + Copy
    + Drop {}

impl<R> LoopRuntime for R
where
    R: Wait
        + Clock
        + Net<Listener = TcpListener, Stream = TcpStream>
        + RandomSource
        + AllocGlobal
        + Copy
        + Drop,
{}
