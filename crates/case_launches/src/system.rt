//! The parts of the runtime that a launch uses.

use std::net::{Net, TcpListener, TcpStream};
use std::rt::{Clock, Env, Files};

/// A runtime with an environment, files, a clock and sockets.
pub trait System: AllocGlobal
    + Clock
    + Env
    + Files
    + Print
    + Net<Stream = TcpStream, Listener = TcpListener> {}

impl<R> System for R
where
    R: AllocGlobal + Clock + Env + Files + Print + Net<Stream = TcpStream, Listener = TcpListener>,
{}
