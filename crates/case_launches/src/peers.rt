//! The peers of the program's connections.

use std::alloc::Global;
use std::cell::{Cell, RefCell};
use std::io;
use std::io::{ErrorKind, Read, Write};
use std::net::{Net, Shutdown, SocketAddr, TcpListener, TcpStream};

/// The bytes that a peer sends, and the bytes that the peer must receive.
#[derive(Drop)]
pub struct Exchange {
    pub sent_bytes: Vec<u8>,
    pub expected_bytes: Vec<u8>,
}

impl Exchange {
    pub(crate) fn new(alloc: Global) -> Exchange {
        Exchange {
            sent_bytes: Vec::new(alloc),
            expected_bytes: Vec::new(alloc),
        }
    }
}

/// The peers of a launch. Each peer sends all its bytes as soon as it is connected.
#[derive(Drop)]
pub(crate) struct Peers<'a> {
    exchanges: &'a [Exchange],
    streams: RefCell<Vec<TcpStream>>,
    // The port at which the program listens, or 0 if the program does not listen.
    port: Cell<u16>,
    // The number of connections that the program has not yet accepted.
    waiting_connections: Cell<usize>,
}

impl<'a> Peers<'a> {
    pub(crate) fn new(alloc: Global, exchanges: &'a [Exchange]) -> Peers<'a> {
        Peers {
            exchanges,
            streams: RefCell::new(Vec::new(alloc)),
            port: Cell::new(0),
            waiting_connections: Cell::new(0),
        }
    }

    /// Returns the port at which the program listens, or 0 if the program does not listen.
    pub(crate) fn program_port(&self) -> u16 {
        self.port.get()
    }

    /// Records the port of the program's listener.
    pub(crate) fn record_port(&self, listener: &TcpListener) {
        if let Ok(address) = listener.local_addr() {
            self.port.set(address.port());
        }
    }

    /// Connects all clients to this port.
    pub(crate) fn connect_clients<R: Net<Stream = TcpStream>>(
        &self,
        rt: &R,
        port: u16,
    ) -> io::Result<()> {
        for exchange in self.exchanges {
            let stream = TcpStream::connect(rt, ("127.0.0.1", port))?;
            self.count_waiting_connection();
            self.send_and_store(stream, exchange)?;
        }
        Ok(())
    }

    /// Returns the program's stream for a connection to the address. The stream is connected to the
    /// program itself if the program listens at that address. Otherwise the stream is connected to
    /// the next simulated server.
    pub(crate) fn connect<R>(&self, rt: &R, address: SocketAddr) -> io::Result<TcpStream>
    where
        R: Net<Stream = TcpStream, Listener = TcpListener>,
    {
        if address.port() == self.program_port() {
            let stream = TcpStream::connect(rt, address)?;
            self.count_waiting_connection();
            return Ok(stream);
        }
        let Some(exchange) = self.exchanges.get(self.connected_count()) else {
            return Err(io::Error::from(ErrorKind::ConnectionRefused));
        };
        let listener = TcpListener::bind(rt, "127.0.0.1:0")?;
        self.connect_to(rt, &listener, exchange)
    }

    // Connects to the listener, sends the peer's bytes, and returns the program's stream.
    fn connect_to<R: Net<Stream = TcpStream>>(
        &self,
        rt: &R,
        listener: &TcpListener,
        exchange: &Exchange,
    ) -> io::Result<TcpStream> {
        let program_stream = TcpStream::connect(rt, listener.local_addr()?)?;
        self.accept_peer(listener, exchange)?;
        Ok(program_stream)
    }

    fn accept_peer(&self, listener: &TcpListener, exchange: &Exchange) -> io::Result<()> {
        let (peer_stream, _) = listener.accept()?;
        self.send_and_store(peer_stream, exchange)
    }

    fn count_waiting_connection(&self) {
        self.waiting_connections
            .set(self.waiting_connections.get().saturating_add(1));
    }

    /// Returns whether a connection is waiting to be accepted. If so, counts that connection as
    /// accepted.
    pub(crate) fn take_waiting_connection(&self) -> bool {
        let waiting_connections = self.waiting_connections.get();
        self.waiting_connections
            .set(waiting_connections.saturating_sub(1));
        waiting_connections > 0
    }

    fn connected_count(&self) -> usize {
        match self.streams.try_borrow() {
            Ok(streams) => streams.len(),
            Err(_) => 0,
        }
    }

    // Sends the bytes of a peer, shuts down writing, and stores the stream.
    fn send_and_store(&self, stream: TcpStream, exchange: &Exchange) -> io::Result<()> {
        let mut stream = stream;
        send(&mut stream, exchange.sent_bytes.as_slice())?;
        match self.streams.try_borrow_mut() {
            Ok(mut streams) => streams.push(stream).map_err(io::Error::from),
            Err(_) => Err(io::Error::from(ErrorKind::Other)),
        }
    }

    /// Returns whether every peer was connected and received its expected bytes. If a connection
    /// was reset, its peer may have received only a prefix of these bytes.
    pub(crate) fn have_received_expected(&self, alloc: Global) -> bool {
        match self.streams.try_borrow_mut() {
            Ok(mut streams) => have_received(alloc, streams.as_mut_slice(), self.exchanges),
            Err(_) => false,
        }
    }
}

// Writes all bytes, and shuts down writing.
fn send(stream: &mut TcpStream, bytes: &[u8]) -> io::Result<()> {
    stream.write_all(bytes)?;
    stream.shutdown(Shutdown::Write)
}

fn have_received(alloc: Global, streams: &mut [TcpStream], exchanges: &[Exchange]) -> bool {
    let mut is_right = streams.len() == exchanges.len();
    for (stream, exchange) in streams.iter_mut().zip(exchanges) {
        is_right = is_right && has_received(alloc, stream, exchange.expected_bytes.as_slice());
    }
    is_right
}

fn has_received(alloc: Global, stream: &mut TcpStream, expected: &[u8]) -> bool {
    let mut bytes = Vec::new(alloc);
    match stream.read_to_end(&mut bytes) {
        Ok(_) => bytes.as_slice() == expected,
        Err(_) => expected.starts_with(bytes.as_slice()),
    }
}
