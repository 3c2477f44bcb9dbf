//! The sockets of a launched program.

use crate::journal::Journal;
use crate::launch_runtime::{LaunchRuntime, unsupported};
use crate::peers::Peers;
use std::io;
use std::io::ErrorKind;
use std::net::{
    IpAddr, Ipv4Addr, Net, OpenListener, SocketAddr, TcpListener, TcpStream, UdpSocket,
};
use std::os::fd::{AsRawFd, OwnedFd, RawFd};
use std::os::unix;
use std::time::Duration;

// A host name that resolves to two addresses.
const TWO_ADDRESSES: &str = "two";

// Returns the first address to which `TWO_ADDRESSES` resolves. No server listens at this address.
fn unused_address() -> IpAddr {
    IpAddr::V4(Ipv4Addr::new(127, 0, 0, 2))
}

/// The program's listener. The listener accepts clients that have already connected, and does not
/// wait for further clients.
#[derive(Drop)]
pub(crate) struct Listener<'a> {
    listener: TcpListener,
    journal: &'a Journal<'a>,
    peers: &'a Peers<'a>,
}

impl AsRawFd for Listener<'_> {
    fn as_raw_fd(&self) -> RawFd {
        self.listener.as_raw_fd()
    }
}

impl OpenListener for Listener<'_> {
    type Stream = TcpStream;

    fn accept(&self) -> io::Result<(TcpStream, SocketAddr)> {
        self.journal.record("accept")?;
        if self.peers.take_waiting_connection() {
            self.listener.accept()
        } else {
            Err(io::Error::from(ErrorKind::WouldBlock))
        }
    }

    fn local_addr(&self) -> io::Result<SocketAddr> {
        self.listener.local_addr()
    }
}

impl<'a, R> Net for LaunchRuntime<'a, R>
where
    R: Net<Stream = TcpStream, Listener = TcpListener>,
{
    type Stream = TcpStream;

    type Listener = Listener<'a>;

    fn bind(&self, addr: SocketAddr) -> io::Result<Listener<'a>> {
        self.journal.record("bind")?;
        let listener = TcpListener::bind(self.rt, addr)?;
        self.peers.record_port(&listener);
        Ok(Listener {
            listener,
            journal: self.journal,
            peers: self.peers,
        })
    }

    fn connect(&self, addr: SocketAddr) -> io::Result<TcpStream> {
        self.journal.record("connect")?;
        self.peers.connect(self.rt, addr)
    }

    fn connect_timeout(&self, addr: SocketAddr, timeout: Duration) -> io::Result<TcpStream> {
        let seconds = timeout.as_secs();
        let step = format!(in self.alloc; "connect within {seconds}")?;
        self.journal.record(step.as_str())?;
        if addr.ip() == unused_address() {
            return Err(io::Error::from(ErrorKind::ConnectionRefused));
        }
        self.peers.connect(self.rt, addr)
    }

    // Every host name resolves to the local host. `TWO_ADDRESSES` resolves to two addresses: first
    // `unused_address`, and then the local host.
    fn lookup_host(
        &self,
        host: &str,
        port: u16,
        addresses: &mut [SocketAddr],
    ) -> io::Result<usize> {
        let local_address = SocketAddr::from((Ipv4Addr::LOCALHOST, port));
        match addresses {
            [first, second, ..] if host == TWO_ADDRESSES => {
                *first = SocketAddr::new(unused_address(), port);
                *second = local_address;
                Ok(2)
            }
            [first, ..] => {
                *first = local_address;
                Ok(1)
            }
            [] => Ok(0),
        }
    }

    fn bind_udp(&self, _addr: SocketAddr) -> io::Result<UdpSocket> {
        Err(unsupported())
    }

    fn connect_unix(&self, _addr: &unix::net::SocketAddr) -> io::Result<unix::net::UnixStream> {
        Err(unsupported())
    }

    fn unix_pair(&self) -> io::Result<(unix::net::UnixStream, unix::net::UnixStream)> {
        Err(unsupported())
    }

    fn unix_socket(&self) -> io::Result<OwnedFd> {
        Err(unsupported())
    }
}
