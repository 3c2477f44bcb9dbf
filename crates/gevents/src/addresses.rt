//! The number of peers in each network: at one IPv4 address, or at the IPv6 addresses with the same
//! first 64 bits.

ghost use Rattle.std.specs.Prelude.{◌<◌, IfSome, vec_len};

use std::alloc::{AllocError, Allocator};
use std::net::{IpAddr, Ipv6Addr};

/// The number of peers in each network. A look-up is a linear search in the networks.
#[derive(Drop)]
pub(crate) struct Addresses<A: Allocator + Copy> {
    // The first IP address of each network that has a peer, with the number of its peers. No network
    // occurs twice.
    counts: Vec<(IpAddr, usize), A>,
}

impl<A: Allocator + Copy> Addresses<A> {
    /// Returns an empty table, without allocating.
    pub(crate) fn new(alloc: A) -> Addresses<A> {
        Addresses {
            counts: Vec::new(alloc),
        }
    }

    /// Returns the number of peers in the network of this IP address.
    pub(crate) fn count(&self, ip: IpAddr) -> usize {
        match self.position(ip) {
            Some(at) => self.counts[at].1,
            None => 0,
        }
    }

    /// Increments the number of peers in the network of this IP address. Fails only if there is not
    /// enough memory, and then leaves the number unchanged.
    pub(crate) fn add(&mut self, ip: IpAddr) -> Result<(), AllocError> {
        match self.position(ip) {
            Some(at) => {
                let count = self.counts[at].1;
                self.counts[at].1 = count.saturating_add(1);
                Ok(())
            }
            None => match self.counts.push((network_of(ip), 1)) {
                Ok(()) => Ok(()),
                Err(_) => Err(AllocError),
            },
        }
    }

    /// Decrements the number of peers in the network of this IP address.
    pub(crate) fn remove(&mut self, ip: IpAddr) {
        let Some(at) = self.position(ip) else {
            return;
        };
        let count = self.counts[at].1;
        if count > 1 {
            self.counts[at].1 = count - 1;
        } else {
            let _ = self.counts.swap_remove(at);
        }
    }

    // Returns the position of the network of this IP address in the table, or `None` if there is no
    // peer in the network.
    fn position(&self, ip: IpAddr) -> Option<usize>
        ensures { IfSome result (λ at. at < vec_len self.now.counts) }
    {
        let network = network_of(ip);
        for at in 0..self.counts.len() {
            if self.counts[at].0 == network {
                return Some(at);
            }
        }
        None
    }
}

// Returns the first IP address of the network of this IP address. The network of an IPv4 address is
// the address alone, also if the address is written as an IPv6 address.
fn network_of(ip: IpAddr) -> IpAddr {
    match ip {
        IpAddr::V6(six) if six.to_ipv4_mapped().is_none() => {
            let words = six.segments();
            IpAddr::V6(Ipv6Addr::new(words[0], words[1], words[2], words[3], 0, 0, 0, 0))
        }
        other => other,
    }
}
