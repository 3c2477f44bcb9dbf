//! A repository on a server.

use crate::fault::Fault;
use crate::sentences::Sentence;
use gclient::FetchFault;
use ghello::Hello;
use gitrepository::Tips;
use gitwords::{DEFAULT_PORT, GitUrl};
use glsreply::LsReply;
use gname::Prefix;
use gtcp::{connect_to, ls_on};
use std::alloc::{AllocError, Global};
use std::net::Net;

/// A repository on a server.
#[derive(Drop)]
pub(crate) struct Remote {
    /// The URL of the repository.
    pub(crate) url: String,
    /// The first line of a connection to the repository.
    pub(crate) hello: Hello<Global>,
    // The address of the server, HOST:PORT.
    address: String,
}

impl Remote {
    /// Returns the repository that a URL names.
    pub(crate) fn new(alloc: Global, url: &GitUrl<'_>) -> Result<Remote, Fault> {
        let text = url_text(alloc, url)?;
        let address = url.address(alloc)?;
        match Hello::new(alloc, url.path.as_bytes(), url.host.as_bytes()) {
            Ok(hello) => Ok(Remote {
                url: text,
                hello,
                address,
            }),
            Err(_) => Err(Fault::of(alloc, Sentence::Address { url: text.as_str() })),
        }
    }

    /// Connects to the server.
    pub(crate) fn connect<N: Net>(&self, net: &N, alloc: Global) -> Result<N::Stream, Fault> {
        match connect_to(net, self.address.as_str()) {
            Ok(stream) => Ok(stream),
            Err(error) => Err(Fault::of_call(alloc, "connect to", self.url.as_str(), &error)),
        }
    }

    /// Returns the refs whose names begin with one of these prefixes, or all refs if there are no
    /// prefixes. The server may also list other refs.
    pub(crate) fn list<N: Net>(
        &self,
        net: &N,
        alloc: Global,
        prefixes: &[Prefix<Global>],
    ) -> Result<LsReply<Global>, Fault> {
        let stream = self.connect(net, alloc)?;
        match ls_on(
            alloc,
            stream,
            self.hello.host(),
            self.hello.path(),
            prefixes,
        ) {
            Ok(reply) => Ok(reply),
            Err(fault) => Err(self.fault(alloc, &fault)),
        }
    }

    /// Returns the fault for a failed conversation with the server.
    pub(crate) fn fault(&self, alloc: Global, fault: &FetchFault<Global>) -> Fault {
        Fault::of(
            alloc,
            Sentence::Fetch {
                url: self.url.as_str(),
                fault,
            },
        )
    }
}

// Returns the text of a URL. The text omits the port if it is the default port.
fn url_text(alloc: Global, url: &GitUrl<'_>) -> Result<String, AllocError> {
    let GitUrl { host, port, path } = url;
    if *port == DEFAULT_PORT {
        format!(in alloc; "git://{host}{path}")
    } else {
        format!(in alloc; "git://{host}:{port}{path}")
    }
}

/// Returns the ids of the refs in a reply to ls-refs, and the peeled ids of its tags.
pub(crate) fn tips_of(alloc: Global, reply: &LsReply<Global>) -> Result<Tips<Global>, AllocError> {
    let mut ids = Vec::new(alloc);
    for index in 0..reply.len() {
        if let Some(line) = reply.at(index) {
            ids.push(line.id)?;
            if let Some(peeled) = line.peeled {
                ids.push(peeled)?;
            }
        }
    }
    Tips::new(alloc, ids.as_slice())
}
