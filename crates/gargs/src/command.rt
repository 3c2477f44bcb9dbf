//! The commands of a command line.

use gcmd::{Ends, PackLimit};
use gtcp::Location;

/// A command with its parameters.
#[derive(Debug, Drop)]
pub enum Gitv2Command {
    /// `check FILE`: checks a repository.
    Check {
        /// The name of the file that contains the repository.
        file: String,
    },
    /// `fetch (--stdio or --tcp ADDR --path PATH) [--limit N] [--response-end] FILE SPEC...`:
    /// fetches from a server.
    Fetch(Fetch),
    /// `lines`: shows the packets of standard input as text.
    Lines,
    /// `ls --stdio-server FILE`: serves one request.
    LsStdioServer {
        /// The name of the file that contains the server's repository.
        file: String,
    },
    /// `ls --tcp ADDR --path PATH [PREFIX]...`: lists the refs of a server.
    LsTcp {
        /// The location of the server.
        place: Location,
        /// The prefixes of the refs to list. An empty list lists all refs.
        prefixes: Vec<String>,
    },
    /// `pair SERVERFILE CLIENTFILE SPEC...`: fetches from a server in the same process.
    Pair {
        /// The name of the file that contains the server's repository.
        server: String,
        /// The name of the file that contains the client's repository.
        client: String,
        /// The refspecs. The list has at least one refspec.
        specs: Vec<String>,
    },
    /// `serve --listen ADDR --path PATH --connections N [--response-end] FILE`: serves connections.
    Serve(Serve),
    /// `simulate SERVERFILE CLIENTFILE SCENARIOFILE`: runs a scenario.
    Simulate(Simulate),
    /// `upload [--response-end] FILE`: serves one connection.
    Upload {
        /// Whether each reply ends with a response-end packet.
        ends: Ends,
        /// The name of the file that contains the server's repository.
        file: String,
    },
}

/// The parameters of a fetch.
#[derive(Debug, Drop)]
pub struct Fetch {
    /// The location of the server, or `None` for standard input and standard output.
    pub place: Option<Location>,
    /// The maximum size of a pack in bytes.
    pub limit: PackLimit,
    /// Whether each reply ends with a response-end packet.
    pub ends: Ends,
    /// The name of the file that contains the client's repository. The fetch replaces this file.
    pub file: String,
    /// The refspecs, which are not parsed yet. The list has at least one refspec.
    pub specs: Vec<String>,
}

/// The parameters of a server.
#[derive(Debug, Drop)]
pub struct Serve {
    /// The address at which connections are accepted, and the path that clients must name.
    pub place: Location,
    /// The number of connections to serve, from 1 to 1,000,000.
    pub connections: u32,
    /// Whether each reply ends with a response-end packet.
    pub ends: Ends,
    /// The name of the file that contains the served repository.
    pub file: String,
}

/// The names of the files of a simulation.
#[derive(Debug, Drop)]
pub struct Simulate {
    /// The name of the file that contains the server's repository.
    pub server: String,
    /// The name of the file that contains the client's repository.
    pub client: String,
    /// The name of the file that lists the events.
    pub scenario: String,
}
