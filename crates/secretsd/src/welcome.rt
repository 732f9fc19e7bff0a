//! What a server says once it can be asked.
use crate::opening::Opening;
use sm_command_line::Settings;
use std::net::TcpListener;

/// What a server says once it can be asked: where it listens, where the secrets are, how many workers there are, and
/// what was opened.
#[derive(Drop)]
pub struct Welcome<'a> {
    pub settings: &'a Settings,
    pub opening: &'a Opening<'a>,
}

impl<'a> Welcome<'a> {
    /// Says it. With the port 0 the system chose one.
    pub fn say(&self, rt: &HostRuntime, listener: &TcpListener) {
        let connections = self.settings.connections;
        let workers = self.settings.workers;
        let _ = match (listener.local_addr(), &self.settings.folder) {
            (Ok(address), Some(folder)) => {
                let folder = folder.as_str();
                let secrets = self.opening.secrets();
                let entries = self.opening.entries();
                let bytes = self.opening.bytes();
                let limit = self.opening.limit();
                eprintln!(rt;
                    "secretsd: listening on {address}, data in {folder}, {connections} connections, {workers} rotation \
                     workers, {secrets} secrets and {entries} entries in {bytes} of {limit} journal bytes"
                )
            }
            (Ok(address), None) => eprintln!(rt;
                "secretsd: listening on {address}, data in memory, {connections} connections, {workers} rotation \
                 workers"
            ),
            (Err(error), _) => eprintln!(rt;
                "secretsd: listening, but at no address that is known: {error}"
            ),
        };
    }
}
