//! The server that a caching reader asks. Each question that it fails is said.
ghost use Rattle.std.specs.Prelude.{None};
ghost use Rattle.sm_agent.specs.Link.{link_faults};

use crate::peer::PeerNet;
use crate::peer_outcome::LastOutcome;
use crate::reports::{Kind, Reports};
use sm_agent::{LinkUpstream, Question, Upped, Upstream};
use sm_base::{Copied, NoMemory, Text};
use std::fmt::Display;
use std::sync::Arc;
use std::time::{Clock, Duration};

/// How many seconds a question may take in all.
const SECONDS: u64 = 20;

/// A server behind an address that says each question to which it gave no answer, and what it did in place of that. No
/// secret is named in such a line.
#[derive(Drop)]
pub struct SaidUpstream<'a> {
    rt: &'a HostRuntime,
    reports: &'a Reports<'a>,
    address: &'a Text,
    last_outcome: Arc<LastOutcome>,
    link: LinkUpstream<PeerNet<'a>>,
}

impl<'a> SaidUpstream<'a> {
    /// The server at a host and port, by a system's network and clock. It has not failed yet.
    pub fn new(
        rt: &'a HostRuntime,
        reports: &'a Reports<'a>,
        address: &'a Text,
    ) -> Result<SaidUpstream<'a>, NoMemory> {
        let alloc = rt.alloc();
        let last_outcome = Arc::new(alloc, LastOutcome::none())?;
        let net = PeerNet {
            rt,
            last_outcome: Arc::clone(&last_outcome)?,
        };
        let link = LinkUpstream::new(alloc, net, address.copy(alloc)?);
        Ok(SaidUpstream {
            rt,
            reports,
            address,
            last_outcome,
            link,
        })
    }

    /// The time by the clock that never goes back.
    fn time(&self) -> Duration {
        match self.rt.monotonic() {
            Ok(time) => time,
            Err(_) => Duration::ZERO,
        }
    }

    /// Says that a question that began then has no answer.
    fn tell(&self, start: Duration) {
        if self.time().saturating_sub(start) >= Duration::from_secs(SECONDS) {
            self.say("it gave no answer within 20 seconds");
        } else {
            self.say(&*self.last_outcome);
        }
    }

    /// Says why a question has no answer.
    fn say<D: Display + Drop>(&self, what: D) {
        let address = self.address.as_str();
        self.reports.say(
            Kind::Server,
            format_args!("the server {address} was asked for a secret and failed: {what}"),
        );
    }
}

impl<'a> Upstream for SaidUpstream<'a> {
    ghost told = { λ it. None };

    ghost faults = { λ it. link_faults it.link };

    fn ask(&mut self, question: &Question) -> Upped {
        self.last_outcome.begin();
        let start = self.time();
        let upped = self.link.ask(question);
        match &upped {
            Upped::Got(_, _) => {}
            Upped::Failed => self.tell(start),
            Upped::Memory => {}
        }
        upped
    }
}
