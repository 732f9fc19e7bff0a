//! The rotators that the words name. Each says which of its steps failed.
use crate::peer::PeerNet;
use crate::peer_outcome::LastOutcome;
use crate::reports::{Kind, Reports};
use sm_base::limits::VALUE_LIMIT;
use sm_model::{Answer, Copied, NoMemory, Stage, Text, Value};
use sm_rotator::{Asked, LinkRotator, LocalRotator, Rotator, Work};
use std::alloc::Global;
use std::sync::Arc;
use std::time::{Clock, Duration};

/// How many seconds a step of a link may take in all.
const SECONDS: u64 = 20;

/// What makes rotators of one kind.
pub trait MakeRotator {
    type Made: Rotator + Drop + Send;

    /// A rotator that has not failed yet.
    fn make(&self) -> Result<Self::Made, NoMemory>;
}

/// Makes local rotators.
#[derive(Drop)]
pub struct Local<'a> {
    pub alloc: Global,
    pub reports: &'a Reports<'a>,
}

impl<'a> MakeRotator for Local<'a> {
    type Made = SaidRotator<'a, LocalRotator>;

    fn make(&self) -> Result<SaidRotator<'a, LocalRotator>, NoMemory> {
        Ok(SaidRotator {
            rotator: LocalRotator::new(self.alloc),
            reports: self.reports,
            peer: None,
        })
    }
}

/// Makes rotators behind an address, by a system's network and clock.
#[derive(Drop)]
pub struct Linked<'a> {
    pub rt: &'a HostRuntime,
    pub reports: &'a Reports<'a>,
    pub address: &'a Text,
}

impl<'a> MakeRotator for Linked<'a> {
    type Made = SaidRotator<'a, LinkRotator<PeerNet<'a>>>;

    fn make(&self) -> Result<SaidRotator<'a, LinkRotator<PeerNet<'a>>>, NoMemory> {
        let alloc = self.rt.alloc();
        let last_outcome = Arc::new(alloc, LastOutcome::none())?;
        let net = PeerNet {
            rt: self.rt,
            last_outcome: Arc::clone(&last_outcome)?,
        };
        let address = self.address.copy(alloc)?;
        Ok(SaidRotator {
            rotator: LinkRotator::new(alloc, net, address),
            reports: self.reports,
            peer: Some(Peer {
                rt: self.rt,
                last_outcome,
            }),
        })
    }
}

/// What is known of a peer.
#[derive(Drop)]
struct Peer<'a> {
    rt: &'a HostRuntime,
    last_outcome: Arc<LastOutcome>,
}

impl<'a> Peer<'a> {
    /// The time by the clock that never goes back.
    fn time(&self) -> Duration {
        match self.rt.monotonic() {
            Ok(time) => time,
            Err(_) => Duration::ZERO,
        }
    }
}

/// A rotator that says each step that failed: the secret, the step, the attempt, and what was answered or what the peer
/// did in place of an answer. No value stands in such a line.
#[derive(Drop)]
pub struct SaidRotator<'a, R> {
    rotator: R,
    reports: &'a Reports<'a>,
    peer: Option<Peer<'a>>,
}

impl<'a, R> SaidRotator<'a, R> {
    /// When a step begins.
    fn begin(&self) -> Duration {
        match &self.peer {
            Some(peer) => {
                peer.last_outcome.begin();
                peer.time()
            }
            None => Duration::ZERO,
        }
    }

    /// Says the end of a step, where it failed.
    fn tell(&self, work: &Work, start: Duration, answer: &Answer) {
        match answer {
            Answer::Failed => self.tell_failed(work, start),
            Answer::No => self.say(work, "it answered No"),
            Answer::Yes => self.tell_yes(work),
            Answer::Value(value) => self.tell_value(work, value),
        }
    }

    /// Says a step to which the peer gave no answer.
    fn tell_failed(&self, work: &Work, start: Duration) {
        match &self.peer {
            Some(peer) => {
                if peer.time().saturating_sub(start) >= Duration::from_secs(SECONDS) {
                    self.say(work, "it gave no answer within 20 seconds");
                } else {
                    self.say(work, &*peer.last_outcome);
                }
            }
            None => self.say(work, "it gave no answer"),
        }
    }

    /// Says a step that wanted a value, where the answer is a yes.
    fn tell_yes(&self, work: &Work) {
        if work.at.stage == Stage::Create {
            self.say(work, "it answered Yes, and gave no value");
        }
    }

    /// Says a step that wanted no value, where the answer is one, or whose value is too long.
    fn tell_value(&self, work: &Work, value: &Value) {
        if work.at.stage != Stage::Create {
            self.say(work, "it gave a value where none was asked for");
        } else if length_of(value) > VALUE_LIMIT {
            self.say(work, "it gave a value that is too long");
        }
    }

    /// Says a step that failed.
    fn say<D: std::fmt::Display + Drop>(&self, work: &Work, what: D) {
        let arn = work.arn.as_text().as_str();
        let step = step_name(work.at.stage);
        let attempt = work.at.attempt;
        self.reports.say(
            Kind::Rotation,
            format_args!("the rotation of {arn} failed at {step}, attempt {attempt} of 5: {what}"),
        );
    }
}

/// How many bytes a value has.
fn length_of(value: &Value) -> usize {
    match value {
        Value::Text(text) => text.as_bytes().len(),
        Value::Bytes(bytes) => bytes.as_slice().len(),
    }
}

/// The name of a step.
fn step_name(stage: Stage) -> &'static str {
    match stage {
        Stage::Create => "createSecret",
        Stage::Set => "setSecret",
        Stage::Test => "testSecret",
        Stage::Finish => "finishSecret",
    }
}

impl<'a, R: Rotator> Rotator for SaidRotator<'a, R> {
    ghost replies = { R.replies };

    ghost faults = { λ it. R.faults it.rotator };

    ghost told = { λ it. R.told it.rotator };

    fn ask(&mut self, work: &Work) -> Asked {
        let start = self.begin();
        let asked = self.rotator.ask(work);
        match &asked {
            Asked::Answered(answer) => self.tell(work, start, answer),
            Asked::Memory => {}
        }
        asked
    }

    ghost may_fail = { R.may_fail };
}
