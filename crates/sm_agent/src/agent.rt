//! A caching reader.
ghost use Rattle.std.specs.Prelude.{◌≡◌, ◌≤◌, ◌⊎◌, IfOk, OnOk, OnErr};
ghost use Rattle.lru.specs.LruCache.{promoted, put_entries};
ghost use Rattle.std.specs.Map.{remove_entry};
ghost use Rattle.sm_base.specs.Faults.{Rose};
ghost use Rattle.sm_base.specs.Outcomes.{OrMemory};
ghost use Rattle.sm_agent.specs.Questions.{same_question};
ghost use Rattle.sm_agent.specs.Agents.{empty_agent, agent_moment, is_live, kept_answer, kept_told, HasStatus, with_entries, cached, entries_with, Leaves, told_given, OnKept, OnGivenFailed, StaysUnlessGivenFailed};

use crate::answer::{CachedAnswer, OK};
use crate::question::Question;
use crate::upstream::{Upped, Upstream};
use lru::LruCache;
use sm_base::{Bytes, Copied, Moment, NoMemory};
use std::alloc::Global;
use std::marker::Model;
use std::num::NonZeroUsize;

/// How many answers a reader of the program keeps.
pub const CACHE_SIZE: u32 = 1_000;

/// For how many seconds it keeps each.
pub const TTL: u64 = 300;

/// The longest time to live, in seconds.
pub const TTL_LIMIT: u64 = 86_400;

/// What a reader gives.
#[derive(Drop)]
pub enum Given {
    /// A kept answer: its status, its body, and when it came.
    Kept(u16, Bytes, Moment),
    /// The answer of the upstream: its status and its body.
    Asked(u16, Bytes),
    /// The upstream failed.
    Failed,
    Memory,
}

/// A reader that keeps the answers of status 200 for a while, so many at most. The one that was used longest ago goes
/// first.
#[derive(Drop)]
pub struct Agent {
    alloc: Global,
    cache: LruCache<Question, CachedAnswer>,
    ttl: u64,
    last: Moment,
}

impl Model for Agent {
    ghost use Rattle.std.specs.Prelude.{◌≤◌};
    ghost use Rattle.sm_agent.specs.Agents.{AgentState};

    ghost Value = { AgentState };

    ghost view = { λ a. record { cache = a.cache; ttl = a.ttl; last = a.last.0 } };
}

impl Agent {
    /// A reader that keeps so many answers, each for so many seconds.
    pub fn build(alloc: Global, size: u32, ttl: u64) -> Result<Agent, NoMemory>
        requires size { 1 ≤ size }
        requires ttl { ttl ≤ TTL_LIMIT }
        ensures { IfOk result (λ agent. agent ≡ empty_agent size ttl) }
    {
        let size = NonZeroUsize::new(size as usize).unwrap();
        let cache = LruCache::new(alloc, size)?;
        Ok(Agent {
            alloc,
            cache,
            ttl,
            last: Moment(0),
        })
    }

    /// The answer to a question: a kept one, unless a fresh one is wanted, and else that of the upstream, which is
    /// asked once.
    pub fn get<U: Upstream>(
        &mut self,
        upstream: &mut U,
        question: Question,
        fresh: bool,
        now: Moment,
    ) -> Given
        ensures kept { OrMemory (kept_told result) (kept_answer self.old question fresh (agent_moment self.old now.0)) }
        ensures status { HasStatus result }
        ensures leaves { Leaves question (agent_moment self.old now.0) result self.old self.new }
        ensures told { U.told upstream.new ≡ told_given question result (U.told upstream.old) }
        ensures unasked { OnKept result (upstream.new ≡ upstream.old) }
        ensures failed { OnGivenFailed result (Rose (U.faults upstream.old) (U.faults upstream.new)) }
        ensures later { U.faults upstream.old ≤ U.faults upstream.new }
        ensures no_other { StaysUnlessGivenFailed result (U.faults upstream.old) (U.faults upstream.new) }
    {
        self.last = self.last.max(now);
        match self.kept(&question, fresh) {
            Ok(Some(answer)) => {
                self.cache.promote(&question);
                Given::Kept(OK, answer.body, answer.at)
            }
            Ok(None) => self.ask(upstream, question),
            Err(NoMemory) => Given::Memory,
        }
    }

    /// Whether an answer lives still.
    fn is_live(&self, answer: &CachedAnswer) -> bool
        ensures { result ≡ is_live self.now.ttl self.now.last answer.now }
    {
        let moment = self.last.0;
        match answer.at.0.checked_add(self.ttl) {
            Some(end) => moment < end,
            None => true,
        }
    }

    /// The kept answer to a question, where no fresh one is wanted.
    fn kept(&self, question: &Question, fresh: bool) -> Result<Option<CachedAnswer>, NoMemory>
        ensures { IfOk result (λ kept. kept ≡ kept_answer self.now question.now fresh self.now.last) }
    {
        if fresh {
            return Ok(None);
        }
        match self.cache.peek(question) {
            Some(answer) if self.is_live(answer) => Ok(Some(answer.copy(self.alloc)?)),
            _ => Ok(None),
        }
    }

    /// Asks the upstream, and keeps the answer by its status.
    fn ask<U: Upstream>(&mut self, upstream: &mut U, question: Question) -> Given
        ensures kept { OrMemory (kept_told result) None }
        ensures status { HasStatus result }
        ensures leaves { Leaves question self.old.last result self.old self.new }
        ensures told { U.told upstream.new ≡ told_given question result (U.told upstream.old) }
        ensures unasked { OnKept result (upstream.new ≡ upstream.old) }
        ensures failed { OnGivenFailed result (Rose (U.faults upstream.old) (U.faults upstream.new)) }
        ensures later { U.faults upstream.old ≤ U.faults upstream.new }
        ensures no_other { StaysUnlessGivenFailed result (U.faults upstream.old) (U.faults upstream.new) }
    {
        match upstream.ask(&question) {
            Upped::Got(OK, body) => Given::Asked(OK, self.keep(question, body)),
            Upped::Got(status, body) => {
                drop(self.cache.pop(&question));
                Given::Asked(status, body)
            }
            Upped::Failed => Given::Failed,
            Upped::Memory => Given::Memory,
        }
    }

    /// Puts an answer into the cache, and gives its body back. Where there is no memory for it, an older answer to the
    /// question goes.
    fn keep(&mut self, question: Question, body: Bytes) -> Bytes
        ensures body { result ≡ body }
        ensures kept { (self.new ≡ with_entries self.old self.old.last
            (put_entries same_question self.old.cache question (cached body self.old.last)))
            ⊎ (self.new ≡ with_entries self.old self.old.last
            (remove_entry (same_question question) self.old.cache.entries)) }
    {
        match body.copy(self.alloc) {
            Ok(copy) => {
                let answer = CachedAnswer {
                    body: copy,
                    at: self.last,
                };
                match self.cache.put(question, answer) {
                    Ok(older) => drop(older),
                    Err(failed) => drop(self.cache.pop(&failed.value.0)),
                }
            }
            Err(NoMemory) => drop(self.cache.pop(&question)),
        }
        body
    }
}
