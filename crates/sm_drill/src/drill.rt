//! The messages of a drill, one after the other.
ghost use Rattle.std.specs.Prelude.{◌≡◌, ◌+◌, ◌<◌, IfOk};
ghost use Rattle.sm_drill.specs.Asked.{AsksFor, request_of};
ghost use Rattle.sm_drill.specs.Messages.{message_of};
ghost use Rattle.sm_drill.specs.declared.step.TheConstants.{MESSAGES};
ghost use Rattle.sm_http.specs.Reading.{content};

use crate::message;
use crate::step::MESSAGES;
use crate::words::seed_of;
use rand_chacha::ChaCha8Rng;
use rand_core::SeedableRng;
use rand_core::utils::NextWord;
use sm_base::NoMemory;
use sm_http::Message;
use std::alloc::Global;
use std::marker::Model;

/// The messages that a number makes, one after the other.
#[derive(Drop)]
pub struct Drill {
    number: u64,
    /// The number of the next message, counted from 0.
    at: u64,
    words: ChaCha8Rng,
}

impl Model for Drill {
    ghost use Rattle.std.specs.Prelude.{◌≡◌, ◌≤◌};
    ghost use Rattle.rand_chacha.specs.ChaCha.{key_of};
    ghost use Rattle.sm_drill.specs.Messages.{DrillState};
    ghost use Rattle.sm_drill.specs.Words.{seed_of};
    ghost use Rattle.sm_drill.specs.declared.step.TheConstants.{MESSAGES};

    ghost Value = { DrillState };

    ghost view = { λ d. record { number = d.number; at = d.at } };

    ghost invariant = { λ d. (d.at ≤ MESSAGES)
        × (d.words ≡ record { key = key_of (seed_of d.number); stream = 0; word_pos = d.at }) };
}

impl Drill {
    /// A drill before its first message. It takes no memory.
    pub fn new(number: u64) -> Drill
        ensures { result ≡ record { number = number; at = 0 } }
    {
        Drill {
            number,
            at: 0,
            words: ChaCha8Rng::from_seed(seed_of(number)),
        }
    }

    /// The next message. Its word is drawn also where there is no memory for it.
    pub fn next(&mut self, alloc: Global) -> Result<Message, NoMemory>
        requires { self.old.at < MESSAGES }
        ensures message { IfOk result (λ message. content message ≡ message_of self.old.number self.old.at) }
        ensures asks { IfOk result (λ message. AsksFor (content message) (request_of self.old.number self.old.at)) }
        ensures at { self.new ≡ record self.old { at = self.old.at + 1 } }
    {
        let index = self.at;
        let word = self.words.next_word();
        self.at += 1;
        message::message_of(alloc, index, word)
    }
}
