//! Entries as fields.
ghost use Rattle.sm_record.specs.Entries.{entry};

use crate::acts::{act_fits, done_at, put_act};
use crate::edition::Edition;
use crate::field::Field;
use crate::head::{before_act, head_at, head_fits, put_head};
use crate::out::Out;
use crate::unread::Unread;
use sm_model::Entry;
use std::alloc::Global;

impl Field for Entry {
    ghost codec = { entry };

    #[tactic(auto, unfolding(crate::specs::Entries::entry, crate::specs::Entries::done, crate::specs::Entries::act))]
    fn fits(&self, edition: Edition) -> bool {
        head_fits(edition, self) && act_fits(edition, self)
    }

    #[tactic(auto, unfolding(crate::specs::Entries::entry))]
    fn read_front(alloc: Global, edition: Edition, bytes: &[u8]) -> Result<(Entry, &[u8]), Unread> {
        let (head, rest) = head_at(alloc, edition, bytes)?;
        let before = before_act(&head.caller, &head.by, &head.drawn);
        let ((prunes, act), behind) = done_at(alloc, edition, before, rest)?;
        Ok((head.entry(prunes, act), behind))
    }

    #[tactic(auto, using(std::proofs::lemmas::List::append_assoc, std::proofs::lemmas::Bool::and_parts), unfolding(crate::specs::Entries::entry, crate::specs::Entries::done, crate::specs::Entries::act))]
    fn put(&self, edition: Edition, out: &mut Out) {
        put_head(edition, out, self);
        put_act(edition, out, self);
    }
}
