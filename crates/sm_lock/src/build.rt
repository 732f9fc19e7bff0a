//! Building the lock and its passes.
ghost use Rattle.std.specs.Prelude.{◌≡◌, ◌≤◌, [], ◌∷◌, IfOk, IfErr, All, map, length, Some, vec_len, vec_capacity};
ghost use Rattle.sm_base.specs.declared.limits.TheConstants.{SEATS_LIMIT};
ghost use Rattle.std.specs.List.{range_with_len};
ghost use Rattle.sm_lock.specs.declared.gate.BuildRefused.TheVariants.{Memory};
ghost use Rattle.sm_lock.specs.Boxed.{IsSlotOf};
ghost use Rattle.sm_lock.specs.View.{first_view};
ghost use Rattle.sm_lock.specs.Handles.{built_with, seats as seats_of, number, seen, mine, IsIn};

use crate::board::{Board, COUNT, FIRST_FLAG, FLAGS, Key, Place};
use crate::gate::{BuildRefused, Gate};
use crate::pass::Pass;
use crate::plays::Number;
use crate::storied::Storied;
use atomic_table::{Refused, Table};
use sm_base::List;
use std::alloc::{AllocFailed, Global};
use std::snapshot::Snapshot;

/// The one value of a list of slots.
fn only<T>(mut slots: Vec<Option<T>>) -> T
    requires { (value : T) × (slots.items ≡ Some value ∷ []) }
    ensures { slots.items ≡ Some result ∷ [] }
{
    let Some(Some(value)) = slots.pop() else {
        unreachable!()
    };
    slots.destroy_empty();
    value
}

/// The one slot, with the value in a block of its own. Without memory the value comes back.
fn slots_of<T: Storied>(alloc: Global, value: T) -> Result<Vec<Option<Box<T>>>, T>
    ensures ok { IfOk result (λ slots. IsSlotOf value slots.items) }
    ensures err { IfErr result (λ back. back ≡ value) }
{
    let Ok(mut slots) = Vec::with_capacity(alloc, 1) else {
        return Err(value);
    };
    match Box::new(alloc, value) {
        Ok(block) => {
            slots.push_reserved(Some(block));
            Ok(slots)
        }
        Err(AllocFailed { value }) => {
            slots.destroy_empty();
            Err(value)
        }
    }
}

/// The table with the value in its slot, and the builder's place at it.
fn lay<T: Storied>(
    alloc: Global,
    value: T,
    seats: u32,
) -> Result<(Board<T>, Place<T>), BuildRefused<T>>
    ensures sized { IfOk result (λ r. (r.0.shared.table_id.words ≡ 131) × (r.0.shared.table_id.slots ≡ 1)) }
    ensures key { IfOk result (λ r. (r.0.shared.key.seats ≡ seats) × (r.0.shared.key.built.value ≡ value)) }
    ensures builder { IfOk result (λ r. (r.1.table_id ≡ r.0.shared.table_id)
        × (r.1.me ≡ (first_view (T.origin value) (T.story value), []))) }
    ensures err { IfErr result (λ e. e ≡ Memory value) }
{
    let about = Key {
        built: Snapshot::of(&value),
        seats,
    };
    let mut words = [0; FIRST_FLAG + FLAGS];
    words[COUNT] = value.length();
    match slots_of(alloc, value) {
        Ok(slots) => match Table::new(alloc, &words, slots, &about) {
            Ok(made) => Ok(made),
            Err(Refused { slots }) => Err(BuildRefused::Memory(Box::into_inner(only(slots)))),
        },
        Err(value) => Err(BuildRefused::Memory(value)),
    }
}

impl<T: Storied> Gate<T> {
    /// A lock over a value, with a pass for each seat, which has seen the value's list and made nothing.
    /// The seats are numbered from 1. Without memory the value comes back.
    pub fn build(
        alloc: Global,
        value: T,
        seats: u32,
    ) -> Result<(Gate<T>, List<Pass<T>>), BuildRefused<T>>
        requires { (1 ≤ seats) × (seats ≤ SEATS_LIMIT) }
        ensures gate { IfOk result (λ r. (built_with r.0 ≡ value) × (seats_of r.0 ≡ seats)) }
        ensures count { IfOk result (λ r. length r.1 ≡ seats) }
        ensures numbers { IfOk result (λ r. map number r.1 ≡ range_with_len 1 seats) }
        ensures seen { IfOk result (λ r.
            All (λ pass. IsIn r.0 pass × (seen pass ≡ T.story value) × (mine pass ≡ [])) r.1) }
        ensures err { IfErr result (λ e. e ≡ Memory value) }
    {
        let Ok(passes) = Vec::with_capacity(alloc, seats as usize) else {
            return Err(BuildRefused::Memory(value));
        };
        let count = value.length();
        match lay(alloc, value, seats) {
            Ok((board, builder)) => {
                let gate = Gate { board, seats };
                let passes = gate.number_all(builder, count, passes);
                Ok((gate, List::new(passes)))
            }
            Err(refused) => {
                passes.destroy_empty();
                Err(refused)
            }
        }
    }

    /// Gives each seat its number.
    fn number_all(
        &self,
        mut builder: Place<T>,
        count: u64,
        mut passes: Vec<Pass<T>>,
    ) -> Vec<Pass<T>>
        requires place { (builder.table_id ≡ self.now.board.shared.table_id)
            × (builder.me ≡ (first_view (T.origin (built_with self.now)) (T.story (built_with self.now)), [])) }
        requires count { count ≡ length (T.story (built_with self.now)) }
        requires room { (vec_len passes ≡ 0) × (seats_of self.now ≤ vec_capacity passes) }
        ensures count { vec_len result ≡ seats_of self.now }
        ensures numbers { map number result.items ≡ range_with_len 1 (seats_of self.now) }
        ensures seen { All (λ pass. IsIn self.now pass × (seen pass ≡ T.story (built_with self.now))
            × (mine pass ≡ [])) result.items }
    {
        for number in 1..self.seats + 1 {
            let place = self.board.shared.split_seat::<Number>(&mut builder);
            passes.push_reserved(Pass {
                number,
                count,
                place,
            });
        }
        passes
    }
}
