//! Promotions: the message that stops the replication makes an account of what the replica holds (AWS Secrets Manager
//! API Reference, StopReplicationToReplica).
ghost use Rattle.std.specs.Prelude.{◌≡◌, ◌≤◌, List, None, Some, ℕ};
ghost use Rattle.sm_base.specs.SecretId.{secret_id};
ghost use Rattle.sm_base.specs.declared.limits.TheConstants.{JOURNAL_LIMIT};
ghost use Rattle.sm_base.specs.declared.moment.TheConstants.{LAST_READING};
ghost use Rattle.sm_forms.specs.Forms.{forms_of};
ghost use Rattle.sm_session.specs.Replies.{Says};
ghost use Rattle.sm_session.specs.declared.said.Said.TheVariants as replies;
ghost use Rattle.sm_base_check.specs.Bases.{IsSound};
ghost use Rattle.sm_store.specs.Stores.{IsOpened, IsStopped};
ghost use Rattle.sm_store.specs.Held.{Held};
ghost use Rattle.sm_table.specs.Found.{found};
ghost use Rattle.sm_follow.specs.declared.end.End.TheVariants as ends;
ghost use Rattle.sm_follow.specs.declared.follower.Turned.TheVariants as turned;
ghost use Rattle.sm_follow.specs.declared.output.Output.TheVariants as outputs;
ghost use Rattle.sm_follow.specs.Disks.{ComesBy, IfOn, IsLater, IsSure, Stands, disk_in};
ghost use Rattle.sm_follow.specs.Promotions.{AllowsBy, EndsRefused, PutsBase};
ghost use Rattle.sm_follow.specs.InputTurns.{PromotesAs, State, StopsUnless, promoted_answer, stop_refusal, stopped_by};

use crate::end::End;
use crate::follower::{Follower, Turned};
use crate::output::Output;
use sm_base::NoMemory;
use sm_core::{Admitted, admit, forms};
use sm_disk::Disk;
use sm_encoded_size::note_spelled;
use sm_journal::OpenRefused;
use sm_judge_common::members::secret_id;
use sm_model::{Moment, Person, PromotedSecret, Reply, Request, SecretId, Text, Why};
use sm_record::Base;
use sm_replica::{PromoteRefused, Replica};
use sm_session::{Said, say_refusal, say_reply};
use sm_table::Table;
use std::alloc::Global;

/// Whether a promotion may be asked for.
#[derive(Drop)]
pub enum Allowed {
    Yes,
    No(Why),
    Memory,
}

/// Answers a message of a person that stops the replication of a secret, at a moment: its forms and access are tested,
/// and then the replica is promoted.
pub fn stop_replication<D: Disk>(
    alloc: Global,
    follower: Follower<D>,
    person: &Person,
    moment: Moment,
    request: &Request,
    text: &Text,
) -> Turned<D>
    requires bound { moment.0 ≤ LAST_READING }
    requires stops { stopped_by request.now ≡ Some text.now }
    requires sure { IsSure follower }
    ensures comes { (state : State) → Stands state follower → ComesBy (StopsUnless
        (stop_refusal state.replica moment (record { person = person.now; request = request.now })) state moment
        text.now) (D.faults (disk_in follower)) result }
    ensures sure { IfOn result IsSure }
    ensures later { IsLater (D.faults (disk_in follower)) result }
{
    match test_stop(alloc, &follower.replica, person, moment, request) {
        Allowed::Yes => promote_named(alloc, follower, moment, request, text),
        Allowed::No(why) => {
            let said = say_refusal(alloc, &why);
            Turned::On(follower, Output::Reply(said))
        }
        Allowed::Memory => Turned::On(follower, Output::Reply(Said::Memory)),
    }
}

/// Whether a person may ask for a promotion so: the forms of the members, and then access.
fn test_stop(
    alloc: Global,
    replica: &Replica,
    person: &Person,
    moment: Moment,
    request: &Request,
) -> Allowed
    ensures { AllowsBy result
        (stop_refusal replica.now moment (record { person = person.now; request = request.now }))
        (forms_of request.now) }
{
    match forms(alloc, request) {
        Some(Why::Memory { .. }) => Allowed::Memory,
        Some(why) => Allowed::No(why),
        None => match admit(alloc, replica.table(), person, moment, request) {
            Admitted::Ok => Allowed::Yes,
            Admitted::Denied(statement) => Allowed::No(Why::Denied(statement)),
            Admitted::Memory => Allowed::Memory,
        },
    }
}

/// Promotes a replica where it shows the secret of this SecretId at a moment.
fn promote_named<D: Disk>(
    alloc: Global,
    follower: Follower<D>,
    moment: Moment,
    request: &Request,
    text: &Text,
) -> Turned<D>
    requires bound { moment.0 ≤ LAST_READING }
    requires stops { stopped_by request.now ≡ Some text.now }
    requires forms { forms_of request.now ≡ None }
    requires sure { IsSure follower }
    ensures comes { (state : State) → Stands state follower → ComesBy (StopsUnless None state moment text.now)
        (D.faults (disk_in follower)) result }
    ensures sure { IfOn result IsSure }
    ensures later { IsLater (D.faults (disk_in follower)) result }
{
    match secret_id(alloc, text) {
        Ok(id) => promote(alloc, follower, moment, &id),
        Err(NoMemory) => Turned::On(follower, Output::Reply(Said::Memory)),
    }
}

/// Promotes a replica where it shows the secret at a moment.
fn promote<D: Disk>(
    alloc: Global,
    follower: Follower<D>,
    moment: Moment,
    id: &SecretId,
) -> Turned<D>
    requires bound { moment.0 ≤ LAST_READING }
    requires sure { IsSure follower }
    ensures comes { (text : List ℕ) → id.now ≡ secret_id text → (state : State) → Stands state follower
        → ComesBy (PromotesAs state moment text) (D.faults (disk_in follower)) result }
    ensures sure { IfOn result IsSure }
    ensures later { IsLater (D.faults (disk_in follower)) result }
{
    let mut follower = follower;
    match follower.replica.promote(id, moment) {
        // The reply's body is made first, so that a lack of memory for it leaves the disk as it was.
        Ok(base) => match say_promoted(alloc, follower.replica.table(), id, moment) {
            Said::Reply(status, body) => {
                put_base(alloc, follower, &base, Said::Reply(status, body))
            }
            Said::Memory => end_lacking(follower),
        },
        Err(PromoteRefused::NoSecret) => {
            let said = say_refusal(alloc, &Why::NoSecret);
            Turned::On(follower, Output::Reply(said))
        }
        Err(PromoteRefused::Memory) => end_lacking(follower),
    }
}

/// The run ends without memory for a promotion, before the disk was touched.
fn end_lacking<D: Disk>(follower: Follower<D>) -> Turned<D>
    ensures { result ≡ turned.Ends ends.Memory (disk_in follower) (outputs.Reply replies.Memory) }
{
    Turned::Ends(End::Memory, follower.close(), Output::Reply(Said::Memory))
}

/// The reply to a promotion: the ARN of the secret that the SecretId names at a moment.
fn say_promoted(alloc: Global, table: &Table, id: &SecretId, moment: Moment) -> Said
    ensures { Says result (promoted_answer (found table.now moment id.now)) }
{
    match table.find(id, moment) {
        Some(row) => match Text::from_str(alloc, row.arn.as_text().as_str()) {
            Ok(arn) => {
                let reply = Reply::StopReplicationToReplica(PromotedSecret { arn });
                say_reply(alloc, &reply)
            }
            Err(NoMemory) => Said::Memory,
        },
        None => say_refusal(alloc, &Why::NoSecret),
    }
}

/// Puts what a promoted replica holds in the place of all that its disk has, and then says this.
fn put_base<D: Disk>(alloc: Global, follower: Follower<D>, base: &Base, said: Said) -> Turned<D>
    requires sound { IsSound base.now }
    requires sure { IsSure follower }
    ensures put { (held : Held) → IsOpened JOURNAL_LIMIT held follower.store
        → PutsBase held base.now follower.replica said (D.faults (disk_in follower)) result }
    ensures sure { IfOn result IsSure }
    ensures later { IsLater (D.faults (disk_in follower)) result }
{
    note_spelled(base);
    let Follower { replica, store } = follower;
    match store.checkpoint(alloc, base) {
        Ok(store) => Turned::On(Follower { replica, store }, Output::Reply(said)),
        Err(refused) => end_refused(alloc, refused),
    }
}

/// The run ends behind a checkpoint that the store refused: it says why, and the disk is handed on.
fn end_refused<D: Disk>(alloc: Global, refused: OpenRefused<D>) -> Turned<D>
    requires stopped { (old : D) × IsStopped D.Disk old refused }
    ensures { EndsRefused refused result }
{
    match refused {
        OpenRefused::Failed(disk) => {
            let said = say_refusal(alloc, &Why::DiskFault);
            Turned::Ends(End::DiskFault, disk, Output::Reply(said))
        }
        OpenRefused::Memory(disk) => {
            Turned::Ends(End::Memory, disk, Output::Reply(Said::Memory))
        }
        OpenRefused::Damaged(_, _) => unreachable!(),
    }
}
