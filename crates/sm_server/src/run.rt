//! The top call over one stream.
ghost use Rattle.std.specs.Prelude.{◌≡◌, ◌≤◌, ◌∷◌, [], ℕ, List, None, Ok, Option, map, string_bytes, ⊤};
ghost use Rattle.std.specs.Io.KnownBytes.{append_known};
ghost use Rattle.sm_base.specs.Faults.{Rose};
ghost use Rattle.sm_base.specs.declared.moment.Moment.{Moment as moments};
ghost use Rattle.sm_account.specs.Accounts.{history, base, began, taken, disk, failed};
ghost use Rattle.sm_account.specs.States.{base_of};
ghost use Rattle.sm_base.specs.declared.limits.TheConstants.{JOURNAL_LIMIT};
ghost use Rattle.sm_recovery.specs.Lawful.{made_of};
ghost use Rattle.sm_server.specs.declared.asked.RunTask.TheVariants.{Answer, Practise, Ship, Summarize};
ghost use Rattle.sm_principal.specs.declared.people.People.{People as Persons};
ghost use Rattle.sm_principal.specs.Callers.{people_of};
ghost use Rattle.sm_server.specs.Asked.{PeopleDecide};
ghost use Rattle.sm_server.specs.Checks.{Shows};
ghost use Rattle.sm_server.specs.Outcomes.{RunsBy};
ghost use Rattle.sm_server.specs.JustOpened.{IsJustOpened};
ghost use Rattle.sm_server.specs.Outside.{NoCountFell, outside_beside, outside_by};
ghost use Rattle.sm_server.specs.Ran.{Runs, Story, course_of};
ghost use Rattle.sm_server.specs.Ships.{ShipsBy};
ghost use Rattle.sm_server.specs.Status.{WasFollowed, WasOpened, WasUnderstood};
ghost use Rattle.sm_server.specs.Stored.{Leaves, Stands, StaysVouched, WantsBy, status_unopened, disk_unopened};
ghost use Rattle.sm_server.specs.declared.status.Status.TheVariants.{Memory};

use crate::answering::answer_source;
use crate::asked::{Role, RunTask, people_of, role_of_words};
use crate::checking::summarize;
use crate::drilling::practise;
use crate::following::follow_primary;
use crate::shipping::ship_frames;
use crate::status::{Status, status_of};
use sm_account::{Account, OpenRefused};
use sm_base::limits::JOURNAL_LIMIT;
use sm_disk::Disk;
use sm_io::{Clock, Sink, Source, Words};
use sm_principal::People;
use sm_rotator::Rotator;
use std::alloc::Global;

/// Follows the words of a command line: reads the text of the people who may ask, opens the account of the disk, and
/// answers the messages of the source one after the other, at most 1,000, or writes a summary of what the disk holds,
/// or answers the 10,000 messages that a number makes and says how that went, or writes what brings a replica to the
/// account's end. The reply to each message of the source is written, and then rotation turns are taken, before the
/// next one is read. Or it is a replica: it opens the store of the disk alone, and follows the frames of the source, at
/// most 100,000. The disk is handed back.
pub fn run_once<Q: Source, K: Sink, D: Disk, C: Clock, W: Words, R: Rotator>(
    alloc: Global,
    words: &[String],
    source: &mut Q,
    sink: &mut K,
    disk: D,
    clock: &mut C,
    random: &mut W,
    people: &[u8],
    rotator: &mut R,
) -> (Status, D)
    // How the run went, and what stands on the disk.
    ensures ran { RunsBy D.Disk R.replies (record { words = map string_bytes words.now; people = people.now }) result.0
        (outside_by Q.Source K.Sink C.Clock W.Words R.Rotator source.old sink.old
        (D.faults disk) clock.old random.old rotator.old)
        (outside_by Q.Source K.Sink C.Clock W.Words R.Rotator source.new sink.new
        (D.faults result.1) clock.new random.new rotator.new) disk result.1 }
    ensures source_later { Q.source_faults source.old ≤ Q.source_faults source.new }
    ensures sink_later { K.sink_faults sink.old ≤ K.sink_faults sink.new }
    ensures disk_later { D.faults disk ≤ D.faults result.1 }
    ensures random_later { W.faults random.old ≤ W.faults random.new }
    ensures rotator_later { R.faults rotator.old ≤ R.faults rotator.new }
{
    match role_of_words(alloc, words) {
        Ok(Role::Primary(task)) => run_task(
            alloc, task, people, source, sink, disk, clock, random, rotator,
        ),
        Ok(Role::Replica(region)) => {
            follow_primary(alloc, region, people, disk, source, sink, clock)
        }
        Err(status) => (status, disk),
    }
}

/// Reads the text of the people, and does a task.
fn run_task<Q: Source, K: Sink, D: Disk, C: Clock, W: Words, R: Rotator>(
    alloc: Global,
    task: RunTask,
    people: &[u8],
    source: &mut Q,
    sink: &mut K,
    disk: D,
    clock: &mut C,
    random: &mut W,
    rotator: &mut R,
) -> (Status, D)
    ensures ran { (story : Story) × (story.task ≡ task)
        × PeopleDecide result.0 (people_of people.now) story.people
        × (runs : Runs (course_of R.replies story) result.0
        (outside_by Q.Source K.Sink C.Clock W.Words R.Rotator source.old sink.old
        (D.faults disk) clock.old random.old rotator.old)
        (outside_by Q.Source K.Sink C.Clock W.Words R.Rotator source.new sink.new
        (D.faults result.1) clock.new random.new rotator.new))
        × Leaves D.Disk result.0 story disk result.1
        × (result.0 ≡ Memory → WantsBy D.Disk (people_of people.now ≡ Ok story.people) story runs.input runs.trace disk
        result.1)
        × ∥ StaysVouched R.replies story.taken story.history story.failed ∥₁ }
    ensures understood { WasUnderstood result.0 }
    ensures source_later { Q.source_faults source.old ≤ Q.source_faults source.new }
    ensures sink_later { K.sink_faults sink.old ≤ K.sink_faults sink.new }
    ensures disk_later { D.faults disk ≤ D.faults result.1 }
    ensures random_later { W.faults random.old ≤ W.faults random.new }
    ensures rotator_later { R.faults rotator.old ≤ R.faults rotator.new }
{
    match people_of(alloc, people) {
        Ok(people) => run_over(
            alloc, task, &people, source, sink, disk, clock, random, rotator,
        ),
        Err(status) => (status, disk),
    }
}

/// Opens the account of the disk, and does what there is to do with it.
fn run_over<Q: Source, K: Sink, D: Disk, C: Clock, W: Words, R: Rotator>(
    alloc: Global,
    task: RunTask,
    people: &People,
    source: &mut Q,
    sink: &mut K,
    disk: D,
    clock: &mut C,
    random: &mut W,
    rotator: &mut R,
) -> (Status, D)
    ensures ran { (story : Story) × (story.task ≡ task) × (story.people ≡ people.now)
        × (runs : Runs (course_of R.replies story) result.0
        (outside_by Q.Source K.Sink C.Clock W.Words R.Rotator source.old sink.old
        (D.faults disk) clock.old random.old rotator.old)
        (outside_by Q.Source K.Sink C.Clock W.Words R.Rotator source.new sink.new
        (D.faults result.1) clock.new random.new rotator.new))
        × Leaves D.Disk result.0 story disk result.1
        × (result.0 ≡ Memory → WantsBy D.Disk ⊤ story runs.input runs.trace disk result.1)
        × ∥ StaysVouched R.replies story.taken story.history story.failed ∥₁ }
    ensures followed { WasFollowed result.0 }
    ensures source_later { Q.source_faults source.old ≤ Q.source_faults source.new }
    ensures sink_later { K.sink_faults sink.old ≤ K.sink_faults sink.new }
    ensures disk_later { D.faults disk ≤ D.faults result.1 }
    ensures random_later { W.faults random.old ≤ W.faults random.new }
    ensures rotator_later { R.faults rotator.old ≤ R.faults rotator.new }
{
    match Account::open(alloc, disk, 1, JOURNAL_LIMIT) {
        Ok(account) => run_opened(
            alloc, task, people, account, source, sink, clock, random, rotator,
        ),
        Err(refused) => end_unopened(refused),
    }
}

/// How a run ends whose account was not opened, and the disk again.
pub(crate) fn end_unopened<D>(refused: OpenRefused<D>) -> (Status, D)
    ensures status { result.0 ≡ status_unopened refused }
    ensures disk { result.1 ≡ disk_unopened refused }
{
    match refused {
        OpenRefused::Damaged(disk, damage) => (Status::Damaged(damage.at, damage.entry), disk),
        OpenRefused::Failed(disk) => (Status::OpenFault, disk),
        OpenRefused::Memory(disk) => (Status::Memory, disk),
    }
}

/// Does what there is to do with an account that was just opened.
fn run_opened<Q: Source, K: Sink, D: Disk, C: Clock, W: Words, R: Rotator>(
    alloc: Global,
    task: RunTask,
    people: &People,
    account: Account<D, R>,
    source: &mut Q,
    sink: &mut K,
    clock: &mut C,
    random: &mut W,
    rotator: &mut R,
) -> (Status, D)
    requires { IsJustOpened account }
    ensures ran { (story : Story) × (story.task ≡ task) × (story.people ≡ people.now) × (story.taken ≡ taken account)
        × Runs (course_of R.replies story) result.0
        (outside_by Q.Source K.Sink C.Clock W.Words R.Rotator source.old sink.old
        (D.faults (began account)) clock.old random.old rotator.old)
        (outside_by Q.Source K.Sink C.Clock W.Words R.Rotator source.new sink.new
        (D.faults result.1) clock.new random.new rotator.new)
        × Stands D.Disk story (began account) result.1
        × ∥ StaysVouched R.replies story.taken story.history story.failed ∥₁ }
    ensures opened { WasOpened result.0 }
    ensures later { NoCountFell
        (outside_by Q.Source K.Sink C.Clock W.Words R.Rotator source.old sink.old
        (D.faults (disk account)) clock.old random.old rotator.old).counts
        (outside_by Q.Source K.Sink C.Clock W.Words R.Rotator source.new sink.new
        (D.faults result.1) clock.new random.new rotator.new).counts }
{
    match task {
        RunTask::Answer => answer_opened(
            alloc, people, account, source, sink, clock, random, rotator,
        ),
        RunTask::Summarize => check_opened(alloc, account, sink, clock),
        RunTask::Practise(number) => {
            practise_opened(alloc, number, people, account, sink, clock, random, rotator)
        }
        RunTask::Ship(position) => ship_opened(alloc, position, account, sink),
    }
}

/// Answers the messages of the source on an account that was just opened.
fn answer_opened<Q: Source, K: Sink, D: Disk, C: Clock, W: Words, R: Rotator>(
    alloc: Global,
    people: &People,
    account: Account<D, R>,
    source: &mut Q,
    sink: &mut K,
    clock: &mut C,
    random: &mut W,
    rotator: &mut R,
) -> (Status, D)
    requires fresh { history account ≡ [] }
    requires base { base account ≡ base_of (taken account) JOURNAL_LIMIT }
    requires sure { failed account ≡ None }
    requires later { D.faults (began account) ≤ D.faults (disk account) }
    ensures ran { (story : Story) × (story.task ≡ Answer) × (story.people ≡ people.now) × (story.taken ≡ taken account)
        × Runs (course_of R.replies story) result.0
        (outside_by Q.Source K.Sink C.Clock W.Words R.Rotator source.old sink.old
        (D.faults (began account)) clock.old random.old rotator.old)
        (outside_by Q.Source K.Sink C.Clock W.Words R.Rotator source.new sink.new
        (D.faults result.1) clock.new random.new rotator.new)
        × Stands D.Disk story (began account) result.1
        × ∥ StaysVouched R.replies story.taken story.history story.failed ∥₁ }
    ensures opened { WasOpened result.0 }
    ensures source_later { Q.source_faults source.old ≤ Q.source_faults source.new }
    ensures sink_later { K.sink_faults sink.old ≤ K.sink_faults sink.new }
    ensures disk_later { D.faults (disk account) ≤ D.faults result.1 }
    ensures random_later { W.faults random.old ≤ W.faults random.new }
    ensures rotator_later { R.faults rotator.old ≤ R.faults rotator.new }
{
    let mut account = account;
    let ended = answer_source(
        alloc,
        people,
        &mut account,
        source,
        sink,
        clock,
        random,
        rotator,
    );
    account.invariants();
    (status_of(ended), account.close())
}

/// Writes a summary of what an account holds that was just opened.
fn check_opened<K: Sink, D: Disk, C: Clock, R: Rotator>(
    alloc: Global,
    account: Account<D, R>,
    sink: &mut K,
    clock: &mut C,
) -> (Status, D)
    requires fresh { history account ≡ [] }
    requires sure { failed account ≡ None }
    ensures shows { (now : moments) × (written : List ℕ)
        × (C.readings clock.new ≡ append_known (C.readings clock.old) (now.0 ∷ []))
        × (K.taken sink.new ≡ append_known (K.taken sink.old) written)
        × Shows (Rose (K.sink_faults sink.old) (K.sink_faults sink.new)) (base account).rows now
        (made_of (taken account)).entries result.0 written }
    ensures disk { result.1 ≡ disk account }
    ensures stands { (people : Persons) → Stands D.Disk (record {
      task = Summarize;
      people = people;
      taken = taken account;
      history = history account;
      failed = failed account;
    }) (began account) (disk account) }
    ensures vouched { ∥ StaysVouched R.replies (taken account) (history account) (failed account) ∥₁ }
    ensures sink_later { K.sink_faults sink.old ≤ K.sink_faults sink.new }
{
    account.invariants();
    let status = summarize(alloc, &account, sink, clock);
    (status, account.close())
}

/// Writes what brings a replica from a position to the end of an account that was just opened.
fn ship_opened<K: Sink, D: Disk, R: Rotator>(
    alloc: Global,
    position: u64,
    account: Account<D, R>,
    sink: &mut K,
) -> (Status, D)
    requires fresh { history account ≡ [] }
    requires sure { failed account ≡ None }
    ensures ships { (written : List ℕ) × (K.taken sink.new ≡ append_known (K.taken sink.old) written)
        × ShipsBy (Rose (K.sink_faults sink.old) (K.sink_faults sink.new)) (taken account) position result.0 written }
    ensures disk { result.1 ≡ disk account }
    ensures stands { (people : Persons) → Stands D.Disk (record {
      task = Ship position;
      people = people;
      taken = taken account;
      history = history account;
      failed = failed account;
    }) (began account) (disk account) }
    ensures vouched { ∥ StaysVouched R.replies (taken account) (history account) (failed account) ∥₁ }
    ensures sink_later { K.sink_faults sink.old ≤ K.sink_faults sink.new }
{
    account.invariants();
    let status = ship_frames(alloc, &account, position, sink);
    (status, account.close())
}

/// Answers the messages that a number makes on an account that was just opened, and says how that went.
fn practise_opened<K: Sink, D: Disk, C: Clock, W: Words, R: Rotator>(
    alloc: Global,
    number: u64,
    people: &People,
    account: Account<D, R>,
    sink: &mut K,
    clock: &mut C,
    random: &mut W,
    rotator: &mut R,
) -> (Status, D)
    requires { IsJustOpened account }
    ensures ran { (left : Option (List ℕ)) → (source : ℕ) → (story : Story) × (story.task ≡ Practise number)
        × (story.people ≡ people.now) × (story.taken ≡ taken account)
        × Runs (course_of R.replies story) result.0
        (outside_beside left source K.Sink C.Clock W.Words R.Rotator sink.old (D.faults (began account)) clock.old
        random.old rotator.old)
        (outside_beside left source K.Sink C.Clock W.Words R.Rotator sink.new (D.faults result.1) clock.new random.new
        rotator.new)
        × Stands D.Disk story (began account) result.1
        × ∥ StaysVouched R.replies story.taken story.history story.failed ∥₁ }
    ensures opened { WasOpened result.0 }
    ensures sink_later { K.sink_faults sink.old ≤ K.sink_faults sink.new }
    ensures disk_later { D.faults (disk account) ≤ D.faults result.1 }
    ensures random_later { W.faults random.old ≤ W.faults random.new }
    ensures rotator_later { R.faults rotator.old ≤ R.faults rotator.new }
{
    let mut account = account;
    let status = practise(
        alloc,
        number,
        people,
        &mut account,
        sink,
        clock,
        random,
        rotator,
    );
    account.invariants();
    (status, account.close())
}
