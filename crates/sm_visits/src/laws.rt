//! Laws of what is opened and given, over any run of calls.
ghost use Rattle.std.specs.Prelude.{◌≡◌};
ghost use Rattle.sm_visits.specs.Visits.{ArrivalsState, nothing_arrived, OpensInOneWay};
ghost use Rattle.sm_visits.specs.Histories.{nothing_happened, Told};
ghost use Rattle.sm_visits.specs.Places.{ThereAtFirst, ThereAtPrepare, ThereAtInsert, ThereAtChange, ThereAtTake, ThereAtPutBack, ThereAtRemove, FoundIsTold, BytesAtInsert, BytesAtChange, BytesAtTake, BytesAtRemove};
ghost use Rattle.sm_visits.specs.Laws.{ToldAtPush, ToldAtVisit, ToldAtOpen, ToldAtGive, VisitIsWhole, LastVisitIsRead, MessageHasBytes, EndedAtPush, EndedAtVisit, EndedAtOpen, EndedAtGive};

use crate::arrivals::{CONNECTION_LIMIT, VISIT_LIMIT};

/// The limits, in numbers: a constant that changes is refused here.
pub fn limits_are_as_stated()
    ensures visit { VISIT_LIMIT ≡ 50 }
    ensures connection { CONNECTION_LIMIT ≡ 1000 }
{}

/// What `open` answers is determined by what waits, by what was opened before, and by whether more may come.
pub fn opens_in_one_way()
    ensures { OpensInOneWay }
{}

/// However the bytes of a connection are cut into pushes, and its messages into visits, what was opened are whole
/// messages of all bytes that came, one after the other, and each byte is given once; where the last is opened, they
/// are all messages, or the first 1,000.
pub fn all_is_told()
    ensures begins { Told nothing_happened nothing_arrived }
    ensures push { ToldAtPush }
    ensures visit { ToldAtVisit }
    ensures open { ToldAtOpen }
    ensures give { ToldAtGive }
{}

/// What is given in a visit are whole messages, at most 50, and at least one where a byte is given; or the last with
/// those before it.
pub fn visits_are_whole()
    ensures whole { VisitIsWhole }
    ensures last { LastVisitIsRead }
    ensures bytes { MessageHasBytes }
{}

/// After the last nothing is opened, and what was told of it stays, whatever comes.
pub fn the_last_stays()
    ensures push { EndedAtPush }
    ensures visit { EndedAtVisit }
    ensures open { EndedAtOpen }
    ensures give { EndedAtGive }
{}

/// Each call keeps this of all connections that came to a worker: each that was not removed is at the place that it was
/// given, as the calls for that place left it, and no other has that place. A visit, a change or a removal leaves all
/// others as they are.
pub fn each_is_there<C>()
    ensures begins { ThereAtFirst C }
    ensures prepare { ThereAtPrepare C }
    ensures insert { ThereAtInsert C }
    ensures change { ThereAtChange C }
    ensures take { ThereAtTake C }
    ensures back { ThereAtPutBack C }
    ensures remove { ThereAtRemove C }
{}

/// Each call keeps this of the bytes: those of the connection at a place are what came there since the place was given
/// to it, whatever came on others. Each was given once or waits.
pub fn bytes_are_their_own<C>()
    ensures found { (arrivals : C → ArrivalsState) → FoundIsTold arrivals }
    ensures insert { (arrivals : C → ArrivalsState) → BytesAtInsert arrivals }
    ensures change { (arrivals : C → ArrivalsState) → BytesAtChange arrivals }
    ensures take { (arrivals : C → ArrivalsState) → BytesAtTake arrivals }
    ensures remove { (arrivals : C → ArrivalsState) → BytesAtRemove arrivals }
{}
