//! Two seats of one account, of which one tells the other what it has seen.
ghost use Rattle.std.specs.Prelude.{IfOk};
ghost use Rattle.sm_lock.specs.Handles.{IsIn};

use crate::gates::for_two;
use crate::runs::{Kept, open};
use sm_base::Moment;
use sm_io::{CountWords, FixedClock};
use sm_lock::{Gate, Pass};
use sm_memory_fixtures::connections::{WELL, connection};
use sm_memory_fixtures::disks::disk_of;
use sm_memory_fixtures::exchanges::{APP_MADE, B_MADE, GET, GET_APP, OK, SECOND_VALUE, spoken};
use sm_model::Fails;
use sm_principal::People;
use sm_session::serve;
use std::alloc::Global;
use std::sync::Wait;
use std::test::Fail;

/// A session of one connection in which everybody may ask: the pass again, and what was written.
fn talk<R: Wait>(
    rt: &R,
    alloc: Global,
    gate: &Gate<Kept>,
    pass: Pass<Kept>,
    input: &[u8],
) -> Result<(Pass<Kept>, Vec<u8>), Fail>
    requires { IsIn gate.now pass }
    ensures { IfOk result (λ r. IsIn gate.now r.0) }
{
    let mut conn = connection(alloc, input, &WELL)?;
    let mut clock = FixedClock::new(Moment(1_700_000_000));
    let mut words = CountWords::new(alloc, 0, Fails::never(alloc));
    let served = serve(
        rt,
        alloc,
        gate,
        pass,
        &mut conn,
        &mut clock,
        &mut words,
        &People::Everybody,
    );
    let written = Vec::from_slice(alloc, conn.sink().taken().as_slice())?;
    Ok((served.pass, written))
}

/// A put on the first seat, a note of it told and heard, and what a read on the second seat is answered.
fn read_behind_a_note<R: Wait>(
    rt: &R,
    alloc: Global,
    puts: &[u8],
    reads: &[u8],
) -> Result<Option<Vec<u8>>, Fail> {
    let Some(account) = open(alloc, disk_of(alloc, b"", Fails::never(alloc))?) else {
        return Ok(None);
    };
    let Ok((gate, one, two)) = for_two(alloc, account) else {
        return Ok(None);
    };
    let (one, _) = talk(rt, alloc, &gate, one, puts)?;
    let (_one, note) = gate.tell(one);
    let two = gate.hear(two, note);
    let (_two, written) = talk(rt, alloc, &gate, two, reads)?;
    Ok(Some(written))
}

#[test]
fn a_note_carries_what_was_put(rt: HostRuntime) -> Result<(), Fail> {
    let alloc = rt.alloc();
    let (puts, _) = spoken(alloc, &[APP_MADE, B_MADE])?;
    let (reads, output) = spoken(alloc, &[(GET, GET_APP, OK, SECOND_VALUE)])?;
    let written = read_behind_a_note(&rt, alloc, puts.as_slice(), reads.as_slice())?;
    assert!(rt; written.is_some_and(|written| written.as_slice() == output.as_slice()));
    Ok(())
}
