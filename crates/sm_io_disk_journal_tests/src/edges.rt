//! Connections, and where they come from. Shown is of each accept `+`, `.` where none is left, or `!`; and of each
//! connection what it gives and takes.
use crate::fakes::FlakyListener;
use crate::forms::{put_once, read, second};
use crate::shown::Shown;
use sm_base::{Bytes, Fails, List, NoMemory};
use sm_io::{Accepted, Edge, ListenerEdge, MemoryConn, MemoryEdge, MemorySink, MemorySource};
use std::alloc::Global;
use std::sync::atomic::AtomicU64;
use std::test::Fail;

fn conn(alloc: Global, text: &str) -> Result<MemoryConn, NoMemory> {
    let bytes = Bytes::from_slice(alloc, text.as_bytes())?;
    let source = MemorySource::new(bytes, 4, Fails::never(alloc));
    Ok(MemoryConn::new(source, MemorySink::new(alloc, 2, Fails::never(alloc))))
}

fn two_conns(alloc: Global) -> Result<List<MemoryConn>, NoMemory> {
    let mut conns = Vec::new(alloc);
    conns.push(conn(alloc, "one")?)?;
    conns.push(conn(alloc, "two")?)?;
    Ok(List::new(conns))
}

/// Shows an accept, and what its connection gives and takes.
fn show_accept<N, E: Edge<N>>(alloc: Global, edge: &mut E, shown: &mut Shown)
where
    E::C: Drop,
{
    match edge.accept() {
        Accepted::Conn(mut conn) => {
            shown.push(b'+');
            read(alloc, &mut conn, 100, shown);
            put_once(&mut conn, shown);
        }
        Accepted::End => shown.push(b'.'),
        Accepted::Failed => shown.push(b'!'),
        Accepted::Memory => shown.push(b'?'),
    }
}

/// Four accepts of an edge in memory whose second fails.
fn show_memory_edge(alloc: Global, shown: &mut Shown) -> Result<(), NoMemory> {
    let fails = second(alloc)?;
    let mut edge: MemoryEdge<u8> = MemoryEdge::new(alloc, two_conns(alloc)?, fails);
    for _ in 0..4 {
        show_accept::<u8, MemoryEdge<u8>>(alloc, &mut edge, shown);
    }
    shown.push(b'0' + (edge.back().len() % 10) as u8);
    Ok(())
}

/// A connection of an edge in memory comes back with its note, and what was put stands in it.
fn show_return(alloc: Global, shown: &mut Shown) -> Result<(), NoMemory> {
    let mut edge: MemoryEdge<u8> = MemoryEdge::new(alloc, two_conns(alloc)?, Fails::never(alloc));
    if let Accepted::Conn(mut conn) = edge.accept() {
        put_once(&mut conn, shown);
        edge.done(conn, b'n');
    }
    for (conn, note) in edge.back() {
        shown.push(*note);
        shown.add(conn.sink().taken().as_slice());
    }
    Ok(())
}

/// Two accepts of a listener, the first of which fails.
fn show_listener(alloc: Global, shown: &mut Shown) {
    let calls = AtomicU64::new(0);
    let mut edge = ListenerEdge::new(FlakyListener { calls });
    for _ in 0..2 {
        show_accept::<u8, ListenerEdge<FlakyListener>>(alloc, &mut edge, shown);
    }
}

#[test]
fn edges_hand_out_connections(rt: HostRuntime) -> Result<(), Fail> {
    let mut shown = Shown::new(rt.alloc());
    show_memory_edge(rt.alloc(), &mut shown)?;
    shown.push(b' ');
    show_return(rt.alloc(), &mut shown)?;
    shown.push(b' ');
    show_listener(rt.alloc(), &mut shown);
    shown.compare(
        &rt,
        "an edge in memory, a connection that comes back, and a listener",
        b"+one..22222!+two..22222.0 22222nxyxyxyxyxy !+abc!.2!!!3",
    );
    Ok(())
}
