//! Mode serve: workers at an address.
ghost use Rattle.std.specs.Prelude.{◌≡◌, ◌+◌, All, OnOk, vec_len};
ghost use Rattle.sm_command_line.specs.Reading.{IsInBounds};
ghost use Rattle.sm_workers.specs.Workers.{IsFresh};

use crate::connections::Connections;
use crate::crew::{Ground, Hand, Lack, add_connection_workers, add_rotation_workers};
use crate::folder_disk::FolderDisk;
use crate::opening::Opening;
use crate::orders::{Orders, empty_disk};
use crate::probing::has_threads;
use crate::rotators::{Linked, Local, MakeRotator};
use crate::welcome::Welcome;
use sm_command_line::Settings;
use sm_disk::Disk;
use sm_model::NoMemory;
use sm_server::{RanBy, Status, run_server};
use sm_write_buffer::Gathered;
use std::io;
use std::io::ErrorKind;
use std::net::{TcpListener, ToSocketAddrs};
use std::sync::Wait;
use std::thread::Threads;

/// Serves until a signal ends the program, where the system has a thread for each worker.
pub fn serve<H: Threads + Wait + Sync>(rt: &HostRuntime, threads: &H, orders: &Orders) -> Status
    requires { IsInBounds orders.now.settings.now }
{
    // This thread works too.
    let count = orders.settings.connections + orders.settings.workers - 1;
    if has_threads(threads, count) {
        listen(rt, threads, orders)
    } else {
        let _ = eprintln!(rt;
            "secretsd: the {count} threads for the connections and rotations can't be made"
        );
        Status::EdgeFault
    }
}

/// Listens at the address that the words name, and serves there.
fn listen<H: Threads + Wait + Sync>(rt: &HostRuntime, threads: &H, orders: &Orders) -> Status
    requires { IsInBounds orders.now.settings.now }
{
    let address = orders.settings.listen.as_str();
    match bind(rt, address) {
        Ok(listener) => serve_disk(rt, threads, orders, &listener),
        Err(error) => {
            let _ = eprintln!(rt; "secretsd: can't listen on {address}: {error}");
            Status::EdgeFault
        }
    }
}

/// A listener at the first address of a host and a port where one can be, which doesn't block. As many connections wait
/// there as the system allows.
pub fn bind(rt: &HostRuntime, address: &str) -> io::Result<TcpListener> {
    let mut failed = io::Error::from(ErrorKind::AddrNotAvailable);
    for place in address.to_socket_addrs(rt)? {
        match mio::net::TcpListener::bind(rt, place) {
            Ok(listener) => return Ok(TcpListener::from(listener)),
            Err(error) => failed = error,
        }
    }
    Err(failed)
}

/// What a server stands on.
#[derive(Drop)]
struct Site<'a, H> {
    rt: &'a HostRuntime,
    threads: &'a H,
    orders: &'a Orders<'a>,
    listener: &'a TcpListener,
    opening: &'a Opening<'a>,
}

/// Serves over the folder that is named, and else over a disk in memory.
fn serve_disk<H: Threads + Wait + Sync>(
    rt: &HostRuntime,
    threads: &H,
    orders: &Orders,
    listener: &TcpListener,
) -> Status
    requires { IsInBounds orders.now.settings.now }
{
    let opening = Opening::new(rt);
    let site = Site {
        rt,
        threads,
        orders,
        listener,
        opening: &opening,
    };
    match &orders.settings.folder {
        Some(folder) => serve_folder(&site, folder.as_str()),
        None => match empty_disk(rt.alloc()) {
            Ok(disk) => serve_over(&site, disk),
            Err(NoMemory) => Status::Memory,
        },
    }
}

/// Serves over a folder.
fn serve_folder<H: Threads + Wait + Sync>(site: &Site<H>, folder: &str) -> Status
    requires { IsInBounds site.now.orders.now.settings.now }
{
    let rt = site.rt;
    match FolderDisk::open(rt, folder, site.orders.reports, site.opening) {
        Ok(disk) => serve_over(site, Gathered::new(rt.alloc(), disk)),
        Err(refused) => {
            let _ = eprintln!(rt; "secretsd: the folder {folder} can't be opened: {refused}");
            Status::OpenFault
        }
    }
}

/// Serves over a disk, with the local rotator or those behind an address.
fn serve_over<D: Disk + Drop + Send, H: Threads + Wait + Sync>(site: &Site<H>, disk: D) -> Status
    requires { IsInBounds site.now.orders.now.settings.now }
{
    let rt = site.rt;
    let reports = site.orders.reports;
    let address = &site.orders.settings.rotator;
    if address.as_str() == "local" {
        let alloc = rt.alloc();
        serve_with(site, disk, &Local { alloc, reports })
    } else {
        let linked = Linked {
            rt,
            reports,
            address,
        };
        serve_with(site, disk, &linked)
    }
}

/// Serves with these rotators.
fn serve_with<D: Disk + Drop + Send, M: MakeRotator, H: Threads + Wait + Sync>(
    site: &Site<H>,
    disk: D,
    rotators: &M,
) -> Status
    requires { IsInBounds site.now.orders.now.settings.now }
{
    let welcome = Welcome {
        settings: site.orders.settings,
        opening: site.opening,
    };
    let workers = site.orders.settings.connections as usize;
    let connections = Connections::new(site.rt, Some(&welcome), workers);
    let ground = Ground {
        rt: site.rt,
        threads: site.threads,
        connections: &connections,
        listener: site.listener,
        reports: site.orders.reports,
        log: site.orders.settings.log,
    };
    serve_on(&ground, site.orders, site.opening, disk, rotators)
}

/// Serves with workers that stand on this ground.
fn serve_on<'a, D: Disk + Drop + Send, M: MakeRotator, H: Threads + Wait + Sync>(
    ground: &Ground<'a, H>,
    orders: &'a Orders<'a>,
    opening: &'a Opening<'a>,
    disk: D,
    rotators: &M,
) -> Status
    requires { IsInBounds orders.now.settings.now }
{
    let alloc = ground.rt.alloc();
    let mut workers: Vec<Hand<'a, H, D, M::Made>> = Vec::new(alloc);
    let settings = orders.settings;
    if let Err(lack) = add_all(ground, &mut workers, rotators, settings) {
        return say_lack(ground.rt, lack);
    }
    let ran = run_server(
        ground.threads,
        alloc,
        orders.words,
        workers.as_mut_slice(),
        disk,
        orders.people,
        opening,
    );
    match ran {
        RanBy::Opened(status, _) => status,
        RanBy::Unopened(status, _) => status,
    }
}

/// Says what lacks, where that is not memory.
fn say_lack(rt: &HostRuntime, lack: Lack) -> Status {
    match lack {
        Lack::Memory => Status::Memory,
        Lack::System(error) => {
            let _ = eprintln!(rt; "secretsd: connections can't be polled: {error}");
            Status::EdgeFault
        }
    }
}

/// Adds all workers that the settings ask for: connection workers and rotation workers.
fn add_all<'a, H: Wait, D: Disk + Drop, M: MakeRotator>(
    ground: &Ground<'a, H>,
    workers: &mut Vec<Hand<'a, H, D, M::Made>>,
    rotators: &M,
    settings: &Settings,
) -> Result<(), Lack>
    requires none { vec_len workers.old ≡ 0 }
    ensures all { OnOk result (All IsFresh workers.new.items) }
    ensures long { OnOk result (vec_len workers.new ≡ settings.now.connections + settings.now.workers) }
{
    add_connection_workers(ground, workers, settings.connections)?;
    add_rotation_workers(ground, workers, rotators, settings.workers)?;
    Ok(())
}
