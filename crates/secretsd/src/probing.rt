//! Whether the system has threads for a server.
use std::sync::{Mutex, Wait};
use std::thread;
use std::thread::Threads;

/// Whether so many threads can stand beside this one. They are made, and end at once.
pub fn has_threads<H: Threads + Wait + Sync>(threads: &H, count: u32) -> bool {
    let gate = Mutex::new(());
    let shared = &gate;
    thread::scope(thread::scope_env(), threads, |scope| {
        let shut = shared.lock(threads);
        let mut has_all = true;
        for _ in 0..count {
            if has_all {
                has_all = scope.spawn(move || drop(shared.lock(threads))).is_ok();
            }
        }
        drop(shut);
        has_all
    })
}
