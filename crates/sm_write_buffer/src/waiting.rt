//! What is pending of each file.
ghost use Rattle.std.specs.Prelude.{◌≡◌, ◌<◌, ℕ};
ghost use Rattle.sm_write_buffer.specs.Gathering.{pending_of, with_pending};
ghost use Rattle.sm_write_buffer.specs.declared.pending.Pending.TheVariants.{Nothing};

use crate::pending::Pending;
use std::mem;

/// What is pending of the three files of a disk.
#[derive(Drop)]
pub struct Waiting {
    journal_0: Pending,
    journal_1: Pending,
    root: Pending,
}

impl Waiting {
    /// Nothing is pending.
    pub fn nothing() -> Waiting
        ensures { (file : ℕ) → pending_of result file ≡ Nothing }
    {
        Waiting {
            journal_0: Pending::Nothing,
            journal_1: Pending::Nothing,
            root: Pending::Nothing,
        }
    }

    /// What is pending of a file.
    pub fn get(&self, file: u8) -> &Pending
        requires { file < 3 }
        ensures { result.now ≡ pending_of self.now file }
    {
        match file {
            0 => &self.journal_0,
            1 => &self.journal_1,
            _ => &self.root,
        }
    }

    /// Another thing is pending of a file.
    pub fn set(&mut self, file: u8, pending: Pending)
        requires { file < 3 }
        ensures set { self.new ≡ with_pending self.old file pending }
    {
        match file {
            0 => self.journal_0 = pending,
            1 => self.journal_1 = pending,
            _ => self.root = pending,
        }
    }

    /// Takes what is pending of a file out.
    pub fn take(&mut self, file: u8) -> Pending
        requires { file < 3 }
        ensures taken { result ≡ pending_of self.old file }
        ensures rest { self.new ≡ with_pending self.old file Nothing }
    {
        match file {
            0 => mem::replace(&mut self.journal_0, Pending::Nothing),
            1 => mem::replace(&mut self.journal_1, Pending::Nothing),
            _ => mem::replace(&mut self.root, Pending::Nothing),
        }
    }
}
