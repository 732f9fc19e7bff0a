//! The system's random source, which says where it fails.
use crate::reports::{Kind, Reports};
use std::io;
use std::random::RandomSource;

/// The system's random source. Each error is said.
#[derive(Drop)]
pub struct SaidRandom<'a> {
    pub rt: &'a HostRuntime,
    pub reports: &'a Reports<'a>,
}

impl<'a> RandomSource for SaidRandom<'a> {
    fn fill_bytes(&self, buf: &mut [u8]) -> io::Result<()> {
        let filled = self.rt.fill_bytes(buf);
        if let Err(error) = &filled {
            let error = *error;
            self.reports.say(
                Kind::Random,
                format_args!("the system's random source failed: {error}"),
            );
        }
        filled
    }
}
