//! How many bytes the parts of a file have.
ghost use Rattle.std.specs.Prelude.{◌≡◌};
ghost use Rattle.sm_journal.specs.Records.{record_size};

/// How long the header of a file is: the place of the first record's gate.
pub const HEADER_SIZE: u64 = 8;

/// How many bytes the record of a body has: its gate, its length and itself.
pub fn record_size(body: &[u8]) -> u64
    ensures { result ≡ record_size body.now }
{
    5 + body.len() as u64
}
