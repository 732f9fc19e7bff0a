//! The secrets of an account.
use sm_account::Account;
use sm_base::NoMemory;
use sm_disk::Disk;
use sm_encoded_size::note_spelled;
use sm_model::Moment;
use sm_record::Base;
use sm_replication::{EncodeRefused, Frame, encode};
use sm_rotator::Rotator;
use std::alloc::Global;

/// All secrets as a frame of rows, in hexadecimal digits, or words where they are too many for one.
pub fn rows_of<D: Disk, R: Rotator>(
    alloc: Global,
    account: &Account<D, R>,
) -> Result<String, NoMemory> {
    account.invariants();
    let base = Base {
        rows: account.table().rows()?,
        last: Moment(0),
        entries: account.entries(),
    };
    note_spelled(&base);
    match encode(alloc, &Frame::Rows(0, base)) {
        Ok(bytes) => Ok(hex::encode(alloc, bytes.as_slice())?),
        Err(EncodeRefused::TooLong) => Ok(String::from_str(alloc, "too long")?),
        Err(EncodeRefused::Memory) => Err(NoMemory),
    }
}
