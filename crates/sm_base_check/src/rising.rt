//! Whether serials rise.
ghost use Rattle.std.specs.Prelude.{◌≡◌, ◌<◌, ◌∷◌, ℕ, List, Some, length, slice_get};
ghost use Rattle.sm_model.specs.declared.rows.SecretRow.{SecretRow};
ghost use Rattle.sm_model.specs.declared.rows.VersionRow.{VersionRow};
ghost use Rattle.sm_versions.specs.Serials.{rises, version_serials};
ghost use Rattle.sm_table.specs.Kept.{row_serials};
ghost use Rattle.sm_base_check.specs.Tests.{rises_from};

use sm_model::{List, SecretRow, SharedList, VersionRow};

/// Things that were made one after the other.
pub trait Made {
    ghost serials: { Self → List ℕ };

    fn count(&self) -> usize
        ensures { result ≡ length (serials self.now) };

    /// The serial of the thing at a place, counted from 0.
    fn serial(&self, at: usize) -> u64
        requires { at < length (serials self.now) }
        ensures { slice_get (serials self.now) at ≡ Some result };
}

/// Whether the serials of the things rise, and all of them are below the next one.
pub fn all_rise<T: Made>(things: &T, next: u64) -> bool
    ensures { result ≡ rises 0 (T.serials things.now) next }
{
    let mut low = 0;
    for at in 0..things.count() {
        match low_behind(low, things.serial(at), next) {
            Some(behind) => low = behind,
            None => return false,
        }
    }
    low <= next
}

/// From where on the serials may be that follow this one, or nothing where it may not stand there.
#[tactic(auto, using(crate::proofs::RisingLemmas::stands, crate::proofs::RisingLemmas::too_low, crate::proofs::RisingLemmas::too_high))]
fn low_behind(low: u64, serial: u64, next: u64) -> Option<u64>
    ensures { (rest : List ℕ) → rises low (serial ∷ rest) next ≡ rises_from result rest next }
{
    if serial < low {
        return None;
    }
    if serial == u64::MAX {
        return None;
    }
    Some(serial + 1)
}

/// Secrets were made one after the other.
impl Made for List<SecretRow> {
    ghost serials = { row_serials };

    #[tactic(auto, using(crate::proofs::RisingLemmas::row_serial_count))]
    fn count(&self) -> usize {
        self.len()
    }

    #[tactic(auto, using(crate::proofs::RisingLemmas::row_serial_at, crate::proofs::RisingLemmas::row_serial_none))]
    fn serial(&self, at: usize) -> u64 {
        match self.get(at) {
            Some(row) => row.serial,
            None => unreachable!(),
        }
    }
}

/// The versions of a secret were made one after the other.
impl Made for SharedList<VersionRow> {
    ghost serials = { version_serials };

    #[tactic(auto, using(crate::proofs::RisingLemmas::version_serial_count))]
    fn count(&self) -> usize {
        self.len()
    }

    #[tactic(auto, using(crate::proofs::RisingLemmas::version_serial_at, crate::proofs::RisingLemmas::version_serial_none))]
    fn serial(&self, at: usize) -> u64 {
        match self.get(at) {
            Some(version) => version.serial,
            None => unreachable!(),
        }
    }
}
