//! Laws of admissions.
ghost use Rattle.sm_access.specs.Laws.{AdmitsByPolicy, DenialNamesFirst};

/// On sound secrets a person is admitted exactly where no statement of the secret's policy denies it, and the person is
/// full or some statement allows it; and a denial names the first statement that denies.
pub fn policies_admit_as_stated()
    ensures admits { AdmitsByPolicy }
    ensures first { DenialNamesFirst }
{}
