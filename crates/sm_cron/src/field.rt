//! The fields of a schedule that names hours.
ghost use Rattle.std.specs.Prelude.{◌≡◌, ◌≤◌, length, map};
ghost use Rattle.sm_cron.specs.Spelling.{greatest, least, may_be_open, names};

static MONTHS: [&str; 12] = [
    "JAN", "FEB", "MAR", "APR", "MAY", "JUN", "JUL", "AUG", "SEP", "OCT", "NOV", "DEC",
];

static WEEKDAYS: [&str; 7] = ["SUN", "MON", "TUE", "WED", "THU", "FRI", "SAT"];

/// A field: what it counts.
#[derive(Clone, Copy)]
pub(crate) enum Field {
    Hours,
    Days,
    Months,
    Weekdays,
}

impl Field {
    ghost use Rattle.sm_cron.specs.Spelling.{greatest, least, may_be_open, names};

    /// Its least number.
    pub(crate) fn least(self) -> u32
        ensures { result ≡ least self }
    {
        match self {
            Field::Hours => 0,
            Field::Days | Field::Months | Field::Weekdays => 1,
        }
    }

    /// Its greatest number.
    pub(crate) fn greatest(self) -> u32
        ensures { result ≡ greatest self }
    {
        match self {
            Field::Hours => 23,
            Field::Days => 31,
            Field::Months => 12,
            Field::Weekdays => 7,
        }
    }

    /// Whether it may be `?`, which is `*`.
    pub(crate) fn may_be_open(self) -> bool
        ensures { result ≡ may_be_open self }
    {
        match self {
            Field::Days | Field::Weekdays => true,
            Field::Hours | Field::Months => false,
        }
    }

    /// The names of its numbers, from 1 on.
    #[tactic(auto, unfolding(crate::specs::Spelling::names))]
    pub(crate) fn names(self) -> &'static [&'static str]
        ensures names { map (λ name. name.now) result.now ≡ names self }
        ensures few { length result.now ≤ 12 }
    {
        match self {
            Field::Months => &MONTHS,
            Field::Weekdays => &WEEKDAYS,
            Field::Hours | Field::Days => &[],
        }
    }
}
