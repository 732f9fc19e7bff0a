//! What a text is to a language.
ghost use Rattle.std.specs.Prelude.{◌≡◌, option_map};
ghost use Rattle.sm_cron.specs.Languages.{or_reading, parted, reading_of, unfinished, word};

/// What a text is to a language.
#[derive(Clone, Copy)]
pub(crate) enum Reading<T> {
    /// One of its texts, with what it says.
    Text(T),
    /// None, but the beginning of one.
    Front,
    /// Neither.
    Fault,
}

impl<T: Copy + Drop> Reading<T> {
    /// What the text is to the texts of two languages.
    pub(crate) fn or(self, other: Reading<T>) -> Reading<T>
        ensures { result ≡ or_reading self other }
    {
        match self {
            Reading::Text(says) => Reading::Text(says),
            Reading::Front => match other {
                Reading::Text(says) => Reading::Text(says),
                Reading::Front => Reading::Front,
                Reading::Fault => Reading::Front,
            },
            Reading::Fault => other,
        }
    }

    /// What the text is to a language whose texts go on where those of this one end.
    pub(crate) fn unfinished<U>(self) -> Reading<U>
        ensures { result ≡ unfinished self }
    {
        match self {
            Reading::Text(_) => Reading::Front,
            Reading::Front => Reading::Front,
            Reading::Fault => Reading::Fault,
        }
    }
}

/// What a text is to a word that says this.
#[tactic(auto, unfolding(crate::specs::Languages::reading_of, crate::specs::Languages::word))]
pub(crate) fn word<T: Copy + Drop>(bytes: &[u8], says: T, text: &[u8]) -> Reading<T>
    ensures { result ≡ reading_of (word bytes.now says) text.now }
{
    if text == bytes {
        Reading::Text(says)
    } else if bytes.starts_with(text) {
        Reading::Front
    } else {
        Reading::Fault
    }
}

/// What stands before the first mark of a text, and what behind it, where there is one.
#[tactic(auto, using(crate::proofs::PartedLemmas::parted_at, crate::proofs::PartedLemmas::parted_ended))]
pub(crate) fn parted(mark: u8, text: &[u8]) -> Option<(&[u8], &[u8])>
    ensures { option_map (λ parts. (parts.0.now, parts.1.now)) result ≡ parted mark text.now }
{
    for (place, byte) in text.iter().enumerate() {
        if *byte == mark {
            return Some((&text[..place], &text[place + 1..]));
        }
    }
    None
}
