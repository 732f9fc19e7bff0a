//! Whether what a disk holds is lawful, and what it makes.
ghost use Rattle.std.specs.Prelude.{◌≡◌, ◌≤◌, ◌<◌, ◌^◌, ◌+◌, ℕ, List, length, map, flat_map, IfOk, IfErr};
ghost use Rattle.sm_journal.specs.Records.{size, record_size, place_behind};
ghost use Rattle.sm_record.specs.Snapshots.{snapshot, secret_bodies};
ghost use Rattle.sm_record.specs.Spelling.{spelling, HasSpelling};
ghost use Rattle.sm_recovery.specs.Following.{StopsAt};
ghost use Rattle.sm_base_check.specs.Bases.{IsSound};
ghost use Rattle.sm_store.specs.Openings.{held_of, IsFront};
ghost use Rattle.sm_store.specs.Held as held;
ghost use Rattle.sm_store.specs.Held.{base_bodies, bodies_in, AreEntries, IsSpelledIn};
ghost use Rattle.sm_recovery.specs.Lawful.{base_under, made_of, IsLawful};
ghost use Rattle.sm_recovery.specs.declared.lawful.Unlawful.TheVariants as whys;
ghost use Rattle.sm_recovery.specs.Unlawful.{IsUnsoundBase, IsUnlawful, IsFirstFault, IsToldBehind, OnDamaged};

use crate::{ReplayState, Stopped};
use sm_base_check::is_sound;
use sm_journal::{HEADER_SIZE, record_size};
use sm_model::{Bytes, Entry, NoMemory, SecretRow};
use sm_record::{Base, Edition, encode, encode_first};
use sm_store::{Damage, Front, Loaded, edition_of};
use std::alloc::Global;

/// Why what a disk holds makes nothing.
#[derive(Clone, Copy, Debug, PartialEq, Eq)]
pub enum Unlawful {
    /// The base is not sound, an entry is not legal, or a body is no entry's spelling.
    Damaged(Damage),
    Memory,
}

impl From<NoMemory> for Unlawful {
    ghost from_gives = { λ _ why. why ≡ whys.Memory };

    fn from(_error: NoMemory) -> Unlawful {
        Unlawful::Memory
    }
}

/// What a disk holds makes this, where the base is sound and each of the entries legal at the rows of those before it.
pub fn lawful(alloc: Global, edition: Edition, loaded: &Loaded) -> Result<ReplayState, Unlawful>
    requires spelled { IsSpelledIn edition (held_of loaded.now) }
    requires gate { loaded.now.gate ≡ place_behind (base_bodies edition loaded.now.base) }
    requires short { place_behind (bodies_in edition (held_of loaded.now)) < 2 ^ 64 }
    ensures made { IfOk result (λ replayed. replayed ≡ made_of (held_of loaded.now)) }
    ensures lawful { IfOk result (λ replayed. IsLawful (held_of loaded.now)) }
    ensures refused { IfErr result (OnDamaged (IsUnlawful edition (held_of loaded.now))) }
{
    match replayed_under(alloc, &loaded.base) {
        Ok(replayed) => go_behind(alloc, edition, loaded, replayed),
        Err(why) => Err(why),
    }
}

/// The first fault of bodies of which one is no entry's spelling: of what is before that body, or that body.
pub fn first_fault(alloc: Global, front: &Front) -> Unlawful
    requires { (bodies : List (List ℕ)) × IsFront bodies front.now }
    ensures { (bodies : List (List ℕ)) → IsFront bodies front.now →
        OnDamaged (IsFirstFault (held.edition_of front.now.format) bodies) result }
{
    match lawful(alloc, edition_of(front.format), &front.loaded) {
        Ok(replayed) => {
            drop(replayed);
            Unlawful::Damaged(front.damage)
        }
        Err(why) => why,
    }
}

/// Where entries begin that are counted from the base, if there is one and it is sound.
fn replayed_under(alloc: Global, base: &Option<Base>) -> Result<ReplayState, Unlawful>
    ensures replayed { IfOk result (λ replayed. replayed ≡ base_under base.now) }
    ensures sound { IfOk result (λ replayed. IsSound (base_under base.now)) }
    ensures refused { IfErr result (OnDamaged (IsUnsoundBase (base_under base.now))) }
{
    match base {
        Some(base) => replayed_on(alloc, base),
        None => Ok(ReplayState::new(alloc)),
    }
}

/// The same of a base.
fn replayed_on(alloc: Global, base: &Base) -> Result<ReplayState, Unlawful>
    ensures replayed { IfOk result (λ replayed. replayed ≡ base.now) }
    ensures sound { IfOk result (λ replayed. IsSound base.now) }
    ensures refused { IfErr result (OnDamaged (IsUnsoundBase base.now)) }
{
    if !is_sound(alloc, base)? {
        return Err(Unlawful::Damaged(Damage {
            at: HEADER_SIZE,
            entry: 0,
        }));
    }
    Ok(ReplayState::of(alloc, base)?)
}

/// What the entries make that begin there.
fn go_behind(
    alloc: Global,
    edition: Edition,
    loaded: &Loaded,
    replayed: ReplayState,
) -> Result<ReplayState, Unlawful>
    requires spelled { IsSpelledIn edition (held_of loaded.now) }
    requires gate { loaded.now.gate ≡ place_behind (base_bodies edition loaded.now.base) }
    requires short { place_behind (bodies_in edition (held_of loaded.now)) < 2 ^ 64 }
    requires begins { replayed ≡ base_under loaded.now.base }
    requires sound { IsSound (base_under loaded.now.base) }
    ensures made { IfOk result (λ replayed. replayed ≡ made_of (held_of loaded.now)) }
    ensures lawful { IfOk result (λ replayed. IsLawful (held_of loaded.now)) }
    ensures refused { IfErr result (OnDamaged (IsUnlawful edition (held_of loaded.now))) }
{
    match replayed.go_on(alloc, loaded.entries.as_slice()) {
        Ok(replayed) => Ok(replayed),
        Err(stopped) => Err(stopped_behind(alloc, edition, loaded, stopped)),
    }
}

/// What is told where not all entries were made again.
fn stopped_behind(alloc: Global, edition: Edition, loaded: &Loaded, stopped: Stopped) -> Unlawful
    requires spelled { IsSpelledIn edition (held_of loaded.now) }
    requires gate { loaded.now.gate ≡ place_behind (base_bodies edition loaded.now.base) }
    requires short { place_behind (bodies_in edition (held_of loaded.now)) < 2 ^ 64 }
    requires sound { IsSound (base_under loaded.now.base) }
    requires stops { StopsAt (base_under loaded.now.base) loaded.now.entries stopped }
    ensures { OnDamaged (IsUnlawful edition (held_of loaded.now)) result }
{
    match stopped {
        Stopped::Illegal(count) => told_behind(alloc, edition, loaded, count),
        Stopped::Memory => Unlawful::Memory,
    }
}

/// What is told of the entry behind so many others.
fn told_behind(alloc: Global, edition: Edition, loaded: &Loaded, count: usize) -> Unlawful
    requires within { count ≤ length loaded.now.entries }
    requires spelled { IsSpelledIn edition (held_of loaded.now) }
    requires gate { loaded.now.gate ≡ place_behind (base_bodies edition loaded.now.base) }
    requires short { place_behind (bodies_in edition (held_of loaded.now)) < 2 ^ 64 }
    ensures { OnDamaged (IsToldBehind edition (held_of loaded.now) count) result }
{
    let front = loaded.entries.as_slice().split_at(count).0;
    match place_behind(alloc, edition, loaded.gate, front) {
        Ok(at) => {
            let entry = bodies_count(edition, &loaded.base) + count as u64;
            Unlawful::Damaged(Damage { at, entry })
        }
        Err(NoMemory) => Unlawful::Memory,
    }
}

/// The place of the gate behind entries, of which the first has its gate at this place.
fn place_behind(
    alloc: Global,
    edition: Edition,
    gate: u64,
    entries: &[Entry],
) -> Result<u64, NoMemory>
    requires spelled { AreEntries edition entries.now }
    requires short { gate + size (map (spelling edition) entries.now) < 2 ^ 64 }
    ensures { IfOk result (λ place. place ≡ gate + size (map (spelling edition) entries.now)) }
{
    let mut place = gate;
    for entry in entries {
        let size = spelled_size(alloc, edition, entry)?;
        place += size;
    }
    Ok(place)
}

/// How many bytes the record of an entry has.
fn spelled_size(alloc: Global, edition: Edition, entry: &Entry) -> Result<u64, NoMemory>
    requires { HasSpelling edition entry.now }
    ensures { IfOk result (λ n. n ≡ record_size (spelling edition entry.now)) }
{
    let body = spelled(alloc, edition, entry)?;
    Ok(record_size(body.as_slice()))
}

/// The spelling of an entry that has one.
fn spelled(alloc: Global, edition: Edition, entry: &Entry) -> Result<Bytes, NoMemory>
    requires { HasSpelling edition entry.now }
    ensures { IfOk result (λ bytes. bytes ≡ spelling edition entry.now) }
{
    match edition {
        Edition::First => encode_first(alloc, entry),
        Edition::Second => encode(alloc, entry),
    }
}

/// How many bodies a base has, or none.
fn bodies_count(edition: Edition, base: &Option<Base>) -> u64
    requires { length (base_bodies edition base.now) < 2 ^ 64 }
    ensures { result ≡ length (base_bodies edition base.now) }
{
    match base {
        Some(base) => snapshot_count(edition, base),
        None => 0,
    }
}

/// How many bodies a base has: one before all secrets, one for each secret, and one for each version.
#[tactic(auto, using(crate::proofs::PlaceLemmas::base_count))]
fn snapshot_count(edition: Edition, base: &Base) -> u64
    requires { length (snapshot edition base.now) < 2 ^ 64 }
    ensures { result ≡ length (snapshot edition base.now) }
{
    1 + secrets_count(edition, base.rows.secrets.as_slice())
}

/// How many bodies secrets have: one for each, and one for each of its versions.
fn secrets_count(_edition: Edition, secrets: &[SecretRow]) -> u64
    requires { length (flat_map (secret_bodies _edition) secrets.now) < 2 ^ 64 }
    ensures { result ≡ length (flat_map (secret_bodies _edition) secrets.now) }
{
    let mut count = 0;
    for row in secrets {
        let own = 1 + row.versions.len() as u64;
        count += own;
    }
    count
}
