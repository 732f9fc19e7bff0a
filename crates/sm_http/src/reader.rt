//! The messages of a source, one after the other, however it cuts its bytes (RFC 9112, in the profile of this server).
ghost use Rattle.std.specs.Prelude.{◌≡◌, ℕ, ◌+◌, ◌<◌, ◌≤◌, List, [], length, take, Some, None, IfSome, IfNone, if◌then◌else◌};
ghost use Rattle.std.specs.Io.KnownBytes.{IsAtEnd};
ghost use Rattle.sm_base.specs.Faults.{Rose};
ghost use Rattle.sm_http.specs.Heads.{field_limit, head_length};
ghost use Rattle.sm_http.specs.Messages.{IsPartial};
ghost use Rattle.sm_http.specs.Ahead.{Moves, OnMore, OnNoMore, OnMoreEnd, OnMoreFailed, StaysUnlessMoreFailed};
ghost use Rattle.sm_http.specs.Fronts.{IsWholeHead};
ghost use Rattle.sm_http.specs.Reading.{Reads, OnStreamEnd, OnReadFault, StaysUnlessReadFault};
ghost use Rattle.sm_http.specs.Waiting.{LacksHead, IsSought, OnSoughtEnd, OnSoughtFailed, StaysUnlessSoughtFailed, StaysUnlessFoundFault, Finds, FindsMore, IfStopped, OnStopEnd, OnStopFault};

use crate::ahead::{Ahead, More};
use crate::answer::{Message, Next, Stop, stopped};
use crate::message::{FieldRoom, HEAD_LIMIT, field_room};
use crate::owned::{Parts, own};
use crate::request::{HeadRead, head_length, read_head};
use httparse::spans::{HeaderSpan, RequestSpans};
use sm_base::BadKind;
use sm_io::Source;
use std::alloc::Global;
use std::marker::Model;

/// What a search for the next message gives.
#[derive(Drop)]
enum Found {
    /// The message, which takes so many bytes.
    Message(Message, usize),
    /// No message, and why.
    Stop(Stop),
}

/// How the search for a head's end ended.
#[derive(Clone, Copy, Debug, PartialEq, Eq)]
enum Sought {
    /// The head has so many bytes.
    Head(usize),
    TooLong,
    End,
    Failed,
    Memory,
}

/// Takes more bytes until the head at the front is whole, or too long. No byte is looked at twice, save the last three.
fn seek_head<S: Source>(ahead: &mut Ahead, source: &mut S) -> Sought
    ensures moves { Moves ahead.old ahead.new (S.left source.old) (S.left source.new) }
    ensures sought { IsSought ahead.new result }
    ensures end { OnSoughtEnd result (IsAtEnd (S.left source.new)) }
    ensures failed { OnSoughtFailed result (Rose (S.source_faults source.old) (S.source_faults source.new)) }
    ensures later { S.source_faults source.old ≤ S.source_faults source.new }
    ensures no_other { StaysUnlessSoughtFailed result (S.source_faults source.old) (S.source_faults source.new) }
    ensures beside { S.beside_source source.new ≡ S.beside_source source.old }
    ensures still { (LacksHead ahead.old → ⊥) → (source.new ≡ source.old) × (ahead.new ≡ ahead.old) }
{
    let mut passed = 0;
    while ahead.len() < HEAD_LIMIT {
        match head_length(ahead.as_slice(), passed) {
            Some(end) => return Sought::Head(end),
            None => {}
        }
        passed = ahead.len().saturating_sub(3);
        match ahead.take_more(source) {
            More::Got => {}
            More::End => return Sought::End,
            More::Failed => return Sought::Failed,
            More::Memory => return Sought::Memory,
        }
    }
    match head_length(ahead.as_slice(), passed) {
        Some(end) => Sought::Head(end),
        None => Sought::TooLong,
    }
}

/// Takes more bytes until so many are there.
pub fn await_bytes<S: Source>(ahead: &mut Ahead, source: &mut S, count: usize) -> More
    ensures moves { Moves ahead.old ahead.new (S.left source.old) (S.left source.new) }
    ensures there { OnMore result (count ≤ length ahead.new) }
    ensures missing { OnNoMore result (length ahead.new < count) }
    ensures end { OnMoreEnd result (IsAtEnd (S.left source.new)) }
    ensures failed { OnMoreFailed result (Rose (S.source_faults source.old) (S.source_faults source.new)) }
    ensures later { S.source_faults source.old ≤ S.source_faults source.new }
    ensures no_other { StaysUnlessMoreFailed result (S.source_faults source.old) (S.source_faults source.new) }
    ensures beside { S.beside_source source.new ≡ S.beside_source source.old }
    ensures still { count ≤ length ahead.old → source.new ≡ source.old }
{
    while ahead.len() < count {
        match ahead.take_more(source) {
            More::Got => {}
            More::End => return More::End,
            More::Failed => return More::Failed,
            More::Memory => return More::Memory,
        }
    }
    More::Got
}

/// Takes the message at the front, whose head's text is so long and says so. Without memory all bytes stay.
fn take_message(
    alloc: Global,
    ahead: &mut Ahead,
    at: u64,
    spans: RequestSpans,
    headers: &[HeaderSpan],
    size: usize,
) -> Found
    requires whole { IsWholeHead ahead.old (take spans.len ahead.old) spans headers.now size }
    requires there { spans.len + size ≤ length ahead.old }
    ensures found { Finds ahead.old at result ahead.new }
    ensures memory { IfStopped result (λ why. why ≡ Stop.Memory) }
{
    let bytes = ahead.as_slice();
    let used = spans.len + size;
    let parts = Parts {
        text: &bytes[..spans.len],
        spans,
        headers,
        body: &bytes[spans.len..used],
    };
    match own(alloc, parts, at) {
        Ok(message) => {
            ahead.skip(used);
            Found::Message(message, used)
        }
        Err(_) => Found::Stop(Stop::Memory),
    }
}

/// The message at the front, whose head is so long: more bytes are taken until its body is there. The places of its
/// fields are written to the room.
fn find_body<S: Source>(
    alloc: Global,
    ahead: &mut Ahead,
    at: u64,
    source: &mut S,
    room: &mut [HeaderSpan],
    end: usize,
) -> Found
    requires room { length room.old ≡ field_limit }
    requires ends { head_length ahead.old ≡ Some end }
    requires within { end ≤ length ahead.old }
    ensures found { FindsMore ahead.old at result ahead.new (S.left source.old) (S.left source.new) }
    ensures end { IfStopped result (λ why. OnStopEnd why (IsAtEnd (S.left source.new))) }
    ensures failed { IfStopped result (λ why. OnStopFault why
        (Rose (S.source_faults source.old) (S.source_faults source.new))) }
    ensures later { S.source_faults source.old ≤ S.source_faults source.new }
    ensures no_other { StaysUnlessFoundFault result (S.source_faults source.old) (S.source_faults source.new) }
    ensures beside { S.beside_source source.new ≡ S.beside_source source.old }
    ensures still { (IsPartial ahead.old → ⊥) → source.new ≡ source.old }
{
    match read_head(ahead.as_slice(), end, room) {
        HeadRead::Whole(spans, size) => match await_bytes(ahead, source, end + size) {
            More::Got => take_message(alloc, ahead, at, spans, &room[..spans.headers], size),
            More::End => Found::Stop(Stop::Cut(ahead.len() as u64)),
            More::Failed => Found::Stop(Stop::ReadFault),
            More::Memory => Found::Stop(Stop::Memory),
        },
        HeadRead::Bad(kind) => Found::Stop(Stop::Bad(kind, at)),
    }
}

/// The next message: more bytes are taken until it is there.
fn find_message<S: Source>(
    alloc: Global,
    ahead: &mut Ahead,
    at: u64,
    source: &mut S,
    room: &mut [HeaderSpan],
) -> Found
    requires { length room.old ≡ field_limit }
    ensures found { FindsMore ahead.old at result ahead.new (S.left source.old) (S.left source.new) }
    ensures end { IfStopped result (λ why. OnStopEnd why (IsAtEnd (S.left source.new))) }
    ensures failed { IfStopped result (λ why. OnStopFault why
        (Rose (S.source_faults source.old) (S.source_faults source.new))) }
    ensures later { S.source_faults source.old ≤ S.source_faults source.new }
    ensures no_other { StaysUnlessFoundFault result (S.source_faults source.old) (S.source_faults source.new) }
    ensures beside { S.beside_source source.new ≡ S.beside_source source.old }
    ensures still { (IsPartial ahead.old → ⊥) → source.new ≡ source.old }
{
    match seek_head(ahead, source) {
        Sought::Head(end) => find_body(alloc, ahead, at, source, room, end),
        Sought::TooLong => Found::Stop(Stop::Bad(BadKind::HeadTooLong, at)),
        Sought::End => {
            if ahead.len() == 0 {
                Found::Stop(Stop::End)
            } else {
                Found::Stop(Stop::Cut(ahead.len() as u64))
            }
        }
        Sought::Failed => Found::Stop(Stop::ReadFault),
        Sought::Memory => Found::Stop(Stop::Memory),
    }
}

/// Reads the messages of a source. What it read and did not use stands ahead. The room for the places of fields is made
/// once, and used for each message.
#[derive(Drop)]
pub struct Reader {
    alloc: Global,
    ahead: Ahead,
    at: u64,
    ended: Option<Stop>,
    room: FieldRoom,
}

impl Model for Reader {
    ghost use Rattle.std.specs.Prelude.{◌≡◌, length};
    ghost use Rattle.sm_http.specs.Heads.{field_limit};
    ghost use Rattle.sm_http.specs.Reading.{ReaderState};

    ghost Value = { ReaderState };

    ghost view = { λ r. record { ahead = r.ahead; at = r.at; ended = r.ended } };

    ghost invariant = { λ r. length r.room ≡ field_limit };
}

impl Reader {
    /// A reader that has read nothing. It takes no memory.
    pub fn new(alloc: Global) -> Reader
        ensures { result ≡ record { ahead = []; at = 0; ended = None } }
    {
        Reader {
            alloc,
            ahead: Ahead::empty(alloc),
            at: 0,
            ended: None,
            room: field_room(),
        }
    }

    /// The next message of the source, or why there is none. It takes only where no message is whole and there is no
    /// fault. After any answer but a message it answers that again, and takes nothing.
    pub fn next<S: Source>(&mut self, source: &mut S) -> Next
        ensures reads { Reads self.old result self.new (S.left source.old) (S.left source.new) }
        ensures again { IfSome self.old.ended (λ why. source.new ≡ source.old) }
        ensures end { IfNone self.old.ended (OnStreamEnd result (IsAtEnd (S.left source.new))) }
        ensures failed { IfNone self.old.ended (OnReadFault result
            (Rose (S.source_faults source.old) (S.source_faults source.new))) }
        ensures later { S.source_faults source.old ≤ S.source_faults source.new }
        ensures no_other { StaysUnlessReadFault result (S.source_faults source.old) (S.source_faults source.new) }
        ensures beside { S.beside_source source.new ≡ S.beside_source source.old }
        ensures waits { (IsPartial self.old.ahead → ⊥) → source.new ≡ source.old }
    {
        match self.ended {
            Some(why) => stopped(why),
            None => match find_message(
                self.alloc,
                &mut self.ahead,
                self.at,
                source,
                &mut self.room,
            ) {
                Found::Message(message, used) => {
                    self.at = self.at.saturating_add(used as u64);
                    self.ended = closing_stop(message.closing);
                    Next::Message(message)
                }
                Found::Stop(why) => {
                    self.ended = Some(why);
                    stopped(why)
                }
            },
        }
    }
}

/// Why a reader gives no more messages after one that closes the stream.
fn closing_stop(closing: bool) -> Option<Stop>
    ensures { result ≡ (if closing then Some Stop.End else None) }
{
    if closing { Some(Stop::End) } else { None }
}
