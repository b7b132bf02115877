// Receiving, with what is stored of the readings as an edit: their other records stay where they are.
ghost use Rattle.std.specs.Prelude.{◌≡◌, ◌<◌, ◌≤◌};
ghost use Rattle.motor.specs.Limits.{most_readings, most_records};
ghost use Rattle.motor.specs.Readings.{site_of};
ghost use Rattle.motor.specs.Edits.{IsInside, edited_by, head_edit, add_edit, put_edit, read_kept, is_reply, hear_read};

use crate::engine::reading::Stored;
use crate::motor::{Motor, State};
use crate::readings::{Reading, Readings, Site, holder_in, index_of, site_of};
use crate::receive::{counted_at, frame_admitted, is_read, read_id, read_stored, status_in};
use codec::bus::CanFrame;
use codec::error::Refusal;
use codec::protocol::{IdParts, ext_id_parts};

// What is to be stored of the readings: record `first` is `one`; then record `second` goes on to `link`; `free` is the first free record.
// The bounds are clauses (IsInside): as a ghost field, each definition that makes an edit, of any site, would have to hold their proof.
#[derive(Clone, Copy)]
pub struct Edit {
    pub first: usize,
    pub one: Reading,
    pub second: usize,
    pub link: u16,
    pub free: u16,
}

// What a put answers, and what it stores.
#[derive(Clone, Copy)]
pub struct PutEdit {
    pub said: Result<(), Refusal>,
    pub edit: Edit,
}

// What a frame answers, the state after it, and what it stores of the readings.
#[derive(Clone, Copy)]
pub struct ReadHeard {
    pub state: State,
    pub edit: Edit,
    pub said: Result<(), Refusal>,
}

// The readings once an edit is stored.
#[tactic(auto, unfolding(crate::specs::Edits::edited_by))]
pub(crate) fn edited_by(rs: Readings, edit: Edit) -> Readings
    requires { IsInside edit }
    ensures { result ≡ edited_by rs edit }
{
    let mut out = rs;
    out.records[edit.first] = edit.one;
    out.free = edit.free;
    out.records[edit.second].next = edit.link;
    out
}

// Nothing changes: record 0, the head, stored as it is.
fn head_edit(head: Reading, free: u16) -> Edit
    ensures { result ≡ head_edit head free }
{
    Edit {
        first: 0,
        one: head,
        second: 0,
        link: head.next,
        free,
    }
}

// id is not held, and this is its place: it takes the first free record.
#[tactic(auto, unfolding(crate::specs::Edits::add_edit))]
fn add_edit(site: Site, id: u16, held: Stored) -> PutEdit
    requires { site.before ≤ most_readings }
    ensures is { result ≡ add_edit site id held }
    ensures inside { IsInside result.edit }
{
    let Some(first) = index_of(site.free) else {
        return PutEdit {
            said: Err(Refusal::ReadingsFull),
            edit: head_edit(site.head, site.free),
        };
    };
    let one = Reading {
        id,
        held,
        next: site.next,
    };
    let edit = Edit {
        first,
        one,
        second: site.before,
        link: site.free,
        free: site.after_free,
    };
    PutEdit { said: Ok(()), edit }
}

// What a put of held for id stores: the record that holds id, else the first free one.
#[tactic(auto, unfolding(crate::specs::Edits::put_edit_at))]
pub(crate) fn put_edit(rs: &Readings, id: u16, held: Stored) -> PutEdit
    ensures is { result ≡ put_edit (site_of rs.now id) id held }
    ensures inside { IsInside result.edit }
{
    let site = site_of(rs, id);
    let Some(k) = holder_in(site, id) else {
        return add_edit(site, id, held);
    };
    let link = site.there.next;
    let one = Reading {
        id,
        held,
        next: link,
    };
    let edit = Edit {
        first: k,
        one,
        second: k,
        link,
        free: site.free,
    };
    PutEdit { said: Ok(()), edit }
}

// What is answered where nothing is stored.
fn read_kept(state: State, rs: &Readings, said: Result<(), Refusal>) -> ReadHeard
    ensures { result ≡ read_kept state rs.now said }
{
    ReadHeard {
        state,
        edit: head_edit(rs.records[0], rs.free),
        said,
    }
}

// Extended, and a read reply.
#[tactic(auto, unfolding(crate::specs::Edits::is_reply))]
fn is_reply(extended: bool, parts: IdParts) -> bool
    ensures { result ≡ is_reply extended parts }
{
    extended && is_read(parts)
}

// A read reply at a time: 13 and 7 change nothing; else it is counted, 14 and 15 store nothing, and a value is put. Any other frame
// is 13, and changes nothing.
pub fn hear_read(m: Motor, frame: CanFrame, now: u64) -> ReadHeard
    ensures { (result ≡ hear_read m frame now) × (result.edit.first < most_records) × (result.edit.second < most_records) }
{
    let s = m.state;
    let parts = ext_id_parts(frame.arbitration_id);
    let reply = is_reply(frame.is_extended, parts);
    if let Err(refusal) = frame_admitted(s.motor_id, s.clock, reply, parts, now) {
        return read_kept(s, &m.readings, Err(refusal));
    }
    let state = counted_at(s, now);
    let id = read_id(frame);
    let status = status_in(parts);
    if status != 0 {
        return read_kept(state, &m.readings, Err(Refusal::ReadFailed { id, status }));
    }
    let put = put_edit(&m.readings, id, read_stored(frame));
    ReadHeard {
        state,
        edit: put.edit,
        said: put.said,
    }
}
