// Readings: what a motor keeps for each parameter, in 96 records that form two chains.
ghost use Rattle.std.specs.Prelude.{◌≡◌, ◌<◌, ◌≤◌, List, IfSome};
ghost use Rattle.motor.specs.Limits.{most_readings, most_records};
ghost use Rattle.motor.specs.Readings.{Lists, Rep, Holds, Puts, at_first, lookup, drop_in, listing, blank_stored, free_record, record_index, index_of, seek_of, site_of, holder_in, empty_readings, find_of, put_of, drop_id, listed_of};

use crate::edits::{edited_by, put_edit};
use crate::engine::reading::Stored;
use crate::limits::{ENTRIES, READINGS, RECORDS};
use codec::error::Refusal;
use codec::protocol::ParameterValue;

// A record. The next of the last one is 0.
#[derive(Clone, Copy)]
pub struct Reading {
    pub id: u16,
    pub held: Stored,
    pub next: u16,
}

// Slot 0 is the head: its next is the first record held. A record's number is its index.
// Chained by number in an array since memory is fixed (no heap); Rep and Holds of specs/Readings name these records.
#[derive(Clone, Copy)]
pub struct Readings {
    pub records: [Reading; RECORDS],
    pub free: u16,
}

// What a put answers, 15 where 96 others are held and the id is new, and the readings after it.
#[derive(Clone, Copy)]
pub struct PutResult {
    pub said: Result<(), Refusal>,
    pub readings: Readings,
}

#[derive(Clone, Copy)]
pub struct Entry {
    pub id: u16,
    pub held: Stored,
}

// What is held, along the chain; the entries past count are blank.
// A count beside an array since memory is fixed (no heap); `listing` of specs/Readings says what each place has.
#[derive(Clone, Copy)]
pub struct Listing {
    pub count: u16,
    pub entries: [Entry; ENTRIES],
}

// What a record that holds nothing keeps.
fn blank() -> Stored
    ensures { result ≡ blank_stored }
{
    Stored {
        value: ParameterValue::I8(0),
    }
}

// A record that holds nothing.
fn free_record(next: u16) -> Reading
    ensures { result ≡ free_record next }
{
    Reading {
        id: 0,
        held: blank(),
        next,
    }
}

// Nothing held, and the free records chained from 1 to 96.
pub fn empty() -> Readings
    ensures is { result ≡ empty_readings }
    ensures means { Rep result at_first }
{
    let mut records = [free_record(0); RECORDS];
    for i in 1..READINGS {
        records[i as usize] = free_record(i + 1);
    }
    Readings { records, free: 1 }
}

// The place of an id in the chain: the record before it, 0 for the head, where that one goes on, and the record there; the first
// free record, and where it goes on; the head.
// The bound of `before` is a clause of site_of: as a ghost field, the definition of site_of would have to hold its proof.
#[derive(Clone, Copy)]
pub(crate) struct Site {
    pub before: usize,
    pub next: u16,
    pub there: Reading,
    pub free: u16,
    pub after_free: u16,
    pub head: Reading,
}

// The index of the record with this number, 1 to 96.
#[tactic(auto, unfolding(crate::specs::Readings::index_of))]
pub(crate) fn index_of(n: u16) -> Option<usize>
    ensures is { result ≡ index_of n }
    ensures inside { IfSome result (λ k. k < most_records) }
{
    match n {
        1..=READINGS => Some(n as usize),
        _ => None,
    }
}

// A record's index; the head's for a number that no record has.
#[tactic(auto, unfolding(crate::specs::Readings::index_of, crate::specs::Readings::record_index))]
fn record_index(n: u16) -> usize
    ensures { (result ≡ record_index n) × (result < most_records) }
{
    index_of(n).unwrap_or(0)
}

// The record before the place of id, 0 for the head. The readings are lent, since a call that takes them by value copies them.
fn seek(rs: &Readings, id: u16) -> usize
    ensures { (result ≡ seek_of rs.now id) × (result ≤ most_readings) }
{
    let mut p = 0;
    for _ in 0..READINGS {
        let Some(k) = index_of(rs.records[p].next) else {
            return p;
        };
        if rs.records[k].id >= id {
            return p;
        }
        p = k;
    }
    p
}

// The place of id.
#[tactic(auto, unfolding(crate::specs::Readings::site_of))]
pub(crate) fn site_of(rs: &Readings, id: u16) -> Site
    ensures { (result ≡ site_of rs.now id) × (result.before ≤ most_readings) }
{
    let before = seek(rs, id);
    let next = rs.records[before].next;
    let there = rs.records[record_index(next)];
    let after_free = rs.records[record_index(rs.free)].next;
    Site {
        before,
        next,
        there,
        free: rs.free,
        after_free,
        head: rs.records[0],
    }
}

// The index of the record at the place of id, where it holds id.
#[tactic(auto, unfolding(crate::specs::Readings::holder_in))]
pub(crate) fn holder_in(site: Site, id: u16) -> Option<usize>
    ensures is { result ≡ holder_in site id }
    ensures inside { IfSome result (λ k. k < most_records) }
{
    if site.there.id == id {
        index_of(site.next)
    } else {
        None
    }
}

// What is held for id.
pub fn find(rs: Readings, id: u16) -> Option<Stored>
    ensures is { result ≡ find_of rs id }
    ensures means { (l : List Entry) → Holds rs l → result ≡ lookup id l }
{
    let site = site_of(&rs, id);
    holder_in(site, id).map(|_| site.there.held)
}

// Keeps held for id: in the record that holds id, else in the first free one.
pub fn put(rs: Readings, id: u16, held: Stored) -> PutResult
    ensures is { result ≡ put_of rs id held }
    ensures means { (ls : Lists) → Rep rs ls → Puts rs ls id held result }
{
    let put = put_edit(&rs, id, held);
    PutResult {
        said: put.said,
        readings: edited_by(rs, put.edit),
    }
}

// Holds id no longer: its record is blank, and the first free one.
pub fn drop_id(rs: Readings, id: u16) -> Readings
    ensures is { result ≡ drop_id rs id }
    ensures means { (ls : Lists) → Rep rs ls → Rep result (drop_in id ls) }
{
    let site = site_of(&rs, id);
    let Some(k) = holder_in(site, id) else {
        return rs;
    };
    let mut out = rs;
    out.records[k] = free_record(rs.free);
    out.free = site.next;
    out.records[site.before].next = site.there.next;
    out
}

// Everything held, along the chain.
pub fn listed(rs: Readings) -> Listing
    ensures is { result ≡ listed_of rs }
    ensures means { (l : List Entry) → Holds rs l → result ≡ listing l }
{
    let none = Entry {
        id: 0,
        held: blank(),
    };
    let mut entries = [none; ENTRIES];
    let mut n = rs.records[0].next;
    for count in 0..READINGS {
        let Some(k) = index_of(n) else {
            return Listing { count, entries };
        };
        let record = rs.records[k];
        entries[count as usize] = Entry {
            id: record.id,
            held: record.held,
        };
        n = record.next;
    }
    Listing {
        count: READINGS,
        entries,
    }
}
