// The same answers put into a lent slice of any length, at a place of it. Each function answers the next place.
ghost use Rattle.std.specs.Prelude.{◌≡◌};
ghost use Rattle.text.specs.Put.{Put};
ghost use Rattle.answers.specs.Said as spec;
ghost use Rattle.answers.specs.Looks as shows;

use crate::{looks, said};
use codec::bus::CanFrame;
use codec::error::Refusal;
use motor::engine::command::Said;
use motor::motor::Seen;
use text::{Text, put_bytes};

// ok
pub fn put_ok(out: &mut [u8], at: usize) -> usize
    ensures { Put out.old at (spec.ok_text) out.new result }
{
    put_bytes(out, at, b"ok\n")
}

// Of a registration, a frame or a removal: ok, or refused.
pub fn put_told(said: Result<(), Refusal>, out: &mut [u8], at: usize) -> usize
    ensures { Put out.old at (spec.told_text said) out.new result }
{
    let mut text = Text::<64>::new();
    said::put_told(said, &mut text);
    put_bytes(out, at, text.as_bytes())
}

// refused N, with the values that 14 and 18 carry
pub fn put_refused(refusal: Refusal, out: &mut [u8], at: usize) -> usize
    ensures { Put out.old at (spec.refused_text refusal) out.new result }
{
    let mut text = Text::<64>::new();
    said::put_refused(refusal, &mut text);
    put_bytes(out, at, text.as_bytes())
}

// What a start or a step says, with the frame that it sends on the line before.
pub fn put_said(
    said: Said,
    frame: CanFrame,
    res: [u8; 8],
    time: u64,
    out: &mut [u8],
    at: usize,
) -> usize
    ensures { Put out.old at (spec.said_text said frame res time) out.new result }
{
    let mut text = Text::<128>::new();
    said::put_said(said, frame, res, time, &mut text);
    put_bytes(out, at, text.as_bytes())
}

// What a look shows, or its refusal.
pub fn put_looked(looked: Result<Seen, Refusal>, out: &mut [u8], at: usize) -> usize
    ensures { Put out.old at (shows.looked_text looked) out.new result }
{
    let mut text = Text::<4096>::new();
    looks::put_looked(looked, &mut text);
    put_bytes(out, at, text.as_bytes())
}
