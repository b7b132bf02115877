// A line, and what it says.
ghost use Rattle.std.specs.Prelude.{◌≡◌, length, ◌≤◌};
ghost use Rattle.session.specs.Lines as spec;

use crate::arguments::{arguments, low8, low16, low32};
use crate::commands::started;
use crate::event::{Event, Line, Other, Reason, bad, bare, hands};
use crate::frame::can_frame;
use crate::heard::heard;
use crate::limits::LONGEST;
use crate::table::{EVENTS, START, row_of};
use codec::model::model_named;
use station::call::Call;

// How long a line is without one CR at its end.
pub fn shown(line: &[u8]) -> usize
    ensures { (result ≡ spec.shown_in line.now (length line.now)) × (result ≤ length line.now) }
{
    match line {
        [.., b'\r'] => line.len() - 1,
        _ => line.len(),
    }
}

// What a line without its line end says. A line is any bytes.
#[tactic(auto, unfolding(crate::specs::Lines::read_line))]
pub fn read_line(line: &[u8]) -> Line
    ensures { result ≡ spec.read_line line.now }
{
    match line {
        [] | [b'#', ..] => bare(Event::Other(Other::Nothing)),
        _ => said(line).unwrap_or_else(bad),
    }
}

// What a line says that isn't blank and no comment.
#[tactic(auto, unfolding(crate::specs::Lines::said_in))]
fn said(line: &[u8]) -> Result<Line, Reason>
    ensures { result ≡ spec.said_in line.now }
{
    if LONGEST < line.len() {
        return Err(Reason::LineTooLong);
    }
    if let [b'(', ..] = line {
        return heard(line);
    }
    called(line)
}

// The event that the first word says. A start's line is read by its command.
#[tactic(auto, unfolding(crate::specs::Lines::called))]
fn called(line: &[u8]) -> Result<Line, Reason>
    ensures { result ≡ spec.called line.now }
{
    let row = row_of(&EVENTS, text::word(line, 0)).ok_or(Reason::NoSuchEvent)?;
    if row == START {
        return Ok(bare(Event::Call(started(line)?)));
    }
    let v = arguments(line, text::word(&EVENTS, 2 * row + 1))?;
    Ok(call_event(line, row, v))
}

#[tactic(auto, unfolding(crate::specs::Lines::call_event))]
fn call_event(line: &[u8], k: usize, v: [u64; 8]) -> Line
    ensures { result ≡ spec.call_event line.now k v }
{
    match k {
        0 => bare(Event::Other(Other::Fresh)),
        1 => registered(text::word(line, 3), v),
        2 => bare(Event::Call(Call::Step {
            id: low16(v[0]),
            time: v[1],
        })),
        3 => any_frame(v),
        4 => bare(Event::Call(Call::Look { id: low16(v[0]) })),
        _ => bare(Event::Call(Call::Remove {
            id: low16(v[0]),
            time: v[1],
        })),
    }
}

// register ID HOST MODEL WAIT TIME
fn registered(model: &[u8], v: [u64; 8]) -> Line
    ensures { result ≡ spec.registered model.now v }
{
    bare(Event::Call(Call::Register {
        id: low16(v[0]),
        host: low16(v[1]),
        model: model_named(model),
        wait: v[3],
        time: v[4],
    }))
}

// frame TIME ID DATA EXTENDED DLC RX
fn any_frame(v: [u64; 8]) -> Line
    ensures { result ≡ spec.any_frame v }
{
    let frame = can_frame(low32(v[1]), v[2], v[3] == 1, low8(v[4]), v[5] == 1);
    hands(frame, v[0])
}
