// Standard input cut into lines, and the answers written before more is awaited.
ghost use Rattle.std.specs.Prelude.{◌≡◌, ◌+◌, ◌-◌, ◌%◌, ◌^◌, ◌<◌, ◌≤◌, ◌++◌, length, take, drop, IfOk};
ghost use Rattle.text.specs.Put.{put};
ghost use Rattle.replay.specs.Limits.{buffer_size};
ghost use Rattle.replay.specs.Program as spec;
ghost use Rattle.replay.specs.Turns as turn;
ghost use Rattle.replay.specs.declared.lines.Ran.TheVariants as variant;

use crate::errors::put_error;
use crate::limits::{BUFFER, KEPT};
use crate::turns::{Left, take_lines};
use session::event::Reason;
use station::station::new;
use std::io::{Print, Read, Stderr, Stdin, Stdout};
use text::Text;

// Standard input, output and error.
#[derive(Clone, Copy)]
pub struct Streams {
    pub stdin: Stdin,
    pub stdout: Stdout,
    pub stderr: Stderr,
}

// The bytes to be answered, from a place of the buffer up to n. got counts, round 2^64, all that were read.
#[derive(Clone, Copy)]
pub struct Pending {
    pub from: usize,
    pub n: usize,
    pub got: usize,
}

// What comes after a turn: more bytes to be answered, or the end of the input, with what is left of a line.
#[derive(Clone, Copy)]
pub enum Next {
    More(Pending),
    End(Pending),
}

// How a run without a failure ends, after so many bytes read and written, round 2^64: all of the input is answered, or the turns
// are used up.
#[derive(Clone, Copy)]
pub enum Ran {
    All { got: usize, sent: usize },
    OutOfTurns { got: usize, sent: usize },
}

// What failed.
#[derive(Clone, Copy)]
pub enum Failure {
    Read,
    Write,
}

// Answers the lines of the input until it ends, or a read or a write fails. Nothing says that an input ends, so the turns are
// counted up to a number that no run reaches.
pub(crate) fn run(
    inp: &mut [u8; BUFFER],
    out: &mut Text<BUFFER>,
    streams: Streams,
) -> Result<Ran, Failure>
    ensures { IfOk result spec.Answered }
{
    let mut motors = new().motors;
    let mut pending = Pending {
        from: 0,
        n: 0,
        got: 0,
    };
    let mut sent: usize = 0;
    for _ in 0..u64::MAX {
        let left = take_lines(&mut motors, &inp[pending.from..pending.n], out);
        sent = written(out.as_bytes(), sent, streams)?;
        match more_bytes(inp, pending, left, streams)? {
            Next::More(more) => pending = more,
            Next::End(rest) => return finish(rest, out, sent, streams),
        }
    }
    Ok(Ran::OutOfTurns {
        got: pending.got,
        sent,
    })
}

// Says on standard error what failed.
pub(crate) fn complain(failure: Failure, streams: Streams) {
    let what: &[u8] = match failure {
        Failure::Read => b"replay: the input could not be read\n",
        Failure::Write => b"replay: an answer could not be written\n",
    };
    let _ = streams.stderr.write_all(what);
}

// Writes the bytes that are due.
fn written(bytes: &[u8], sent: usize, streams: Streams) -> Result<usize, Failure>
    requires { spec.Due sent bytes.now }
    ensures { IfOk result (λ total. total ≡ (sent + length bytes.now) % 2 ^ 64) }
{
    streams.stdout.write_all(bytes).map_err(|_| Failure::Write)?;
    Ok(sent.wrapping_add(bytes.len()))
}

// The bytes to be answered after those that are: where lines are left these, else what is kept of half a line, and a read behind it.
fn more_bytes(
    inp: &mut [u8; BUFFER],
    p: Pending,
    left: Left,
    streams: Streams,
) -> Result<Next, Failure>
    requires { (p.from + turn.place_of left ≤ p.n) × (p.n ≤ buffer_size) }
    ensures { IfOk result (λ next. ((turn.pending_of next).from ≤ (turn.pending_of next).n) × ((turn.pending_of next).n ≤ buffer_size) × spec.Follows (turn.is_full left) (drop (p.from + turn.place_of left) (take p.n inp.old)) p.got (drop (turn.pending_of next).from (take (turn.pending_of next).n inp.new)) (turn.pending_of next).got (turn.goes_on next)) }
{
    match left {
        Left::Lines(k) => Ok(Next::More(Pending {
            from: p.from + k,
            n: p.n,
            got: p.got,
        })),
        Left::Half(k) => {
            let kept = keep(inp, p.from + k, p.n);
            read_after(inp, kept, p.got, streams)
        }
    }
}

// Reads after the bytes kept, which stay as they are. No more bytes than these are there where the input ends.
fn read_after(
    inp: &mut [u8; BUFFER],
    kept: usize,
    got: usize,
    streams: Streams,
) -> Result<Next, Failure>
    requires { kept < buffer_size }
    ensures { IfOk result (λ next. ((turn.pending_of next).from ≡ 0) × ((turn.pending_of next).n ≤ buffer_size) × spec.Reads (take kept inp.old) got (take (turn.pending_of next).n inp.new) (turn.pending_of next).got (turn.goes_on next)) }
{
    let mut stdin = streams.stdin;
    let count = stdin.read(&mut inp[kept..]).map_err(|_| Failure::Read)?;
    let p = Pending {
        from: 0,
        n: kept + count,
        got: got.wrapping_add(count),
    };
    if count == 0 {
        return Ok(Next::End(p));
    }
    Ok(Next::More(p))
}

// The end of the input: a line that it tears is answered, and that is written.
fn finish(
    rest: Pending,
    out: &mut Text<BUFFER>,
    sent: usize,
    streams: Streams,
) -> Result<Ran, Failure>
    requires { (rest.from ≤ rest.n) × spec.Due sent (spec.torn_text (rest.n - rest.from)) }
    ensures { IfOk result (λ ran. ran ≡ variant.All rest.got ((sent + length (spec.torn_text (rest.n - rest.from))) % 2 ^ 64)) }
{
    out.at = 0;
    put_torn(rest.n - rest.from, out);
    let sent = written(out.as_bytes(), sent, streams)?;
    Ok(Ran::All {
        got: rest.got,
        sent,
    })
}

// Where bytes of a line are left at the end of the input, why they are no event.
#[tactic(auto, using(text::proofs::Putting::puts_joined), unfolding(crate::specs::Program::torn_text))]
fn put_torn<const N: usize>(kept: usize, out: &mut Text<N>)
    ensures { out.new ≡ put out.old (spec.torn_text kept) }
{
    if kept > 0 {
        put_error(Reason::TornLine, out);
    }
}

// Moves the bytes from `from` up to n to the front, and answers how many are kept. Of those that fill the buffer only the
// first are kept.
fn keep(inp: &mut [u8; BUFFER], from: usize, n: usize) -> usize
    requires { (from ≤ n) × (n ≤ buffer_size) }
    ensures { (take result inp.new ≡ spec.kept_of (drop from (take n inp.old))) × (result < buffer_size) }
{
    let count = n - from;
    if count == BUFFER {
        return KEPT;
    }
    inp.copy_within(from..n, 0);
    count
}
