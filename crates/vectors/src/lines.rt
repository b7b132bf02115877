// The input cut into lines, each written back with its answer.
ghost use Rattle.std.specs.Prelude.{◌≤◌, ◌<◌, IfOk};

use crate::requests::put_answer;
use std::io;
use std::io::{Read, Write};
use text::{Text, position_of};

// As many bytes of a line are kept. A line that has so many is too long for a request.
const PART: usize = 4096;

// Where less than a line and its answer is free, what stands in the buffer is written first.
const BUFFER: usize = 65536;

const ROOM: usize = 60000;

// What is left after the whole lines of a read: how many bytes of a line that isn't whole are kept,
// and whether a part of that line is written already, since it fills the buffer.
#[derive(Clone, Copy)]
struct Left {
    kept: usize,
    long: bool,
}

// Answers the lines of the input until it ends. Nothing says that an input ends, so the turns are
// counted, up to a number that no run uses up. What is answered is written before more is awaited.
pub(crate) fn run<R: Read, W: Write>(input: &mut R, output: &mut W) -> io::Result<()> {
    let mut inp = [0u8; PART];
    let mut out = Text::<BUFFER>::new();
    let mut left = Left {
        kept: 0,
        long: false,
    };
    for _ in 0..u64::MAX {
        let kept = left.kept;
        let count = input.read(&mut inp[kept..])?;
        if count == 0 {
            break;
        }
        left = whole_lines(&mut inp, kept + count, left.long, &mut out, output)?;
    }
    if left.kept > 0 || left.long {
        put_line(&inp[..left.kept], left.long, &mut out);
        flush(&mut out, output)?;
    }
    Ok(())
}

// Answers the lines that end among the first n bytes, and keeps what follows the last of them at the
// front. Where that fills the buffer it is written, as the beginning of a long line.
fn whole_lines<W: Write>(
    inp: &mut [u8; PART],
    n: usize,
    was_long: bool,
    out: &mut Text<BUFFER>,
    output: &mut W,
) -> io::Result<Left>
    requires { n ≤ 4096 }
    ensures { IfOk result (λ left. left.kept < 4096) }
{
    let mut long = was_long;
    let mut from: usize = 0;
    while let Some(end) = position_of(&inp[from..n], b'\n') {
        if ROOM < out.at {
            flush(out, output)?;
        }
        put_line(&inp[from..from + end], long, out);
        long = false;
        from += end + 1;
    }
    flush(out, output)?;
    let kept = n - from;
    if kept == PART {
        output.write_all(&inp[..])?;
        return Ok(Left {
            kept: 0,
            long: true,
        });
    }
    inp.copy_within(from..n, 0);
    Ok(Left { kept, long })
}

// Puts a line, ` = ` and its answer. A line of which a part is written already is too long.
fn put_line<const N: usize>(line: &[u8], long: bool, out: &mut Text<N>) {
    out.put_bytes(line);
    out.put_bytes(b" = ");
    if long {
        out.put_bytes(b"error");
    } else {
        put_answer(line, out);
    }
    out.put_byte(b'\n');
}

// Writes what is put, and nothing is put any more.
fn flush<const N: usize, W: Write>(out: &mut Text<N>, output: &mut W) -> io::Result<()> {
    output.write_all(out.as_bytes())?;
    out.at = 0;
    Ok(())
}
