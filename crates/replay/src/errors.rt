// Why a line isn't an event, for people.
#![tactic(auto, using(text::proofs::Putting::puts_joined))]

ghost use Rattle.std.specs.Prelude.{◌≡◌};
ghost use Rattle.text.specs.Put.{put};
ghost use Rattle.replay.specs.Reasons as spec;

use session::event::Reason;
use text::Text;

// error TEXT
#[tactic(auto, using(text::proofs::Putting::puts_joined), unfolding(crate::specs::Reasons::error_text))]
pub fn put_error<const N: usize>(reason: Reason, out: &mut Text<N>)
    ensures { out.new ≡ put out.old (spec.error_text reason) }
{
    out.put_bytes(b"error ");
    put_reason(reason, out);
    out.put_byte(b'\n');
}

#[tactic(auto, using(text::proofs::Putting::puts_joined), unfolding(crate::specs::Reasons::reason_text))]
fn put_reason<const N: usize>(reason: Reason, out: &mut Text<N>)
    ensures { out.new ≡ put out.old (spec.reason_text reason) }
{
    match reason {
        Reason::LineTooLong => out.put_bytes(b"a line has at most 4096 bytes"),
        Reason::NoSuchEvent => out.put_bytes(b"no event begins with this word"),
        Reason::NoSuchCommand => out.put_bytes(b"start has no such command"),
        Reason::WordCount(n) => put_count(n, out),
        Reason::BadWord(n, letter) => put_bad_word(n, letter, out),
        Reason::LogWords => out.put_bytes(b"a log's line is (SECONDS.MICROS) IFACE ID#DATA"),
        Reason::Stamp => out.put_bytes(b"a time is (SECONDS.MICROS), below 2^64 ms"),
        Reason::Direction => out.put_bytes(b"only R or T may follow ID#DATA"),
        Reason::FrameId => out.put_bytes(b"ID is 8 or 3 hexadecimal digits before a #"),
        Reason::FrameData => out.put_bytes(b"DATA is 0 to 8 bytes, two digits each"),
        Reason::RemoteFrame => out.put_bytes(b"a remote frame isn't handed in"),
        Reason::FdFrame => out.put_bytes(b"a CAN FD frame isn't handed in"),
        Reason::ErrorFrame => out.put_bytes(b"an id above 1FFFFFFF marks an error frame"),
        Reason::TornLine => out.put_bytes(b"the input ends within a line"),
    }
}

// How many words a line of this event has.
fn put_count<const N: usize>(n: usize, out: &mut Text<N>)
    ensures { out.new ≡ put out.old (spec.count_text n) }
{
    out.put_bytes(b"this event has ");
    out.put_decimal(n as u64);
    out.put_bytes(b" words, parted by single spaces");
}

// word N isn't ..
fn put_bad_word<const N: usize>(n: usize, letter: u8, out: &mut Text<N>)
    ensures { out.new ≡ put out.old (spec.bad_word_text n letter) }
{
    out.put_bytes(b"word ");
    out.put_decimal(n as u64);
    out.put_bytes(b" isn't ");
    out.put_bytes(wanted_text(letter));
}

// What a letter of a shape asks for.
#[tactic(auto, unfolding(crate::specs::Reasons::wanted_text))]
fn wanted_text(letter: u8) -> &'static [u8]
    ensures { result.now ≡ spec.wanted_text letter }
{
    match letter {
        b'B' => b"a number up to 255",
        b'H' => b"a number up to 0xFFFF",
        b'W' => b"a number up to 0xFFFFFFFF",
        b'F' => b"0 or 1",
        b'D' => b"16 hexadecimal digits",
        b'C' => b"mit, pp, velocity or csp",
        b'K' => b"i8, u8, u16, u32 or f32",
        b'V' => b"a value of its kind: it is wider",
        b'X' => b"a word",
        _ => b"a number below 2^64, in decimal or after 0x",
    }
}
