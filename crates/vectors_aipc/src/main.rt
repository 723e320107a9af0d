// Runs the reader and the writer of messages: every tag there is, and for every kind its shortest message, one with other numbers
// and one with data, each as it was written, a byte shorter and a byte longer, and with each byte one more and one less.
// A line `w` is an answer of `write`; any other line is a reading: number, place, tag, the four numbers, start and length of the data.
#![tactic(auto)]

ghost use Rattle.std.specs.Prelude.{◌≤◌};

use aipc::{Content, Message, Reading};
use answer::{Answer, Fault, Refusal};
use std::io;

fn show(rt: &impl Print, r: Result<Content, Fault>) -> io::Result<()> {
    let r = Reading::from(r);
    let f = kinds::form_of(r.message);
    print!(rt; "{} {} {}", r.number, r.place, f.tag)?;
    for c in f.cells() {
        print!(rt; " {}", c.1)?;
    }
    println!(rt; " {} {}", r.start, r.len)
}

fn show_written(rt: &impl Print, a: Answer) -> io::Result<()> {
    println!(rt; "w {} {}", a.number, a.place)
}

// The first n bytes of b as they are, one fewer, and one more.
fn lengths(rt: &impl Print, b: &[u8], n: usize) -> io::Result<()> {
    if 0 < n && n < b.len() {
        show(rt, aipc::read(&b[..n]))?;
        show(rt, aipc::read(&b[..n - 1]))?;
        show(rt, aipc::read(&b[..n + 1]))?;
    }
    Ok(())
}

// The first n bytes of b with the one at i changed.
fn change(rt: &impl Print, b: &mut [u8], n: usize, i: usize, by: u8) -> io::Result<()> {
    if n <= b.len() && i < n {
        let was = b[i];
        b[i] = was.wrapping_add(by);
        show(rt, aipc::read(&b[..n]))?;
        b[i] = was;
    }
    Ok(())
}

// Each of the first n bytes of b one more, and one less.
fn changes(rt: &impl Print, b: &mut [u8], n: usize) -> io::Result<()> {
    for i in 0..n {
        change(rt, b, n, i, 1)?;
        change(rt, b, n, i, 255)?;
    }
    Ok(())
}

// The message of a tag whose bytes are all s.
fn filled(tag: u16, s: u8) -> Message {
    let mut b = [s; 34];
    b[..2].copy_from_slice(&tag.to_le_bytes());
    messages::said(&b)
}

// A message with the first n bytes of a text as its data: written, and what was written read.
fn trial(rt: &impl Print, message: Message, n: usize) -> io::Result<()>
    requires { n ≤ 3 }
{
    let text = [0x7F, 0xC3, 0xA9];
    let mut out = [0u8; 64];
    let a = aipc::write(message, &text[..n], &mut out);
    show_written(rt, a)?;
    if a.number == 0 {
        let long = a.place as usize;
        lengths(rt, &out, long)?;
        changes(rt, &mut out, long)?;
    }
    Ok(())
}

fn kind(rt: &impl Print, tag: u16) -> io::Result<()> {
    trial(rt, filled(tag, 0), 0)?;
    trial(rt, filled(tag, 1), 0)?;
    trial(rt, filled(tag, 1), 3)?;
    trial(rt, filled(tag, 2), 3)
}

// Whether two bytes that say the tag are refused as an unknown one.
fn is_unknown(tag: u16) -> bool {
    matches!(aipc::read(&tag.to_le_bytes()), Err(Fault(Refusal::Tag, _)))
}

// Every tag: those of the table are run, the others counted.
fn tags(rt: &impl Print) -> io::Result<()> {
    let mut unknown: u64 = 0;
    for tag in 0..=u16::MAX {
        if is_unknown(tag) {
            unknown += 1;
        } else {
            kind(rt, tag)?;
        }
    }
    println!(rt; "unknown {unknown}")
}

// The longest message, and one byte more.
fn longest(rt: &impl Print) -> io::Result<()> {
    let big = [0u8; 65537];
    let mut out = [0u8; 65536];
    show(rt, aipc::read(&big[..65536]))?;
    show(rt, aipc::read(&big))?;
    show_written(
        rt,
        aipc::write(Message::SerialOutput(7), &big[..65528], &mut out),
    )?;
    show(rt, aipc::read(&out))?;
    show_written(
        rt,
        aipc::write(Message::SerialOutput(7), &big[..65529], &mut out),
    )
}

// A text, cut at each length.
fn cuts(rt: &impl Print) -> io::Result<()> {
    let b = [0x00, 0x14, 0x02, 0x02, 0x00, 0x00, 0x00, 0xC3, 0xA9];
    for n in 0..=b.len() {
        show(rt, aipc::read(&b[..n]))?;
    }
    Ok(())
}

// Nothing to write, and too little room.
fn unwritten(rt: &impl Print) -> io::Result<()> {
    let mut out = [0u8; 9];
    show_written(rt, aipc::write(Message::Nothing, b"", &mut out))?;
    show_written(rt, aipc::write(Message::PortReadResp(7, 15), b"", &mut out))
}

fn main(rt: HostRuntime) -> io::Result<()> {
    tags(&rt)?;
    longest(&rt)?;
    cuts(&rt)?;
    unwritten(&rt)
}
