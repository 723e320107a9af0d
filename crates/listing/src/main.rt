// Lists a snapshot file that is read from standard input: a heading, a line for each section, then its devices and its disks in key order.
// A file of more than 32,768 bytes prints `too long`; a refusal prints only its number and its place.
#![tactic(auto)]

ghost use Rattle.std.specs.Prelude.{◌≤◌, IfOk, length};

use answer::{Answer, TAKEN};
use std::io;
use std::io::Read;
use tables::ROW;

// What a table lists.
#[derive(Clone, Copy)]
enum Listed {
    Sections,
    Devices,
    Disks,
}

// The numbers of a section or a device: id, version, flags, offset, length.
fn framed(rt: &impl Print, row: &[u8]) -> io::Result<()> {
    let id = wire::u32_at(row, 0);
    let version = wire::u16_at(row, 4);
    let flags = wire::u16_at(row, 6);
    let offset = wire::u64_at(row, 8);
    let length = wire::u64_at(row, 16);
    print!(rt; "{id} {version} {flags} {offset} {length}")
}

// The numbers of a disk: id, base offset, base length, overlay length.
fn disk(rt: &impl Print, row: &[u8]) -> io::Result<()> {
    let id = wire::u32_at(row, 0);
    let base = wire::u64_at(row, 8);
    let base_length = wire::u32_at(row, 4);
    let overlay_length = wire::u32_at(row, 16);
    print!(rt; "{id} {base} {base_length} {overlay_length}")
}

// The line of a record; that of a device or a disk ends with the position in the file's own list.
fn line(rt: &impl Print, listed: Listed, row: &[u8]) -> io::Result<()> {
    let position = wire::u32_at(row, 24);
    match listed {
        Listed::Sections => {
            framed(rt, row)?;
            println!(rt; "")
        }
        Listed::Devices => {
            print!(rt; "device ")?;
            framed(rt, row)?;
            println!(rt; " {position}")
        }
        Listed::Disks => {
            print!(rt; "disk ")?;
            disk(rt, row)?;
            println!(rt; " {position}")
        }
    }
}

// A line for each record of the bytes of a table that were written.
fn lines(rt: &impl Print, listed: Listed, table: &[u8], written: u64) -> io::Result<()> {
    let end = table.len().min(written as usize);
    for row in table[..end].chunks_exact(ROW) {
        line(rt, listed, row)?;
    }
    Ok(())
}

fn refused(rt: &impl Print, a: Answer) -> io::Result<()> {
    println!(rt; "refused {} at {}", a.number, a.place)
}

// A file of 32,768 bytes has at most 2,046 devices, so that each table fits.
fn list(rt: &impl Print, file: &[u8]) -> io::Result<()> {
    let a = snapshot::check(file);
    if a.number != TAKEN {
        return refused(rt, a);
    }
    let mut table = [0u8; 65536];
    println!(rt; "id version flags offset length")?;
    let s = snapshot::sections(file, &mut table);
    lines(rt, Listed::Sections, &table, s.place)?;
    let d = snapshot::devices(file, &mut table);
    lines(rt, Listed::Devices, &table, d.place)?;
    let k = snapshot::disks(file, &mut table);
    lines(rt, Listed::Disks, &table, k.place)
}

// Reads until the buffer is full or the input ends, and returns how many bytes of the input stand at the buffer's start.
// No `for`: the place goes on by what was read, and std's `read_to_end` needs a heap.
fn read_full<R: Read>(input: &mut R, buffer: &mut [u8]) -> io::Result<usize>
    ensures { IfOk result (λ n. n ≤ length buffer.new) }
{
    let mut done = 0;
    while done < buffer.len() {
        let n = input.read(&mut buffer[done..])?;
        if n == 0 {
            return Ok(done);
        }
        done += n;
    }
    Ok(done)
}

fn main(rt: HostRuntime) -> io::Result<()> {
    let mut buffer = [0u8; 32769];
    let mut input = rt.stdin();
    let n = read_full(&mut input, &mut buffer)?;
    if 32768 < n {
        return println!(rt; "too long");
    }
    list(&rt, &buffer[..n])
}
