//! What goes out: the lines of an answer, and the line of a fault. Nothing here takes memory.

ghost use Rattle.std.specs.Prelude.{◌≡◌, ◌<◌, ◌≤◌, ◌++◌, ℕ, codes, decimal, length};
ghost use Rattle.bonsai_run.specs.Faults.{status_of, fault_text, numbered_text};
ghost use Rattle.bonsai_run.specs.Writing.{Writes, Tells};

use crate::faults::{Fault, USAGE, fault_words, named, status_of};
use itoa::Buffer;
use shelf_io::{Failed, Sink};

/// Writes a text, one call for each of its lines.
pub fn write_lines<O: Sink>(out: &mut O, text: &[u8]) -> Result<(), Failed>
    ensures { Writes (O.written out.old) (O.written out.new) (O.faults out.old) (O.faults out.new) text.now result }
{
    let mut done = 0;
    while done < text.len() {
        let end = line_end(text, done);
        write_line(out, &text[done..end])?;
        done = end;
    }
    Ok(())
}

/// Where the line that begins at a place of a text ends, behind its line feed.
fn line_end(text: &[u8], from: usize) -> usize
    requires { from < length text.now }
    ensures later { from < result }
    ensures within { result ≤ length text.now }
{
    for place in from..text.len() {
        if text[place] == b'\n' {
            return place + 1;
        }
    }
    text.len()
}

/// Writes the line of a fault of an order with these two names, and says the fault's status.
pub fn refuse<E: Sink>(err: &mut E, fault: Fault, name: &str, other: &str) -> u8
    ensures status { result ≡ status_of fault }
    ensures told { Tells (E.written err.old) (E.written err.new) (E.faults err.old) (E.faults err.new) (fault_text name.now other.now fault) }
{
    let _ = write_fault(err, fault, name.as_bytes(), other.as_bytes());
    status_of(fault)
}

fn write_fault<E: Sink>(err: &mut E, fault: Fault, name: &[u8], other: &[u8]) -> Result<(), Failed>
    ensures { Writes (E.written err.old) (E.written err.new) (E.faults err.old) (E.faults err.new) (fault_text name.now other.now fault) result }
{
    match fault {
        Fault::Unwritten => write_line(err, b"bonsai: cannot write\n"),
        Fault::Usage => write_line(err, USAGE),
        Fault::Unread(source) => {
            write_named(err, b"bonsai: cannot read ", named(name, other, source))
        }
        Fault::Text { what, place } => {
            write_numbered(err, name, b": byte ", place as u64, fault_words(what))
        }
        Fault::Line(line) => {
            write_numbered(err, other, b": line ", line as u64, b"not expected here")
        }
        Fault::Gap(state) => {
            write_numbered(err, other, b": state ", state, b"input without a line")
        }
        Fault::NotFirst(state) => {
            write_numbered(
                err,
                other,
                b": state ",
                state,
                b"own choice depends on the input",
            )
        }
        Fault::Length(source) => {
            write_named(err, b"bonsai: limit: length ", named(name, other, source))
        }
        Fault::Formulas => write_line(err, b"bonsai: limit: formulas\n"),
        Fault::Covers => write_line(err, b"bonsai: limit: covers\n"),
        Fault::States => write_line(err, b"bonsai: limit: states\n"),
        Fault::Memory => write_line(err, b"bonsai: out of memory\n"),
    }
}

/// Writes one text.
fn write_line<E: Sink>(err: &mut E, text: &[u8]) -> Result<(), Failed>
    ensures { Writes (E.written err.old) (E.written err.new) (E.faults err.old) (E.faults err.new) text.now result }
{
    err.write_all(text)
}

/// Writes three texts one after another.
fn write_three<E: Sink>(err: &mut E, a: &[u8], b: &[u8], c: &[u8]) -> Result<(), Failed>
    ensures { Writes (E.written err.old) (E.written err.new) (E.faults err.old) (E.faults err.new) (a.now ++ (b.now ++ c.now)) result }
{
    write_line(err, a)?;
    write_line(err, b)?;
    write_line(err, c)
}

/// Writes a line that ends with a name.
fn write_named<E: Sink>(err: &mut E, before: &[u8], name: &[u8]) -> Result<(), Failed>
    ensures { Writes (E.written err.old) (E.written err.new) (E.faults err.old) (E.faults err.new) (before.now ++ (name.now ++ codes "\n")) result }
{
    write_three(err, before, name, b"\n")
}

/// Writes a line that begins with a name and tells a number.
fn write_numbered<E: Sink>(
    err: &mut E,
    name: &[u8],
    middle: &[u8],
    number: u64,
    tail: &[u8],
) -> Result<(), Failed>
    ensures { Writes (E.written err.old) (E.written err.new) (E.faults err.old) (E.faults err.new) (numbered_text name.now middle.now number tail.now) result }
{
    write_three(err, b"bonsai: ", name, middle)?;
    write_digits(err, number)?;
    write_three(err, b": ", tail, b"\n")
}

/// Writes a number.
fn write_digits<E: Sink>(err: &mut E, number: u64) -> Result<(), Failed>
    ensures { Writes (E.written err.old) (E.written err.new) (E.faults err.old) (E.faults err.new) (decimal number) result }
{
    let mut digits = Buffer::new();
    write_line(err, digits.format(number).as_bytes())
}
