// Reads a table.dat on standard input and prints its row count and its columns, or its refusal: the number and the byte. Where the
// input can not be read to its end it prints nothing but a message on standard error, and a message too where standard output can
// not be written.
#![tactic(auto)]

ghost use Rattle.std.specs.Prelude.{◌≤◌, length, IfOk};

use bytes_at::Refusal;
use std::io;
use std::io::{Read, Write};
use table_rules::Column;

// A line: position, name, type, elements or 0 where they are not fixed, sequence number.
fn print_column<W: Write>(
    out: &mut W,
    s: &[u8],
    position: usize,
    c: &Column,
    sequence: u32,
) -> io::Result<()> {
    write!(out, "{position} ")?;
    out.write_all(bytes_at::part(s, c.start, c.len))?;
    out.write_all(b" ")?;
    out.write_all(c.datatype.bare_name())?;
    writeln!(out, " {} {sequence}", c.elements)
}

// No Display of `Refusal`: what a program prints of it is the program's own.
fn print_refusal<W: Write>(out: &mut W, why: Refusal) -> io::Result<()> {
    writeln!(out, "refused {} {}", why.number, why.byte)
}

// The listing of the table that a table.dat describes.
fn list<W: Write>(out: &mut W, s: &[u8]) -> io::Result<()> {
    let d = table::describe(s);
    if d.refused.number != 0 {
        return print_refusal(out, d.refused);
    }
    writeln!(out, "rows {} columns {}", d.rows, d.column_count)?;
    let columns = &d.columns[..d.column_count];
    for (i, (column, binding)) in columns.iter().zip(&d.bindings).enumerate() {
        print_column(out, s, i, column, binding.sequence)?;
    }
    Ok(())
}

// As much of the input as the buffer holds, which is how many bytes. A turn reads one byte at least. No call of std does it: `read_to_end`
// wants a Vec, and there is no heap; `read_exact` refuses a shorter input.
fn read_all<R: Read>(input: &mut R, buffer: &mut [u8]) -> io::Result<usize>
    ensures { IfOk result (λ n. n ≤ length buffer.new) }
{
    let mut n = 0;
    for _ in 0..buffer.len() {
        let got = input.read(&mut buffer[n..])?;
        if got == 0 {
            break;
        }
        n += got;
    }
    Ok(n)
}

fn main(rt: HostRuntime) -> io::Result<()> {
    // One byte more than a table.dat may have, so that a longer one is seen to be too long.
    let mut buffer = [0u8; 65537];
    let Ok(n) = read_all(&mut rt.stdin(), &mut buffer) else {
        return eprintln!(rt; "listing: cannot read standard input");
    };
    if list(&mut rt.stdout(), &buffer[..n]).is_err() {
        return eprintln!(rt; "listing: cannot write standard output");
    }
    Ok(())
}
