// Answers a list of cases: reads them from standard input, one a line, and writes one line for each to standard output.
// A case is the name of an entry and its arguments, each after a blank as the 16 lower-case hexadecimal digits of a double's bits or of an
// i64's two's complement; a slice is its length in such digits, and then its elements. The answer is the name and what the library answers, in
// the same form, after a refusal's number, or 0, in decimal where the entry can refuse. A line that is no case has `bad case` at its end.
#![tactic(auto)]

mod boards;
mod entries;
mod line;
mod numbers;
mod printer;
mod words;

use entries::Case;
use line::Line;
use std::alloc::Global;
use std::io;
use std::io::{BufRead, BufReader, BufWriter, ErrorKind, Write};

// Answers a line that is read to its end.
fn answer_line(alloc: Global, out: &mut impl Write, line: &Line) -> io::Result<()> {
    if let Some((name, words)) = line.case() {
        out.write_all(name)?;
        let mut case = Case { alloc, out, words };
        if case.answer(name)? {
            return out.write_all(b"\n");
        }
    }
    out.write_all(b" bad case\n")
}

// Takes bytes of the input: every line that a line feed ends is answered before the next is read.
fn take_bytes(
    alloc: Global,
    out: &mut impl Write,
    line: &mut Line,
    bytes: &[u8],
) -> io::Result<()> {
    for byte in bytes {
        if *byte == b'\n' {
            answer_line(alloc, out, line)?;
            out.flush()?;
            line.begin();
        } else {
            line.take(*byte);
        }
    }
    Ok(())
}

// Answers every line of the input that a line feed ends. By what each read gives, since std's `bytes` asks its reader anew for each; a proved loop has
// to end, so the reads are counted up to a number that no run uses up.
fn answer_all(
    alloc: Global,
    mut input: impl BufRead + Drop,
    out: &mut impl Write,
) -> io::Result<()> {
    let mut line = Line::new(alloc)?;
    for _ in 0..u64::MAX {
        let bytes = match input.fill_buf() {
            Err(e) if e.kind() == ErrorKind::Interrupted => continue,
            read => read?,
        };
        if bytes.is_empty() {
            break;
        }
        let count = bytes.len();
        take_bytes(alloc, out, &mut line, bytes)?;
        input.consume(count);
    }
    Ok(())
}

// Answers standard input on standard output.
fn main(rt: HostRuntime) -> io::Result<()> {
    let alloc = rt.alloc();
    let input = BufReader::new(alloc, rt.stdin())?;
    let mut out = BufWriter::new(alloc, rt.stdout())?;
    answer_all(alloc, input, &mut out)
}
