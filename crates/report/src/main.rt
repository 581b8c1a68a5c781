// The report program: reads update records from standard input to its end, and prints their history
// and the table of 1,024 slots that they leave.
//
// What is printed is worked out by the crate `history`; here it is read and written. A read that fails
// is no end of the input: nothing is printed then but a message to standard error.
#![tactic(auto)]

ghost use Rattle.history.specs.Reports.{rows};
ghost use Rattle.report.specs.Lent.{Holds, Printable};

use history::Stage;
use history::fill::fill;
use std::io::{self, Read, Write};

// Reads until the input ends or the buffer is full: how many bytes were read, which stand at the front
// of the buffer.
fn read_input<R: Read>(from: &mut R, buffer: &mut [u8]) -> io::Result<usize>
    ensures { Holds buffer.new result }
{
    let mut size = 0;
    while size < buffer.len() {
        match from.read(&mut buffer[size..])? {
            0 => break,
            more => size += more,
        }
    }
    Ok(size)
}

// Prints the report of the bytes, part by part. Stops where a part cannot be written.
fn print_report<W: Write>(
    to: &mut W,
    bytes: &[u8],
    addresses: &mut [u32],
    tags: &mut [u32],
    text: &mut [u8],
) -> io::Result<()>
    requires { Printable (rows addresses.old tags.old) text.old }
{
    let mut stage = Stage::start(bytes.len());
    while !stage.is_done() {
        let Ok(part) = fill(bytes, stage, addresses, tags, text) else {
            break;
        };
        to.write_all(&text[..part.size])?;
        stage = part.stage;
    }
    Ok(())
}

// Says what failed.
fn failed<E: Write>(errors: &mut E, what: &[u8]) {
    let _ = errors.write_all(what);
}

fn main(rt: HostRuntime) {
    // a byte more than the most, so that a longer input is seen to be one
    let mut input = [0u8; 65537];
    let mut addresses = [0u32; 1024];
    let mut tags = [0u32; 1024];
    let mut text = [0u8; 65536];
    let mut errors = rt.stderr();
    match read_input(&mut rt.stdin(), &mut input) {
        Err(_) => failed(&mut errors, b"report: standard input cannot be read\n"),
        Ok(size) => {
            let printed = print_report(
                &mut rt.stdout(),
                &input[..size],
                &mut addresses,
                &mut tags,
                &mut text,
            );
            if printed.is_err() {
                failed(&mut errors, b"report: standard output cannot be written\n");
            }
        }
    }
}
