// Judges a layer sheet: reads standard input and prints the report of its first 512 bytes. Which bytes are judged and what is printed is the work of `report`.
#![tactic(auto)]

use std::io;

fn main(rt: HostRuntime) -> io::Result<()> {
    // More than is judged.
    let mut input = [0u8; 1024];
    let n = stdin::read_full(&mut rt.reader(), &mut input)?;
    // No report is longer.
    let mut text = [0u8; 80];
    let end = report::report(&input[..n], &mut text);
    rt.write_all(&text[..end])
}
