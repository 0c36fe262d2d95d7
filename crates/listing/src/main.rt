// Lists the citations of a text of at most 4,096 bytes: reads it from standard input, and writes the counts of groups, items and sources and
// a line for each item; or `refused N`. What is written for which text is what `listing_lines::list` promises.
#![tactic(auto)]

use std::io;
use std::io::Write;

fn main(rt: HostRuntime) -> io::Result<()> {
    // arrays, so that the program needs no heap; one byte more than the longest text, which tells a text that is too long
    let mut text = [0u8; 4097];
    let n = reading::read_full(&mut rt.stdin(), &mut text)?;
    let mut out = [0u8; listing_lines::ROOM];
    let m = listing_lines::list(&text[..n], &mut out);
    rt.stdout().write_all(&out[..m])
}
