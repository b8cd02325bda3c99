// Prints the report on the file that stands on standard input. A file has at most 32,768 bytes, so that one byte more than that
// tells a file that is too long.
#![tactic(auto)]

use texts::report;

fn main() {
    let mut bytes = [0u8; 32769];
    let n = io::read_full(0, &mut bytes);
    let page = report(&bytes[..n]);
    io::write_all(1, page.text());
}
