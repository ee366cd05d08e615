// The program: a table from standard input, the table that its report is written as to standard output. It only reads and writes;
// crate `write_printing` says what is printed.
#![tactic(auto)]

use program_input::read_input;
use program_input::the_list_input::front;
use std::io;
use write_printing::print_input;

fn write_front(rt: &impl Print, out: &[u8; 196620], n: usize) -> io::Result<()> {
    rt.write_all(front(out, n))
}

// By rule P5. There is room for three words, and a buffer each for events, attributes and source; what follows is ignored.
fn main(rt: HostRuntime) -> io::Result<()> {
    let mut room = [0u8; 196620];
    let mut out = [0u8; 196620];
    let given = read_input(&rt, &mut room)?;
    let k = print_input(given, &mut out);
    write_front(&rt, &out, k)?;
    Ok(())
}
