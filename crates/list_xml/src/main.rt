// The program: an XML document from standard input, its public listing to standard output. It only reads and writes; crate
// `xml_printing` says what is printed.
#![tactic(auto)]

use program_input::read_input;
use program_input::the_list_input::front;
use std::io;
use xml_printing::print_xml;

fn write_front(rt: &impl Print, out: &[u8; 65536], n: usize) -> io::Result<()> {
    rt.write_all(front(out, n))
}

// By rule N12. There is room for one byte more than a document may have.
fn main(rt: HostRuntime) -> io::Result<()> {
    let mut room = [0u8; 65537];
    let mut out = [0u8; 65536];
    let given = read_input(&rt, &mut room)?;
    let k = print_xml(given, &mut out);
    write_front(&rt, &out, k)?;
    Ok(())
}
