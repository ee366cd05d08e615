// What a program is given: as much of its standard input as there is room for.
#![tactic(auto)]

pub use list_input as the_list_input;
use list_input::front;
use std::io;
use std::io::Read;

pub fn read_input<'a>(rt: &impl Input, room: &'a mut [u8]) -> io::Result<&'a [u8]> {
    let mut from = rt.reader();
    let mut n = 0;
    // while: each turn passes what one read gave.
    while n < room.len() {
        let k = from.read(&mut room[n..])?;
        if k == 0 {
            break;
        }
        n += k;
    }
    let all = &room[..];
    Ok(front(all, n))
}
