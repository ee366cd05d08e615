// Tables with stored answers: standard input holds tables as the program `list` takes them, one behind the other. Each is told as
// crate `tell` does.
#![tactic(auto)]

ghost use Rattle.std.specs.Prelude.{◌≤◌, length, IfOk};

use program_input::read_input;
use program_input::the_list_input::input_of;
use std::io;
use test_tell::tell_table;

fn replay(rt: &impl Print, events: &[u32], attributes: &[u32], source: &[u8]) -> io::Result<()> {
    let mut records = [0u32; 16384];
    let mut text = [0u8; 65536];
    let mut scratch = [0u8; 65536];
    let mut out = [0u8; 65536];
    tell_table(
        rt,
        events,
        attributes,
        source,
        &mut records,
        &mut text,
        &mut scratch,
        &mut out,
    )
}

// Replays the table that s begins with: how many bytes it takes, 0 where there is none.
fn replay_first(rt: &impl Print, s: &[u8]) -> io::Result<usize>
    ensures { IfOk result (λ n. n ≤ length s.now) }
{
    let mut events = [0u32; 16384];
    let mut attributes = [0u32; 16384];
    let found = input_of(s, &mut events, &mut attributes);
    match found {
        Some(x) => {
            let m = x.events;
            let n = x.attributes;
            let at = x.at;
            let end = at + x.source;
            replay(rt, &events[..m], &attributes[..n], &s[at..end])?;
            Ok(end)
        }
        None => Ok(0),
    }
}

fn replay_all(rt: &impl Print, s: &[u8]) -> io::Result<()> {
    let mut at = 0;
    // while: each step passes a whole table.
    while at < s.len() {
        let taken = replay_first(rt, &s[at..])?;
        if taken == 0 {
            return Ok(());
        }
        at += taken;
    }
    Ok(())
}

fn replay_input(rt: &(impl Input + Print), room: &mut [u8]) -> io::Result<()> {
    let given = read_input(rt, room)?;
    replay_all(rt, given)
}

fn main(rt: HostRuntime) -> io::Result<()> {
    let mut room = [0u8; 1048576];
    replay_input(&rt, &mut room)?;
    Ok(())
}
