// UUIDs as they are written, put into an area that the caller lends.
#![tactic(auto)]

ghost use Rattle.std.specs.Prelude.{◌≡◌, ◌%◌, ◌≤◌, length};
ghost use Rattle.std.proofs.lemmas.List.Edits.{sets};
ghost use Rattle.uuids.specs.of_area.Area.{stored_answer, placing, laid};
ghost use Rattle.write_uuid.specs.Written.{hex_digit, hex_octets, uuid_text};
ghost use Rattle.uuids.specs.of_refusal.declared.Cause.TheVariants as cause;

pub use uuids as the_uuids;
use uuids::Words;
use uuids::the_area::copy_into;

// The last hexadecimal digit of n.
fn digit(n: u32) -> u8
    ensures { result ≡ hex_digit (n % 16) }
{
    let d = (n % 16) as u8;
    if d < 10 { 0x30 + d } else { 0x57 + d }
}

// Puts the last two octets of n into bytes from `at` on.
fn put_octets(bytes: &mut [u8; 36], at: usize, n: u32)
    requires { at ≤ 32 }
    ensures { bytes.new ≡ sets bytes.old at (hex_octets 2 n) }
{
    bytes[at] = digit(n / 4096);
    bytes[at + 1] = digit(n / 256);
    bytes[at + 2] = digit(n / 16);
    bytes[at + 3] = digit(n);
}

fn spell(w: Words) -> [u8; 36]
    ensures { result ≡ uuid_text w }
{
    let mut bytes = *b"00000000-0000-0000-0000-000000000000";
    put_octets(&mut bytes, 0, w.a / 65536);
    put_octets(&mut bytes, 4, w.a);
    put_octets(&mut bytes, 9, w.b / 65536);
    put_octets(&mut bytes, 14, w.b);
    put_octets(&mut bytes, 19, w.c / 65536);
    put_octets(&mut bytes, 24, w.c);
    put_octets(&mut bytes, 28, w.d / 65536);
    put_octets(&mut bytes, 32, w.d);
    bytes
}

// Puts w at the front of out (rule W9).
pub fn write_uuid(out: &mut [u8], w: Words) -> Option<usize>
    ensures result_value { stored_answer cause.OutputFull result ≡ placing cause.OutputFull (length out.old) (uuid_text w) }
    ensures out_after { out.new ≡ laid out.old (uuid_text w) }
{
    let bytes = spell(w);
    copy_into(out, &bytes)
}
