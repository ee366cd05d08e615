// References of values, and the names of Ref events.
#![tactic(auto)]

ghost use Rattle.std.specs.Prelude.{◌≡◌, cond, ◌≤◌, length};
ghost use Rattle.names.specs.of_area.Answer.{gives, refuses};
ghost use Rattle.digits.specs.Digits.{number_in};
ghost use Rattle.reference.specs.Reference.{xml_char, entity_answer, entity_of, base, digits_in, number, is_char_ref, named_answer, named, ref_at, refs_ok};
ghost use Rattle.names.specs.of_refusal.declared.Cause.TheVariants as cause;

pub use names as the_names;

// By rule X4.
#[tactic(auto, unfolding(crate::specs::Reference::xml_char))]
fn is_xml_char(c: u64) -> bool
    ensures { result ≡ xml_char c }
{
    (c == 0x9)
        | (c == 0xa)
        | (c == 0xd)
        | ((0x20 <= c) & (c <= 0xd7ff))
        | ((0xe000 <= c) & (c <= 0xfffd))
        | ((0x10000 <= c) & (c <= 0x10ffff))
}

// The character of one of the five names (rule X3).
fn entity_of(name: &[u8]) -> Option<u8>
    ensures { entity_answer result ≡ entity_of name.now }
{
    let chars: [u8; 5] = [0x26, 0x3c, 0x3e, 0x27, 0x22];
    let k = names::code_in(b"ampltgtaposquot", b"\x03\x02\x02\x04\x04", name);
    if k == 0 {
        return None;
    }
    Some(chars[k - 1])
}

// The number of a character reference.
fn number_of(name: &[u8]) -> Option<u64>
    requires { 2 ≤ length name.now }
    ensures { result ≡ number_in (base name.now) 0x10FFFF (digits_in name.now) }
{
    if name[1] == 0x78 {
        return digits::hexadecimal(&name[2..], 0x10ffff);
    }
    digits::decimal(&name[1..], 0x10ffff)
}

// By rule X4.
fn char_ref_of(name: &[u8]) -> Option<u32>
    ensures { named_answer result ≡ cond (is_char_ref name.now) (gives (number name.now)) (refuses cause.BadReference) }
{
    if name.len() < 2 {
        return None;
    }
    if name[0] != 0x23 {
        return None;
    }
    let v = number_of(name)?;
    if is_xml_char(v) {
        return Some(v as u32);
    }
    None
}

// The character that a name between & and ; in a value, or of a Ref event, stands for.
pub fn named_by(name: &[u8]) -> Option<u32>
    ensures { named_answer result ≡ named name.now }
{
    match entity_of(name) {
        Some(c) => Some(c as u32),
        None => char_ref_of(name),
    }
}

// The reference that s, which stands behind an ampersand, begins with (rule X3): its character, and how many bytes it takes there, with
// its semicolon.
pub fn ref_at(s: &[u8]) -> Option<(u32, usize)>
    ensures { result ≡ ref_at s.now }
{
    let e = names::the_area::first_at(s, 0x3b);
    if s.len() <= e {
        return None;
    }
    let c = named_by(&s[..e])?;
    Some((c, e + 1))
}

// Whether every ampersand of s begins a reference (rule X5). A reference is passed over whole, and the first ampersand that begins
// none ends the search, so the time is linear.
pub fn refs_ok(s: &[u8]) -> bool
    ensures { result ≡ refs_ok s.now 0 }
{
    // while: a turn passes a whole reference.
    let mut i = 0;
    while i < s.len() {
        let b = s[i];
        i += 1;
        if b == 0x26 {
            let Some((_, w)) = ref_at(&s[i..]) else {
                return false;
            };
            i += w;
        }
    }
    true
}
