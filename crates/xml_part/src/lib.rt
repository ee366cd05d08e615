// A character of which some bytes stand, and what its next byte may be.
#![tactic(auto)]

ghost use Rattle.std.specs.Prelude.{◌≡◌, ◌<◌, ◌≤◌};
ghost use Rattle.xml_checks.specs.of_xml_chars.Chars.{meets, name_start, name_char};
ghost use Rattle.xml_checks.specs.of_xml_state.inside.Parts.{class_of, unit_of, lead_of, follow_of, low_start};

pub use xml_checks as the_xml_checks;
use xml_checks::the_xml_state::Part;
use xml_checks::the_xml_state::class::Class;
pub use xml_checks::{the_area, the_refusal, the_xml_state};
use xml_checks::{crosses, meets_any};

fn wide(b: u8) -> u64
    ensures { (result ≡ b) × (result < 256) }
{
    b as u64
}

fn widen(x: u32) -> u64
    ensures { (result ≡ x) × (result < 4294967296) }
{
    x as u64
}

// The first half of NameStartChar.
fn meets_start_low(low: u64, high: u64) -> bool
    ensures { result ≡ meets low_start low high }
{
    crosses(0x3A, 0x3A, low, high)
        | (crosses(0x41, 0x5A, low, high)
            | (crosses(0x5F, 0x5F, low, high)
                | (crosses(0x61, 0x7A, low, high)
                    | (crosses(0xC0, 0xD6, low, high)
                        | (crosses(0xD8, 0xF6, low, high)
                            | (crosses(0xF8, 0x2FF, low, high)
                                | crosses(0x370, 0x37D, low, high)))))))
}

fn meets_start(low: u64, high: u64) -> bool
    ensures { result ≡ meets name_start low high }
{
    meets_start_low(low, high)
        | (crosses(0x37F, 0x1FFF, low, high)
            | (crosses(0x200C, 0x200D, low, high)
                | (crosses(0x2070, 0x218F, low, high)
                    | (crosses(0x2C00, 0x2FEF, low, high)
                        | (crosses(0x3001, 0xD7FF, low, high)
                            | (crosses(0xF900, 0xFDCF, low, high)
                                | (crosses(0xFDF0, 0xFFFD, low, high)
                                    | crosses(0x10000, 0xEFFFF, low, high))))))))
}

fn meets_name(low: u64, high: u64) -> bool
    ensures { result ≡ meets name_char low high }
{
    crosses(0x2D, 0x2E, low, high)
        | (crosses(0x30, 0x39, low, high)
            | (crosses(0xB7, 0xB7, low, high)
                | (crosses(0x300, 0x36F, low, high)
                    | (crosses(0x203F, 0x2040, low, high) | meets_start(low, high)))))
}

fn meets_class(class: Class, low: u64, high: u64) -> bool
    ensures { result ≡ meets (class_of class) low high }
{
    match class {
        Class::Any => meets_any(low, high),
        Class::Start => meets_start(low, high),
        Class::Name => meets_name(low, high),
    }
}

// How many code points begin alike behind the next byte.
fn unit(left: u8) -> u64
    ensures { (result ≡ unit_of left) × (result ≤ 4096) × (1 ≤ result) }
{
    match left {
        1 => 1,
        2 => 64,
        _ => 4096,
    }
}

// Behind the first byte of a character of more than one.
pub fn lead(class: Class, b: u8) -> Part
    ensures { result ≡ lead_of class b }
{
    if b < 0xE0 {
        let low = (b.saturating_sub(0xC0) as u32) * 64;
        return Part {
            class,
            left: 1,
            low,
            least: 0x80,
        };
    }
    if b < 0xF0 {
        let low = ((b - 0xE0) as u32) * 4096;
        return Part {
            class,
            left: 2,
            low,
            least: 0x800,
        };
    }
    let low = ((b - 0xF0) as u32) * 262144;
    Part {
        class,
        left: 3,
        low,
        least: 0x10000,
    }
}

// Behind a further byte, where some character of the class begins so.
pub fn follow(p: Part, b: u8) -> Option<Part>
    ensures { result ≡ follow_of p b }
{
    if (b < 0x80) | (0xBF < b) {
        return None;
    }
    let unit = unit(p.left);
    let low = widen(p.low) + wide(b - 0x80) * unit;
    let high = low + (unit - 1);
    if !meets_class(p.class, low.max(widen(p.least)), high) {
        return None;
    }
    Some(Part {
        left: p.left.saturating_sub(1),
        low: (low % 4294967296) as u32,
        ..p
    })
}
