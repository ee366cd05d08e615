// An attribute's value by its role.
#![tactic(auto)]

ghost use Rattle.std.specs.Prelude.{◌≤◌, length};
ghost use Rattle.read_values.specs.of_read_element.inside.Refines.{areas};
ghost use Rattle.read_role.specs.inside.Roles.{RoleFits, ReadsValue};

pub use read_values as the_read_values;
use read_values::the_read_keys::Role;
use read_values::the_refusal::Cause;
use read_values::{read_count, read_duration, read_number, read_text, read_timestamp, read_uuid};

// A value by its role, which is no extra.
pub fn read_value(
    role: Role,
    value: &[u8],
    fill: usize,
    own: &mut [u32],
    text: &mut [u8],
) -> Result<usize, Cause>
    requires fill_in_bounds { fill ≤ length text.old }
    requires text_len_bound { length text.old ≤ 16777216 }
    requires role_fits { RoleFits role }
    ensures { ReadsValue role value.now fill (areas own.old text.old) (areas own.new text.new) result }
{
    match role {
        Role::Text(o, k) => read_text(value, o, k, fill, own, text),
        Role::Count(o) => read_count(value, o, fill, own),
        Role::Number(o, k) => read_number(value, o, k, fill, own),
        Role::Uuid => read_uuid(value, fill, own),
        Role::Timestamp(kept) => read_timestamp(value, kept, fill, own),
        Role::Time(kept) => read_duration(value, kept, fill, own),
        Role::Extra => Ok(fill),
        Role::Ignored => Ok(fill),
    }
}
