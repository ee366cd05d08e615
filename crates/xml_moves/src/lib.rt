// What a byte does in a mode, from three tables: the byte's class, and the next mode and the act for each mode and class.
#![tactic(auto)]

ghost use Rattle.std.specs.Prelude.{◌≡◌, ◌≤◌, ◌<◌};
ghost use Rattle.xml_state.specs.inside.Tables.{class_table, next_table, act_table};
ghost use Rattle.xml_state.specs.inside.Rows.{move_of};

use xml_state::Move;

fn wide(b: u8) -> usize
    ensures { (result ≡ b) × (result < 256) }
{
    b as usize
}

// A row for each mode, with an entry for each of the 36 classes; both are counted from `0` on.
pub fn move_at(mode: u8, b: u8, classes: &[u8], nexts: &[u8], acts: &[u8]) -> Move
    requires le_mode { (48 ≤ mode) × (mode < 122) }
    requires classes_value { (classes.now ≡ class_table) × (nexts.now ≡ next_table) × (acts.now ≡ act_table) }
    ensures { result ≡ move_of mode b }
{
    let class = wide(classes[wide(b)]);
    let i = (wide(mode) - 48) * 36 + (class - 48);
    Move {
        mode: nexts[i],
        act: acts[i],
    }
}
