// What is done at a child of suite, case and status element: lists, outputs, and all of a status element (rules R10, R13 and S2 to S4).
#![tactic(auto)]

ghost use Rattle.std.specs.Prelude.{◌≡◌, ℕ, List, cond};
ghost use Rattle.names.specs.Tags.{tag_of};
ghost use Rattle.table.specs.Event.{Start, Empty, tag_kind};
ghost use Rattle.read_state.specs.Control as plan;
ghost use Rattle.read_children.specs.Children as rules;
ghost use Rattle.read_state.specs.inside.Coded.{level_in_of, output_of, act_in};

pub use names as the_names;
use names::tag::{STACK_TRACE, SYSTEM_ERR, SYSTEM_OUT};
pub use read_state as the_read_state;
pub use read_state::{the_refusal, the_tree_record, the_tree_status};
use read_state::{Act, Output};
pub use table as the_table;
use table::kind::{EMPTY, START};

// The seven status names (rule S1) are the codes 6 to 12.
pub fn is_status(tag: usize) -> bool
    ensures { result ≡ plan.is_status tag }
{
    (6 <= tag) & (tag <= 12)
}

// An Empty output is closed where it stands (rules R13 and S3).
fn text_of(output: Output, empty: bool) -> Act
    ensures { (m : plan.Mode) (name : List ℕ) → act_in m name result ≡ cond empty (plan.close_text (level_in_of m) (output_of output)) (plan.open_text (level_in_of m) (output_of output)) }
{
    if empty {
        Act::CloseText(output)
    } else {
        Act::OpenText(output)
    }
}

// The outputs of suite, case and status element; any other child is skipped (rules R11 and S4), and an Empty one ends where it stands (rule R13).
#[tactic(auto, using(crate::proofs::Children::child_out, crate::proofs::Children::child_err), unfolding(crate::specs::Children::outputs, crate::specs::Children::emptied))]
pub fn child(tag: usize, empty: bool) -> Act
    ensures { (l : plan.Level) (name : List ℕ) → tag_of name ≡ tag → act_in (plan.at l) name result ≡ cond empty (rules.emptied l name) (rules.outputs l name) }
{
    match tag {
        SYSTEM_OUT => text_of(Output::Out, empty),
        SYSTEM_ERR => text_of(Output::Err, empty),
        _ => { if empty { Act::Pass } else { Act::Skip } }
    }
}

// A list in either spelling replaces the one that was there (rule R13).
pub fn list_of(empty: bool) -> Act
    ensures { (m : plan.Mode) (name : List ℕ) → act_in m name result ≡ plan.open_list (level_in_of m) empty }
{
    Act::OpenList(empty)
}

#[tactic(auto, using(crate::proofs::Children::status_opens))]
fn open_status(tag: usize, empty: bool) -> Act
    ensures { (name : List ℕ) → tag_of name ≡ tag → act_in (plan.at plan.status) name result ≡ rules.at_status (cond empty Empty Start) name }
{
    if tag == STACK_TRACE {
        return text_of(Output::Trace, empty);
    }
    child(tag, empty)
}

// It ends at an End of any of the seven status names (rule S2); children by rules S3 and S4.
#[tactic(auto, using(crate::proofs::Children::kind_end), unfolding(crate::specs::Children::at_status))]
pub fn step_status(kind: u32, tag: usize) -> Act
    ensures { (name : List ℕ) → tag_of name ≡ tag → act_in (plan.at plan.status) name result ≡ rules.at_status (tag_kind kind) name }
{
    match kind {
        START => open_status(tag, false),
        EMPTY => open_status(tag, true),
        _ => {
            let ends = is_status(tag);
            if ends { Act::Close } else { Act::Pass }
        }
    }
}
