// The `testcase` tags of a table, whether or not reading makes a case of them.
ghost use Rattle.std.specs.Prelude.{◌≡◌, ℕ, List};
ghost use Rattle.refusal_place.specs.of_table.Event.{resolve};
ghost use Rattle.case_tags.specs.Tags.{case_tags};

// Of any words and bytes. A report that reading gives has no more cases (crate case_claims): the others are passed over.
#[unsafe(no_mangle)]
pub extern "C" fn kerzhoma_case_tags(events: &[u32], source: &[u8]) -> usize
    ensures { (attributes : List ℕ) → result ≡ case_tags (resolve events.now attributes source.now) }
{
    case_tags::case_tags(events, source)
}
