// Where in a table's source a refusal arose.
ghost use Rattle.std.specs.Prelude.{◌≡◌, eqb, length};
ghost use Rattle.case_tags.specs.of_refusal.declared.Cause.TheVariants.{MissingReport};
ghost use Rattle.port_values.specs.of_port_refusal.Port.{code};
ghost use Rattle.refusal_place.specs.Place.{byte_of};

use port_values::the_port_refusal::KRefusal;

// The code of `MissingReport`.
const NO_REPORT: u32 = 9;

// The refusal may be made up. 4294967295 where no byte is concerned.
#[unsafe(no_mangle)]
pub extern "C" fn kerzhoma_refusal_byte(
    refusal: KRefusal,
    events: &[u32],
    attributes: &[u32],
    source: &[u8],
) -> usize
    ensures { result ≡ byte_of (eqb refusal.cause (code MissingReport)) refusal.event refusal.attribute events.now attributes.now (length source.now) }
{
    refusal_place::byte_of(
        refusal.cause == NO_REPORT,
        refusal.event,
        refusal.attribute,
        events,
        attributes,
        source,
    )
}
