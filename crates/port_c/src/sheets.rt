// The release sheet over a lent array of counts, and as text. The exported calls are thin: a slice of structs is handed on.
ghost use Rattle.std.specs.Prelude.{◌≡◌, length};
ghost use Rattle.sheet_text.specs.of_sheet_sums.Sheet.{release_sheet};
ghost use Rattle.sheet_text.specs.Printed.{outcome_in, printing, sheet_area};
ghost use Rattle.port_c.specs.Sheets.{port_released, released_port, printed_port};

use port_values::the_port_refusal::{KRefusal, from_refusal};
use sheet_text::the_sheet_sums::{Released, Sheet};
use sheet_text::the_tree_counts::Counts;

// The sheet is zero throughout where the call refuses.
#[repr(C)]
#[derive(Clone, Copy)]
pub struct KReleased {
    pub sheet: Sheet,
    pub refusal: KRefusal,
}

// The length is 0 where the call refuses.
#[repr(C)]
#[derive(Clone, Copy)]
pub struct KPrinted {
    pub length: usize,
    pub refusal: KRefusal,
}

fn released(answer: Released) -> KReleased
    ensures { result ≡ port_released answer }
{
    let verdict = answer.verdict;
    let sheet = answer.sheet;
    let refusal = answer.refusal;
    KReleased {
        sheet,
        refusal: from_refusal(verdict, refusal),
    }
}

fn printed(answer: Released, out: &mut [u8]) -> KPrinted
    ensures { (result ≡ printed_port (printing (outcome_in answer) (length out.old))) × (out.new ≡ sheet_area (outcome_in answer) (length out.old)) }
{
    let text = sheet_text::print_sheet(answer, out);
    let verdict = text.verdict;
    let refusal = text.refusal;
    KPrinted {
        length: text.length,
        refusal: from_refusal(verdict, refusal),
    }
}

#[unsafe(no_mangle)]
pub extern "C" fn kerzhoma_release_sheet(records: &[Counts]) -> KReleased
    ensures { result ≡ released_port (release_sheet records.now) }
{
    let answer = sheet::release_sheet(records);
    released(answer)
}

#[unsafe(no_mangle)]
pub extern "C" fn kerzhoma_print_sheet(records: &[Counts], out: &mut [u8]) -> KPrinted
    ensures { (result ≡ printed_port (printing (release_sheet records.now) (length out.old)))
        × (out.new ≡ sheet_area (release_sheet records.now) (length out.old)) }
{
    let answer = sheet::release_sheet(records);
    printed(answer, out)
}
