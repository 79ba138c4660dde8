// Input lines as text: an optional "-", 1 to 18 digits and byte 10. The check of a text, and a reader of its lines.
// It knows nothing of hosts.
#![tactic(auto)]

ghost use Rattle.lines.specs.Checking.{Checked};
ghost use Rattle.lines.specs.Reading.{FormHolds};

pub mod reader;
pub mod reading;
pub mod stage;

use fault::{Fault, Refusal};
use stage::Stage;

// The count of lines, or refusal 17 at the first byte that no lawful text has there, or at the end of a text that breaks off.
#[tactic(auto, using(crate::proofs::Checks::breaks_here, crate::proofs::Checks::breaks_off))]
pub fn check(text: &[u8]) -> Result<usize, Fault>
    ensures { Checked text.now result }
{
    let mut stage = Stage::Start;
    let mut count = 0usize;
    for (i, byte) in text.iter().enumerate() {
        stage = stage.after(*byte).ok_or(Fault {
            refusal: Refusal::BadLine,
            place: i,
        })?;
        if *byte == b'\n' {
            count += 1;
        }
    }
    match stage {
        Stage::Start => Ok(count),
        Stage::Digits(_) => Err(Fault {
            refusal: Refusal::BadLine,
            place: text.len(),
        }),
    }
}

// The form of lines by its rules, and as it is read byte by byte, are one.
#[tactic(auto, using(crate::proofs::Forms::form_holds_lem))]
pub fn form_holds()
    ensures { FormHolds }
{}
