// From the text of a sheet to its refusal or its image, and from its image to its runs: this crate joins the limits of
// texts with the runs of programs. It holds no running code; what is defined stands in specs/, and the functions here
// carry the theorems about it. It knows tokens, the grammar, limits and runs, and words and hosts as mathematics.
#![tactic(auto)]

ghost use Rattle.sheets.specs.Laws.{AcceptedIsPlaced, SymbolsStand, SheetRunsAgree, OneImage};
ghost use Rattle.sheets.specs.Samples.{Samples};

// A text gets one refusal, or is accepted with one program and one image, and not both.
pub fn one_image()
    ensures { OneImage }
{}

// What a load of an accepted text leaves: a program within the limits, cells that are apart and ready, few words of 16 bits.
pub fn accepted_is_placed()
    ensures { AcceptedIsPlaced }
{}

// Each symbol of an accepted text points to bytes of the text, and leads to the cell or the address of what they name.
pub fn symbols_stand()
    ensures { SymbolsStand }
{}

// After n steps the machine on the image of an accepted text shows just the events of running cost at most n of the source
// run of the program that the text reads as; the whole run exactly when the steps are at least its cost; never a corrupt word.
pub fn sheet_runs_agree()
    ensures { SheetRunsAgree }
{}

// Small sheets: their refusals, images and runs.
pub fn samples_hold()
    ensures { Samples }
{}
