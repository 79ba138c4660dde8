// What a word of code asks for: a jump to an address, work on a cell, or a call.
#[derive(Clone, Copy, PartialEq, Eq, Debug)]
pub enum Instruction {
    // Jumps: always, or where the accumulator is zero, negative or positive.
    Bru(u16),
    Brz(u16),
    Brn(u16),
    Brp(u16),
    // Sum, difference, product and quotient of the accumulator and a cell.
    Ada(u16),
    Sub(u16),
    Mul(u16),
    Div(u16),
    // A cell into the accumulator, and the accumulator into a cell.
    Lda(u16),
    Sta(u16),
    // Calls: take a line, put the accumulator, end the line, stop.
    Read,
    Convert,
    Newline,
    Stop,
}
