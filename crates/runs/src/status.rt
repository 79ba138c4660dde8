// How a run stands.
#[derive(Clone, Copy, PartialEq, Eq, Debug)]
pub enum Status {
    Running,
    // The run came to its end.
    Stopped,
    // A line was wanted and none waited.
    NoLine,
    // A mark was wanted and there was no paper for it.
    NoPaper,
    // The word at this address is none that the machine carries out.
    Corrupt(u16),
}
