/// Why a run to which numbers come was halted before its end.
#[derive(Clone, Copy, PartialEq, Eq, Debug)]
pub enum Halt {
    /// Writing the lines of a release failed.
    SinkFault,
    /// The memory for the next turn, for what is released, for the numbers that came, or for the floor and its passes isn't there.
    NoMemory,
    /// What came next is no number. Its first byte, counted from 0 in the whole input.
    Bad(u64),
    /// The input can't be read any further.
    Failed,
    /// A number came, and the script has as many as it can have.
    TooMany,
}
