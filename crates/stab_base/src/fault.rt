//! Why a thread ended before its time.
ghost use Rattle.std.specs.Prelude.{◌≡◌};
ghost use Rattle.stab_base.specs.FaultName.{fault_name};

/// What ended a thread. A fault ends its own thread and no other.
#[derive(Clone, Copy, PartialEq, Eq, Debug)]
pub enum Fault {
    /// An operand of another kind than its operator or act asks for.
    WrongKind,
    /// A number outside 64 signed bits.
    Overflow,
    /// A division by zero.
    ZeroDivisor,
    /// More than 1,000 forms round the next redex.
    TooDeep,
    /// A pair that would pass a limit of pairs.
    DeepValue,
    /// A `stabilize` outside every section that can still be taken back.
    NoSection,
}

impl Fault {
    /// The name by which a run's output calls the fault.
    pub fn name(self) -> &'static str
        ensures { result.now ≡ fault_name self }
    {
        match self {
            Fault::WrongKind => "WrongKind",
            Fault::Overflow => "Overflow",
            Fault::ZeroDivisor => "ZeroDivisor",
            Fault::TooDeep => "TooDeep",
            Fault::DeepValue => "DeepValue",
            Fault::NoSection => "NoSection",
        }
    }
}
