//! What the files of a call are for.
ghost use Rattle.std.specs.Prelude.{◌≡◌};
ghost use Rattle.call_status.specs.Role.{max_bytes, role_name};

/// What a file is for.
#[derive(Clone, Copy, PartialEq, Eq, Debug)]
pub enum Role {
    Program,
    Probes,
    Trace,
    Script,
    Image,
}

impl Role {
    /// The word for the role in the reason line.
    pub fn name(self) -> &'static str
        ensures { result.now ≡ role_name self }
    {
        match self {
            Role::Program => "program",
            Role::Probes => "probes",
            Role::Trace => "trace",
            Role::Script => "script",
            Role::Image => "image",
        }
    }

    /// The largest size of such a file, in bytes.
    pub fn max_bytes(self) -> u64
        ensures { result ≡ max_bytes self }
    {
        match self {
            Role::Program | Role::Probes | Role::Script => 1_048_576,
            Role::Trace | Role::Image => 67_108_864,
        }
    }
}
