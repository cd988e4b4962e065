// What is found out of a path, and the tests of it.
#![tactic(auto)]

ghost use Rattle.std.specs.Prelude.{◌≡◌};
ghost use Rattle.kinds.specs.Kinds.{is_refuted, is_unknown};

// What is found out of a path.
#[derive(Clone, Copy, PartialEq)]
pub enum Kind {
    Refuted,
    Open,
    Unknown,
}

impl Kind {
    pub fn is_refuted(self) -> bool
        ensures { result ≡ is_refuted self }
    {
        self == Kind::Refuted
    }

    pub fn is_unknown(self) -> bool
        ensures { result ≡ is_unknown self }
    {
        self == Kind::Unknown
    }
}
