// The kinds of records.
ghost use Rattle.std.specs.Prelude.{◌≡◌};
ghost use Rattle.records.specs.Kinds.{kind_number};

// What a record holds: in a program's file its head, a rule or the end, and in a certificate its head, a claim or the end.
#[derive(Clone, Copy)]
pub enum RecordKind {
    ProgramHead = 1,
    Rule = 2,
    End = 3,
    CertificateHead = 17,
    Claim = 18,
}

impl RecordKind {
    // The number that stands for a kind in a file.
    pub fn number(self) -> u16
        ensures value { result ≡ kind_number self }
    {
        self as u16
    }
}
