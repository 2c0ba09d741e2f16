// Grades, and levels: a grade for what is absent beside one for what is there and not as asked.
#![tactic(auto)]

ghost use Rattle.std.specs.Prelude.{◌≡◌};
ghost use Rattle.grade.specs.Grades.{number as number_of, stricter as stricter_of, join as join_of, Strictness, Joining, WorkedRow};

/// How strict a finding is, from the least strict grade to the strictest.
#[derive(Clone, Copy, Debug, PartialEq, Eq, PartialOrd, Ord)]
pub enum Grade {
    Clear = 0,
    Note = 1,
    Hold = 2,
}

/// A grade for what is absent, and one for what is there and not as asked.
pub type Level = (Grade, Grade);

impl Grade {
    /// The number by which the grade is told.
    pub fn number(self) -> u8
        ensures { result ≡ number_of self }
    {
        self as u8
    }

    /// The stricter of two grades.
    // `max` by the name of the rules, since `max` carries no law of theirs.
    pub fn stricter(self, other: Grade) -> Grade
        ensures is { result ≡ stricter_of self other }
        ensures laws { Strictness }
    {
        self.max(other)
    }
}

/// Two levels together: part by part the stricter one.
#[tactic(auto, using(crate::proofs::Strict::joining))]
pub fn join(a: Level, b: Level) -> Level
    ensures is { result ≡ join_of a b }
    ensures laws { Joining }
    ensures row { WorkedRow }
{
    (a.0.stricter(b.0), a.1.stricter(b.1))
}
