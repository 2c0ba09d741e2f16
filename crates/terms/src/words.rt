// The words of a profile: what each stands for, by tables that one search reads.
ghost use Rattle.std.specs.Prelude.{◌≡◌, ℕ, List, Option};
ghost use Rattle.requirement.specs.Words.{lookup, level_words, operator_words, test_words};
ghost use Rattle.terms.specs.Rows.{rows};

use grade::{Grade, Level};
use requirement::{Operator, TestWord};
use walk::same;

/// A list of the words or member names of profiles, and what each stands for.
pub trait Words {
    /// What a word of the list stands for.
    type Meaning: Copy;

    ghost meaning_of: { List ℕ → Option Self.Meaning };

    /// What a word stands for, where the list has it.
    fn meaning(word: &[u8]) -> Option<Self::Meaning>
        ensures { result ≡ meaning_of word.now };
}

// What a word stands for by a table: the first row that says the same counts.
pub(crate) fn look_up<M: Copy>(table: &[(&[u8], M)], word: &[u8]) -> Option<M>
    ensures { result ≡ lookup (rows table.now) word.now }
{
    for (name, meaning) in table {
        if same(word, name) {
            return Some(*meaning);
        }
    }
    None
}

static LEVEL_WORDS: [(&[u8], Level); 5] = [
    (b"Mandatory", (Grade::Hold, Grade::Hold)),
    (b"Recommended", (Grade::Note, Grade::Note)),
    (b"IfImplemented", (Grade::Clear, Grade::Hold)),
    (b"Conditional", (Grade::Clear, Grade::Clear)),
    (b"None", (Grade::Clear, Grade::Clear)),
];

static OPERATOR_WORDS: [(&[u8], Operator); 8] = [
    (b"AnyOf", Operator::AnyOf),
    (b"AllOf", Operator::AllOf),
    (b"Equal", Operator::Equal),
    (b"NotEqual", Operator::NotEqual),
    (b"GreaterThan", Operator::GreaterThan),
    (b"GreaterThanOrEqual", Operator::GreaterThanOrEqual),
    (b"LessThan", Operator::LessThan),
    (b"LessThanOrEqual", Operator::LessThanOrEqual),
];

// The words that a test has beside those of comparisons.
static PRESENCE_WORDS: [(&[u8], TestWord); 2] = [
    (b"Present", TestWord::Present),
    (b"Absent", TestWord::Absent),
];

/// The words of levels: a grade for what is absent, one for what is unmet.
pub struct LevelWords;

impl Words for LevelWords {
    type Meaning = Level;

    ghost meaning_of = { lookup level_words };

    fn meaning(word: &[u8]) -> Option<Level> {
        look_up(&LEVEL_WORDS, word)
    }
}

/// The words of comparisons.
pub struct OperatorWords;

impl Words for OperatorWords {
    type Meaning = Operator;

    ghost meaning_of = { lookup operator_words };

    fn meaning(word: &[u8]) -> Option<Operator> {
        look_up(&OPERATOR_WORDS, word)
    }
}

/// The words of a condition's test: those of comparisons, and two more.
pub struct TestWords;

impl Words for TestWords {
    type Meaning = TestWord;

    ghost meaning_of = { lookup test_words };

    fn meaning(word: &[u8]) -> Option<TestWord> {
        look_up(&PRESENCE_WORDS, word).or_else(|| OperatorWords::meaning(word).map(TestWord::By))
    }
}
