// What is turned back, and where: the rows of the tables in docs/FORMAT.md, by their numbers.
#![tactic(auto)]

ghost use Rattle.std.specs.Prelude.{◌≡◌};
ghost use Rattle.refusal.specs.Number.{number};

// The rule that is broken. Rows 1 to 12 are a script's, 13 to 15 a text's, 18 to 20 and 2 those of a call for 'at most k'.
#[derive(Clone, Copy, Debug, PartialEq, Eq)]
pub enum Rule {
    ShortHeader = 1,
    BadVariables = 2,
    BadLimits = 3,
    BadOptions = 4,
    ShortWork = 5,
    ShortActivities = 6,
    BadRecord = 7,
    CutRecord = 8,
    BadLiteral = 9,
    BadCount = 10,
    BadBudget = 11,
    ShortOut = 12,
    BadKey = 13,
    BadNumber = 14,
    LongText = 15,
    BadCounted = 18,
    SharedVariable = 19,
    ShortClauses = 20,
}

impl Rule {
    // Its number in the tables. A method and no `From`: contracts write `number` too, so code and contracts have one word for it.
    pub fn number(self) -> u32
        ensures { result ≡ number self }
    {
        self as u32
    }
}

// The first rule of a table that does not hold, and the place that the table gives with it.
#[derive(Clone, Copy, Debug, PartialEq, Eq)]
pub struct Refusal {
    pub rule: Rule,
    pub place: u64,
}
