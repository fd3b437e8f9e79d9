// Literals and values, as in clause.rs. A variable number and a literal number are different types, so neither is taken for the other.
#![tactic(auto)]

ghost use Rattle.std.specs.Prelude.{◌≡◌, ◌+◌, ◌*◌, ◌<◌};
ghost use Rattle.model.specs.Lit.{var, sign, neg, undef_lit, value_for};
ghost use Rattle.clause.specs.Cells.{value_at, cell_of, reason_at, reason_cell};

// A variable, from 0.
#[derive(Clone, Copy, Debug, PartialEq, Eq)]
pub struct Var(pub u32);

// Variable v positive is 2v, negated 2v + 1.
#[derive(Clone, Copy, Debug, PartialEq, Eq, PartialOrd, Ord)]
pub struct Lit(pub u32);

// The value of a variable and of a literal. A cell holds its place in this list.
#[derive(Clone, Copy, Debug, PartialEq, Eq)]
pub enum Value {
    True,
    False,
    Undef,
}

// The cell of a variable without a value. C lends work as numbers, so a cell is one; what it stands for is a `Value`, or an Option for a reason.
pub const UNDEF: u32 = Value::Undef as u32;

// The cell of the reason of a decision and of a unit, a number as UNDEF is: the Rust's CRef::UNDEF.
pub const NO_REASON: u32 = 4294967295;

impl From<u32> for Value {
    ghost from_gives = { λ cell v. v ≡ value_at cell };

    fn from(cell: u32) -> Value {
        match cell {
            0 => Value::True,
            1 => Value::False,
            _ => Value::Undef,
        }
    }
}

// The clause that a reason's cell names. This and the next are no `From`, which a crate gives for its own types alone, and u32 and Option are not.
pub fn reason_at(cell: u32) -> Option<usize>
    ensures { result ≡ reason_at cell }
{
    if cell == NO_REASON {
        None
    } else {
        Some(cell as usize)
    }
}

// The cell of a reason.
pub fn reason_cell(reason: Option<usize>) -> u32
    requires { reason_cell reason < 4294967296 }
    ensures { result ≡ reason_cell reason }
{
    match reason {
        Some(c) => c as u32,
        None => NO_REASON,
    }
}

impl Lit {
    // The literal that no script reaches. As in the definition it stands for none: in a buffer's first place until the UIP is known, and at intake before one is kept.
    pub fn undef() -> Lit
        ensures { result.0 ≡ undef_lit }
    {
        Lit(4294967294)
    }

    // The literal of a variable with a sign: 0 positive, 1 negated. A number and no bool, since it is what is added.
    pub fn new(v: Var, sign: u32) -> Lit
        requires { (v.0 < 2147483648) × (sign < 2) }
        ensures { result.0 ≡ 2 * v.0 + sign }
    {
        Lit(2 * v.0 + sign)
    }

    pub fn var(self) -> Var
        ensures { result.0 ≡ var self.0 }
    {
        Var(self.0 / 2)
    }

    // 0 for a positive literal, 1 for a negated one: a number, as `new` takes it.
    pub fn sign(self) -> u32
        ensures { result ≡ sign self.0 }
    {
        self.0 % 2
    }

    // The Rust's `!lit`.
    pub fn negate(self) -> Lit
        ensures { result.0 ≡ neg self.0 }
    {
        let x = self.0;
        if x % 2 == 0 { Lit(x + 1) } else { Lit(x - 1) }
    }

    // The literal's value where its variable has the value `known`.
    pub fn value(self, known: Value) -> Value
        ensures { cell_of result ≡ value_for (cell_of known) self.0 }
    {
        match (known, self.sign()) {
            (Value::Undef, _) => Value::Undef,
            (Value::True, 0) => Value::True,
            (Value::False, 1) => Value::True,
            _ => Value::False,
        }
    }
}
