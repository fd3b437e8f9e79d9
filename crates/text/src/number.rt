// The words of a line, as numbers and literals.
ghost use Rattle.std.specs.Prelude.{◌≡◌, ◌≤◌};
ghost use Rattle.std.specs.Int.{from_bool};
ghost use Rattle.text.specs.Number.{digit, decimal, signed, literal};

// The value with one digit more.
#[tactic(auto, unfolding(crate::specs::Number::digit, crate::specs::Number::fitting))]
fn digit(value: u32, b: u8) -> Option<u32>
    ensures { result ≡ digit value b }
{
    if !b.is_ascii_digit() {
        return None;
    }
    value.checked_mul(10)?.checked_add(u32::from(b - b'0'))
}

// A word of digits as a number. By hand: `parse` is of a str and takes `+1`, which is no number here.
#[tactic(auto, unfolding(crate::specs::Number::decimal, crate::specs::Number::digits))]
pub fn decimal(word: &[u8]) -> Option<u32>
    ensures { result ≡ decimal word.now }
{
    if word.is_empty() {
        return None;
    }
    let mut value = 0;
    for b in word {
        value = digit(value, *b)?;
    }
    Some(value)
}

// How many variables there are: so few that each literal is a number of 32 bits.
#[derive(Clone, Copy)]
pub struct Variables {
    pub count: u32,
    ghost few: { count ≤ 2147483647 },
}

impl Variables {
    // The literal of a number from 1 to `count`: 2(n - 1), and one more if it is negated.
    #[tactic(auto, unfolding(crate::specs::Number::signed))]
    fn signed(self, n: Option<u32>, negated: bool) -> Option<u32>
        ensures { result ≡ signed self.count (from_bool negated) n }
    {
        let k = n?;
        if k == 0 || self.count < k {
            return None;
        }
        Some(2 * (k - 1) + u32::from(negated))
    }

    // A word as a literal.
    pub fn literal(self, word: &[u8]) -> Option<u32>
        ensures { result ≡ literal self.count word.now }
    {
        match word.strip_prefix(b"-") {
            Some(digits) => self.signed(decimal(digits), true),
            None => self.signed(decimal(word), false),
        }
    }
}
