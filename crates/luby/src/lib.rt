// Luby's sequence, which sets how many conflicts there are between two restarts.
#![tactic(auto)]

ghost use Rattle.std.specs.Prelude.{◌≡◌, ◌<◌};
ghost use Rattle.model.specs.Luby.{climb, descend, luby};
ghost use Rattle.luby.specs.Laws.{Beginning, Climbed, Term};

mod terms;

// A beginning of the sequence of `size` = 2 ^ (seq + 1) - 1 terms. That a term is one of the first 131,072 is asked of its number: a type for this one
// bound would be no plainer.
#[derive(Clone, Copy)]
struct Part {
    size: u32,
    seq: u32,
}

impl Part {
    // The shortest beginning that holds term x.
    fn holding(x: u32) -> Part
        requires { x < 131072 }
        ensures { Climbed x result.seq result.size (climb x 1 0 x) }
    {
        let mut size: u32 = 1;
        let mut seq: u32 = 0;
        // No index is counted: the sizes go up to the first that is above x.
        while size <= x {
            size = 2 * size + 1;
            seq += 1;
        }
        Part { size, seq }
    }

    // The exponent of term x, from a beginning that holds it down to the one that ends with it.
    fn exponent(self, x: u32) -> u32
        requires { Beginning x self.seq self.size }
        ensures { result ≡ descend self.seq self.size x }
    {
        let Part { mut size, mut seq } = self;
        let mut y = x;
        // And down again to the size that ends with what is left of x.
        while size - 1 != y {
            size = (size - 1) / 2;
            seq -= 1;
            y %= size;
        }
        seq
    }
}

// Term x by the Rust's two loops, at base 2.
fn by_loops(x: u32) -> u32
    requires { x < 131072 }
    ensures { Term x result }
{
    1 << Part::holding(x).exponent(x)
}

// Term x, from 0: off the table, and by the loops beyond it.
pub fn luby(x: u32) -> u32
    requires { x < 131072 }
    ensures { Term x result }
{
    if x < terms::COUNT {
        terms::term(x)
    } else {
        by_loops(x)
    }
}
