// What a header chooses: how a learnt clause is minimised, and which signs the way back saves.
#![tactic(auto)]

ghost use Rattle.std.specs.Prelude.{◌≡◌};
ghost use Rattle.options.specs.Numbers.{mode_of, phase_of};

// What is dropped from a learnt clause: nothing, or what follows from the others. The Rust's mode 1 looks at each literal, and retains it.
#[derive(Clone, Copy, Debug, PartialEq, Eq)]
pub enum Mode {
    Keep = 0,
    Retain = 1,
    Minimise = 2,
}

// Of any number, since the definition tells only 2 from the others. A header with a number over 2 is turned back.
impl From<u32> for Mode {
    ghost from_gives = { λ n mode. mode ≡ mode_of n };

    fn from(n: u32) -> Mode {
        match n {
            0 => Mode::Keep,
            2 => Mode::Minimise,
            _ => Mode::Retain,
        }
    }
}

// Which signs are saved of what the way back unsets: none, those above the last limit, or all.
#[derive(Clone, Copy, Debug, PartialEq, Eq)]
pub enum Phase {
    Unsaved = 0,
    Limited = 1,
    Full = 2,
}

// Of any number, since the definition saves all in each from 2 on.
impl From<u32> for Phase {
    ghost from_gives = { λ n phase. phase ≡ phase_of n };

    fn from(n: u32) -> Phase {
        match n {
            0 => Phase::Unsaved,
            1 => Phase::Limited,
            _ => Phase::Full,
        }
    }
}
