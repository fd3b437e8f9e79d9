// What the programs that print share.
ghost use Rattle.std.specs.Prelude.{◌≡◌, replicate};

// So many of one value. A long array that a call makes is not spelled out in a proof.
pub fn filled<T: Copy, const N: usize>(value: T) -> [T; N]
    ensures { result ≡ replicate N value }
{
    [value; N]
}

// Says on standard error what went wrong; if that cannot be written either, nobody is told. No clause: what standard error gets no contract knows.
pub fn complain(rt: &impl Eprint, what: &str) {
    let _ = rt.eprint(what);
}
