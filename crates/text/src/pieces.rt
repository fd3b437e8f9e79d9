// A text cut at a byte: the words of a line, and the lines of a text.
ghost use Rattle.std.specs.Prelude.{◌≡◌, ◌∷◌, ◌++◌, MatchOption};
ghost use Rattle.std.specs.Iterator.{YieldsFirstRef, item_count};
ghost use Rattle.text.specs.Split.{before};

// What stands before the first `sought`, and what behind it; there is nothing behind it where it is not found.
// No `splitn`, which gives the parts one by one: here both are needed at once.
pub fn cut(s: &[u8], sought: u8) -> (&[u8], Option<&[u8]>)
    ensures first { result.0.now ≡ before sought s.now }
    ensures rest { MatchOption result.1 (result.0.now ≡ s.now) (λ x. s.now ≡ result.0.now ++ sought ∷ x.now) }
{
    match s.iter().position(|b| *b == sought) {
        Some(i) => (&s[..i], Some(&s[i + 1..])),
        None => (s, None),
    }
}

// The words of what is left of a line, if anything is: an empty line is one empty word. No `split` of the library: its type has the closure's in it,
// so that each function that takes words would need a parameter for it.
#[derive(Clone, Copy)]
pub struct Words<'a> {
    pub left: Option<&'a [u8]>,
}

impl<'a> Iterator for Words<'a> {
    ghost use Rattle.text.specs.Pieces.{words_left};

    type Item = &'a [u8];

    ghost next_gives = { YieldsFirstRef words_left };

    ghost remaining = { item_count words_left };

    fn next(&mut self) -> Option<&'a [u8]> {
        let (word, behind) = cut(self.left?, b' ');
        self.left = behind;
        Some(word)
    }
}

// The lines of what is left of a text. Not one type with `Words`: of an empty text there is no line, of an empty line one word.
#[derive(Clone, Copy)]
pub struct Lines<'a> {
    pub left: &'a [u8],
}

impl<'a> Iterator for Lines<'a> {
    ghost use Rattle.text.specs.Pieces.{lines_left};

    type Item = &'a [u8];

    ghost next_gives = { YieldsFirstRef lines_left };

    ghost remaining = { item_count lines_left };

    fn next(&mut self) -> Option<&'a [u8]> {
        if self.left.is_empty() {
            return None;
        }
        let (line, behind) = cut(self.left, b'\n');
        self.left = behind.unwrap_or(&[]);
        Some(line)
    }
}
