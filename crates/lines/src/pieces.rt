//! A text cut at each separator.

ghost use Rattle.std.specs.Prelude.{◌≡◌, ◌≤◌, nat_eq, length};
ghost use Rattle.std.specs.List.{position_or_len};

/// The rest of a text that is cut at each `separator`.
#[derive(Clone, Copy)]
pub struct Pieces<'a> {
    separator: u8,
    rest: Option<&'a [u8]>,
}

impl<'a> Pieces<'a> {
    ghost use Rattle.std.specs.Prelude.{◌≡◌, ◌≤◌, ◌+◌, [], ◌∷◌, length, MatchOption};
    ghost use Rattle.std.specs.Option.{option_copied};
    ghost use Rattle.lines.specs.Lines.{pieces, is_empty, sole, two};
    ghost use Rattle.lines.specs.Left.{left, both};

    /// All pieces of a text: one more than it has separators.
    #[tactic(auto, using(crate::proofs::Cuts::few_pieces))]
    pub fn of(text: &'a [u8], separator: u8) -> Pieces<'a>
        ensures cut { left result ≡ pieces separator text.now }
        ensures count { length (left result) ≤ length text.now + 1 }
    {
        Pieces {
            separator,
            rest: Some(text),
        }
    }

    /// Whether no piece is left.
    #[tactic(auto, using(crate::proofs::Cuts::some_piece))]
    pub fn is_over(self) -> bool
        ensures { result ≡ is_empty (left self.entry) }
    {
        match self.rest {
            None => true,
            Some(_) => false,
        }
    }

    /// The first piece, and the rest behind it; none where no piece is left.
    #[tactic(auto, using(crate::proofs::Cuts::one_piece))]
    pub fn next(self) -> Option<(&'a [u8], Pieces<'a>)>
        ensures { MatchOption result (left self.entry ≡ []) (λ r. left self.entry ≡ r.0.now ∷ left r.1) }
    {
        let Some(text) = self.rest else {
            return None;
        };
        let at = position(text, self.separator);
        if at < text.len() {
            let others = Pieces::of(&text[at + 1..], self.separator);
            Some((&text[..at], others))
        } else {
            let others = Pieces {
                separator: self.separator,
                rest: None,
            };
            Some((text, others))
        }
    }

    /// The piece that is left, if that is one alone.
    pub fn sole(self) -> Option<&'a [u8]>
        ensures { option_copied result ≡ sole (left self.entry) }
    {
        let Some((first, others)) = self.next() else {
            return None;
        };
        if others.is_over() { Some(first) } else { None }
    }

    /// The pieces that are left, if they are two.
    pub fn two(self) -> Option<(&'a [u8], &'a [u8])>
        ensures { both result ≡ two (left self.entry) }
    {
        let Some((first, others)) = self.next() else {
            return None;
        };
        let Some(second) = others.sole() else {
            return None;
        };
        Some((first, second))
    }
}

/// The number of bytes before the first separator; of all bytes where there is none.
fn position(text: &[u8], separator: u8) -> usize
    ensures place { result ≡ position_or_len (λ b. nat_eq b separator) text.now }
    ensures within { result ≤ length text.now }
{
    for (i, b) in text.iter().enumerate() {
        if *b == separator {
            return i;
        }
    }
    text.len()
}
