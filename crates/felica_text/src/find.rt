ghost use Rattle.std.specs.Prelude.{◌≡◌};
ghost use Rattle.felica_text.specs.Text.{before, place_of};

// The place of the first byte that equals `byte`.
pub fn find(text: &[u8], byte: u8) -> Option<usize>
    ensures { result ≡ place_of byte text.now }
{
    text.iter().position(|b| *b == byte)
}

// The bytes before the first one that equals `byte`: all of them where there is none.
#[tactic(auto, using(crate::proofs::Before::take_before, crate::proofs::Before::before_all, crate::proofs::Before::before_within))]
pub fn before(text: &[u8], byte: u8) -> &[u8]
    ensures { result.now ≡ before byte text.now }
{
    match find(text, byte) {
        Some(place) => &text[..place],
        None => text,
    }
}
