ghost use Rattle.std.specs.Prelude.{◌≡◌, map, string_bytes};
ghost use Rattle.runner.specs.Words.{is_form};

/// Whether the words are those of the command: so far, one that does not begin with a hyphen.
pub fn is_form(words: &[String]) -> bool
    ensures { result ≡ is_form (map string_bytes words.now) }
{
    match words {
        [word] => match word.as_bytes() {
            [b'-', ..] => false,
            _ => true,
        },
        _ => false,
    }
}
