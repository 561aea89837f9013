ghost use Rattle.std.specs.Prelude.{◌≡◌};
ghost use Rattle.std.specs.List.{list_all};
ghost use Rattle.vn_types.specs.Words.{is_further, most_further, is_word, is_label, is_name, is_sock_name};

/// The words of a script that begin with a letter, by what may stand behind it.
#[derive(Clone, Copy)]
enum Word {
    Label,
    Name,
    SockName,
}

/// Whether a text is a label of a path: `[a-z][a-z0-9_-]{0,15}`, and not `host`.
#[tactic(auto, unfolding(crate::specs::Words::is_label))]
pub(crate) fn is_label(text: &[u8]) -> bool
    ensures { result ≡ is_label text.now }
{
    is_word(Word::Label, text) && text != b"host".as_slice()
}

/// Whether a text is the name of a variable or a constructor: `[a-z][a-z0-9_.]{0,63}`.
#[tactic(auto, unfolding(crate::specs::Words::is_name))]
pub(crate) fn is_name(text: &[u8]) -> bool
    ensures { result ≡ is_name text.now }
{
    is_word(Word::Name, text)
}

/// Whether a text is the name of a socket: `[a-z][a-z0-9]{0,15}`.
#[tactic(auto, unfolding(crate::specs::Words::is_sock_name))]
pub(crate) fn is_sock_name(text: &[u8]) -> bool
    ensures { result ≡ is_sock_name text.now }
{
    is_word(Word::SockName, text)
}

fn is_word(word: Word, text: &[u8]) -> bool
    ensures { result ≡ is_word word text.now }
{
    match text {
        [first, rest @ ..] => {
            first.is_ascii_lowercase()
                && are_further(word, rest)
                && rest.len() <= most_further(word)
        }
        [] => false,
    }
}

fn are_further(word: Word, text: &[u8]) -> bool
    ensures { result ≡ list_all (is_further word) text.now }
{
    text.iter().all(|c| is_further(word, *c))
}

fn is_further(word: Word, c: u8) -> bool
    ensures { result ≡ is_further word c }
{
    let is_letter_or_digit = c.is_ascii_lowercase() || c.is_ascii_digit();
    match word {
        Word::Label => is_letter_or_digit || c == b'_' || c == b'-',
        Word::Name => is_letter_or_digit || c == b'_' || c == b'.',
        Word::SockName => is_letter_or_digit,
    }
}

fn most_further(word: Word) -> usize
    ensures { result ≡ most_further word }
{
    match word {
        Word::Label | Word::SockName => 15,
        Word::Name => 63,
    }
}
