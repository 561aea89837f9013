ghost use Rattle.std.specs.Prelude.{◌≡◌};
ghost use Rattle.vnetsh.specs.Words.{is_run};

/// Whether the words are the one form that is built: `run` alone.
pub(crate) fn is_run(words: &[String]) -> bool
    ensures { result ≡ is_run words.now }
{
    match words {
        [word] => word.as_str() == "run",
        _ => false,
    }
}
