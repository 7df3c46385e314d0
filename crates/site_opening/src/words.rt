ghost use Rattle.std.specs.Prelude.{◌≡◌, map, string_bytes};
ghost use Rattle.std.specs.Option.{option_copied};
ghost use Rattle.site_opening.specs.Words.{is_option, path_in};

use std::{env, io};

// Whether a word is meant as an option: it begins with `-`.
fn is_an_option(word: &str) -> bool
    ensures { result ≡ is_option word.now }
{
    word.as_bytes().first() == Some(&b'-')
}

/// The path of a configuration that the words of a call name: just one word, which does not begin with `-`. A file of such a name is
/// `./-x`.
pub fn config_path(words: &[String]) -> Option<&str>
    ensures { option_copied result ≡ path_in (map string_bytes words.now) }
{
    match words {
        [word] if !is_an_option(word.as_str()) => Some(word.as_str()),
        _ => None,
    }
}

/// The words of a call without the program's own name.
pub fn call_words(rt: &HostRuntime) -> io::Result<Vec<String>> {
    let mut words = Vec::new(rt.alloc());
    for word in env::args(rt)?.skip(1) {
        words.push(word)?;
    }
    Ok(words)
}
