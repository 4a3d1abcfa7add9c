//! What the words of a call ask for.

ghost use Rattle.std.specs.Prelude.{◌≡◌, map, option_map, IfSome};
ghost use Rattle.std.specs.List.{list_all};
ghost use Rattle.std.specs.String.{string_bytes};
ghost use Rattle.ck_app.specs.Words.{AreNames, command_of, after_check, check_command, is_name};
ghost use Rattle.ck_app.specs.Check.{command_in};

/// Files to check.
#[derive(Clone, Copy, Debug)]
pub struct Check<'a> {
    /// By the strict rule, flags that change without `cc` break a rule.
    pub strict: bool,
    /// Their names, of which there is one at least.
    pub files: &'a [String],
}

/// The files that the words tell to check, the first word being the program's name; none where they are of no known
/// form.
pub fn asked_check(words: &[String]) -> Option<Check<'_>>
    ensures command { option_map command_in result ≡ command_of (map string_bytes words.now) }
    ensures names { IfSome result (λ check. AreNames (map string_bytes check.files.now)) }
{
    match words {
        [_, mode, rest @ ..] if mode.as_str() == "check" => after_check(rest),
        _ => None,
    }
}

/// What the words after `check` tell.
fn after_check(words: &[String]) -> Option<Check<'_>>
    ensures { option_map command_in result ≡ after_check (map string_bytes words.now) }
{
    match words {
        [] => None,
        [first, files @ ..] if first.as_str() == "--strict-cc" => named(true, files),
        files => named(false, files),
    }
}

fn named(strict: bool, files: &[String]) -> Option<Check<'_>>
    ensures { option_map command_in result ≡ check_command strict (map string_bytes files.now) }
{
    match files {
        [] => None,
        some if are_names(some) => Some(Check { strict, files }),
        _ => None,
    }
}

fn are_names(words: &[String]) -> bool
    ensures { result ≡ list_all (λ word. is_name (string_bytes word)) words.now }
{
    words.iter().all(|word| is_name(word.as_str()))
}

/// A word that begins with a hyphen-minus is no name.
fn is_name(word: &str) -> bool
    ensures { result ≡ is_name word.now }
{
    word.as_bytes().first() != Some(&b'-')
}
