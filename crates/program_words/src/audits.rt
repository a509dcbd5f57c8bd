//! The words that ask for an audit.

ghost use Rattle.std.specs.Prelude.{◌≡◌, map, string_bytes};
ghost use Rattle.program_words.specs.Audits.{is_audit};

/// Whether the words ask for an audit: they are the one word `audit`.
pub fn asks_audit(words: &[String]) -> bool
    ensures { result ≡ is_audit (map string_bytes words.now) }
{
    match words {
        [word] => word.as_str() == "audit",
        _ => false,
    }
}
