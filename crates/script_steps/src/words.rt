//! Words of a link's relations (HTML Standard, 4.6.4).
ghost use Rattle.std.specs.Prelude.{◌≡◌};
ghost use Rattle.origin_core.specs.Flags as spec;
ghost use Rattle.object_access.specs.StepAnswer.{gives_no_opener};

// Whether a text is one of words that ASCII white space parts.
fn has_keyword(text: &str, word: &str) -> bool
    ensures { result ≡ spec.has_keyword text.now word.now }
{
    text.as_bytes()
        .split(|b| b.is_ascii_whitespace())
        .any(|piece| is_same_word(word.as_bytes(), piece))
}

fn is_same_word(word: &[u8], piece: &[u8]) -> bool
    ensures { result ≡ spec.is_same_word word.now piece.now }
{
    piece.eq_ignore_ascii_case(word)
}

/// Whether a link gives no opener, by its relations and its target (HTML Standard, 4.6.4, get an element's noopener).
pub(crate) fn gives_no_opener(rel: &str, target: &str) -> bool
    ensures { result ≡ gives_no_opener rel.now target.now }
{
    has_keyword(rel, "noopener")
        || has_keyword(rel, "noreferrer")
        || (is_same_word("_blank".as_bytes(), target.as_bytes()) && !has_keyword(rel, "opener"))
}
