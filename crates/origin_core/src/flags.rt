//! Sandbox flags (HTML Standard, section 7.1.5).

ghost use Rattle.std.specs.Prelude.{◌≡◌, ◌<◌, Some};
ghost use Rattle.origin_core.specs.Flags as spec;
ghost use Rattle.origin_core.specs.Flags.{flags_text, front_letters, back_letters, letter};

use std::fmt;
use std::marker::Model;

/// A set of sandbox flags, seen as the sum of its flags' bits.
#[derive(Clone, Copy, Debug, PartialEq, Eq)]
pub struct Flags {
    bits: u16,
}

impl Model for Flags {
    ghost use Rattle.std.specs.Prelude.{ℕ, ◌<◌};

    ghost Value = { ℕ };

    ghost view = { λ f. f.bits };

    ghost invariant = { λ f. f.bits < 256 };

    ghost inverse = { λ n. record { bits = n } };
}

impl Flags {
    /// No flag: what a frame without the attribute has.
    pub const NONE: Flags = Flags { bits: 0 };

    /// The set with these bits, from 1 for navigation to 128 for document.domain.
    pub fn from_bits(bits: u16) -> Flags
        requires { bits < 256 }
        ensures { result ≡ bits }
    {
        Flags { bits }
    }

    /// The sum of the flags' bits.
    pub fn bits(self) -> u16
        ensures value { result ≡ self }
        ensures small { result < 256 }
    {
        self.bits
    }

    /// The flags of either set.
    pub fn union(self, other: Flags) -> Flags
        ensures { result ≡ spec.union self other }
    {
        Flags {
            bits: self.bits | other.bits,
        }
    }

    /// Whether other navigables may not be navigated.
    pub fn navigation(self) -> bool
        ensures { result ≡ spec.has_navigation self }
    {
        self.bits % 2 == 1
    }

    /// Whether no new window may be made.
    pub fn auxiliary(self) -> bool
        ensures { result ≡ spec.has_auxiliary self }
    {
        self.bits / 2 % 2 == 1
    }

    /// Whether the top-level may not be navigated without user activation.
    pub fn top(self) -> bool
        ensures { result ≡ spec.has_top self }
    {
        self.bits / 4 % 2 == 1
    }

    /// Whether the top-level may not be navigated with user activation.
    pub fn top_by_user(self) -> bool
        ensures { result ≡ spec.has_top_by_user self }
    {
        self.bits / 8 % 2 == 1
    }

    /// Whether documents get a new opaque origin.
    pub fn origin(self) -> bool
        ensures { result ≡ spec.has_origin self }
    {
        self.bits / 16 % 2 == 1
    }

    /// Whether scripts don't run.
    pub fn scripts(self) -> bool
        ensures { result ≡ spec.has_scripts self }
    {
        self.bits / 32 % 2 == 1
    }

    /// Whether new windows get the flags.
    pub fn propagates(self) -> bool
        ensures { result ≡ spec.has_propagates self }
    {
        self.bits / 64 % 2 == 1
    }

    /// Whether a document may not set its domain.
    pub fn domain(self) -> bool
        ensures { result ≡ spec.has_domain self }
    {
        self.bits / 128 % 2 == 1
    }
}

/// The letters of the flags that are set, in the order of their bits: `natuospd` for all, and
/// `-` for none.
impl fmt::Display for Flags {
    ghost output = { λ flags. Some (flags_text flags) };

    fn fmt<W: fmt::Write>(&self, f: &mut fmt::Formatter<W>) -> fmt::Result {
        let front = FrontLetters(*self);
        let back = BackLetters(*self);
        match self.bits() {
            0 => write!(f, "-"),
            _ => write!(f, "{front}{back}"),
        }
    }
}

/// The letters of the first four flags.
#[derive(Drop)]
struct FrontLetters(Flags);

impl fmt::Display for FrontLetters {
    ghost output = { λ letters. Some (front_letters letters.0) };

    fn fmt<W: fmt::Write>(&self, f: &mut fmt::Formatter<W>) -> fmt::Result {
        let navigation = letter(self.0.navigation(), "n");
        let auxiliary = letter(self.0.auxiliary(), "a");
        let top = letter(self.0.top(), "t");
        let top_by_user = letter(self.0.top_by_user(), "u");
        write!(f, "{navigation}{auxiliary}{top}{top_by_user}")
    }
}

/// The letters of the last four flags.
#[derive(Drop)]
struct BackLetters(Flags);

impl fmt::Display for BackLetters {
    ghost output = { λ letters. Some (back_letters letters.0) };

    fn fmt<W: fmt::Write>(&self, f: &mut fmt::Formatter<W>) -> fmt::Result {
        let origin = letter(self.0.origin(), "o");
        let scripts = letter(self.0.scripts(), "s");
        let propagates = letter(self.0.propagates(), "p");
        let domain = letter(self.0.domain(), "d");
        write!(f, "{origin}{scripts}{propagates}{domain}")
    }
}

fn letter(set: bool, text: &'static str) -> &'static str
    ensures { result.now ≡ letter set text.now }
{
    if set { text } else { "" }
}

/// The flags that a sandbox attribute sets: its value is split on ASCII white space, and a
/// keyword in any ASCII case clears its flag. It is total, and takes no memory.
#[tactic(auto, unfolding(crate::specs::Flags::flags_sum))]
pub fn flags_of(text: &str) -> Flags
    ensures { result ≡ spec.flags_of text.now }
{
    let top = has_keyword(text, "allow-top-navigation");
    let by_user = has_keyword(text, "allow-top-navigation-by-user-activation");
    Flags {
        bits: when_set(true, 1)
            + when_set(!has_keyword(text, "allow-popups"), 2)
            + when_set(!top, 4)
            + when_set(!(top || by_user), 8)
            + when_set(!has_keyword(text, "allow-same-origin"), 16)
            + when_set(!has_keyword(text, "allow-scripts"), 32)
            + when_set(!has_keyword(text, "allow-popups-to-escape-sandbox"), 64)
            + when_set(true, 128),
    }
}

fn when_set(set: bool, bit: u16) -> u16
    ensures { result ≡ spec.when_set set bit }
{
    if set { bit } else { 0 }
}

fn has_keyword(text: &str, word: &str) -> bool
    ensures { result ≡ spec.has_keyword text.now word.now }
{
    text.as_bytes()
        .split(|b| b.is_ascii_whitespace())
        .any(|piece| is_same_word(word.as_bytes(), piece))
}

fn is_same_word(word: &[u8], piece: &[u8]) -> bool
    ensures { result ≡ spec.is_same_word word.now piece.now }
{
    piece.eq_ignore_ascii_case(word)
}
