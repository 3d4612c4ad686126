// The kinds by name: the figures of C, and the words of a table of vectors.
ghost use Rattle.std.specs.Prelude.{◌≡◌};
ghost use Rattle.kinds.specs.Names.{NamesKind, named};

use std::str::FromStr;

#[derive(Clone, Copy, Debug, PartialEq, Eq)]
pub enum KindName {
    S3,
    S4,
    C3,
}

// Calls a function, which is generic over its kind, under the kind of a name. A closure can't be
// generic over a type, so that this is a macro.
#[macro_export]
macro_rules! under {
    ($kind:expr, $call:ident($($argument:expr),*)) => {
        match $kind {
            $crate::KindName::S3 => $call::<$crate::S3>($($argument),*),
            $crate::KindName::S4 => $call::<$crate::S4>($($argument),*),
            $crate::KindName::C3 => $call::<$crate::C3>($($argument),*),
        }
    };
}

// A figure or a word that names no kind.
#[derive(Clone, Copy, Debug, PartialEq, Eq)]
pub struct NoSuchKind;

impl TryFrom<u8> for KindName {
    type Error = NoSuchKind;

    ghost try_from_gives = { λ figure r. r ≡ named figure };

    fn try_from(figure: u8) -> Result<KindName, NoSuchKind> {
        match figure {
            3 => Ok(KindName::S3),
            4 => Ok(KindName::S4),
            0xc3 => Ok(KindName::C3),
            _ => Err(NoSuchKind),
        }
    }
}

impl FromStr for KindName {
    type Err = NoSuchKind;

    ghost from_str_gives = { NamesKind };

    fn from_str(word: &str) -> Result<KindName, NoSuchKind> {
        match word {
            "S3" => Ok(KindName::S3),
            "S4" => Ok(KindName::S4),
            "C3" => Ok(KindName::C3),
            _ => Err(NoSuchKind),
        }
    }
}
