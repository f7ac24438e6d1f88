// The words for a width, an edition and the like.
use console_text::inner::words::BadWord;
use nak::Edition;
use octets::LargeFileFlag;
use ranges::Width;

// What one of two words stands for.
pub trait Mark: Copy {
    const FIRST: Self;

    const SECOND: Self;

    fn word(self) -> &'static str;

    final fn of(word: &[u8]) -> Result<Self, BadWord>
    where
        Self: Sized,
    {
        if word == Self::FIRST.word().as_bytes() {
            Ok(Self::FIRST)
        } else if word == Self::SECOND.word().as_bytes() {
            Ok(Self::SECOND)
        } else {
            Err(BadWord)
        }
    }
}

// Whether metadata is known.
#[derive(Clone, Copy, PartialEq, Eq)]
pub enum Metadata {
    Known,
    Missing,
}

// Whether PDUs are written without a trailer or with a CRC.
#[derive(Clone, Copy, PartialEq, Eq)]
pub enum Trailer {
    Plain,
    Crc,
}

impl Mark for Width {
    const FIRST: Width = Width::Wide;

    const SECOND: Width = Width::Narrow;

    fn word(self) -> &'static str {
        match self {
            Width::Wide => "wide",
            Width::Narrow => "narrow",
        }
    }
}

impl Mark for LargeFileFlag {
    const FIRST: LargeFileFlag = LargeFileFlag::Normal;

    const SECOND: LargeFileFlag = LargeFileFlag::Large;

    fn word(self) -> &'static str {
        match self {
            LargeFileFlag::Normal => "normal",
            LargeFileFlag::Large => "large",
        }
    }
}

impl Mark for Edition {
    const FIRST: Edition = Edition::Newer;

    const SECOND: Edition = Edition::Older;

    fn word(self) -> &'static str {
        match self {
            Edition::Newer => "newer",
            Edition::Older => "older",
        }
    }
}

impl Mark for Metadata {
    const FIRST: Metadata = Metadata::Known;

    const SECOND: Metadata = Metadata::Missing;

    fn word(self) -> &'static str {
        match self {
            Metadata::Known => "known",
            Metadata::Missing => "missing",
        }
    }
}

impl Mark for Trailer {
    const FIRST: Trailer = Trailer::Plain;

    const SECOND: Trailer = Trailer::Crc;

    fn word(self) -> &'static str {
        match self {
            Trailer::Plain => "plain",
            Trailer::Crc => "crc",
        }
    }
}
