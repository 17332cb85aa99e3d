// The streams of the link and their numbers.
ghost use Rattle.std.specs.Prelude.{◌≡◌, ◌<◌};
ghost use Rattle.wire.specs.Stream.{stream_number, is_stream, stream_of, stream_given};

#[derive(Clone, Copy, Debug, PartialEq, Eq)]
pub enum Stream {
    Control,
    Ota,
    Alexa,
}

// A number that is no stream's.
#[derive(Clone, Copy, Debug, PartialEq, Eq)]
pub struct NoStream(pub u8);

impl Stream {
    pub const CONTROL: u8 = 0;

    pub const OTA: u8 = 2;

    pub const ALEXA: u8 = 6;

    pub fn number(self) -> u8
        ensures { (result ≡ stream_number self) × (result < 16) }
    {
        match self {
            Stream::Control => Stream::CONTROL,
            Stream::Ota => Stream::OTA,
            Stream::Alexa => Stream::ALEXA,
        }
    }
}

impl TryFrom<u8> for Stream {
    type Error = NoStream;

    ghost try_from_gives = { λ n r. r ≡ stream_given n };

    #[tactic(auto, unfolding(crate::specs::Stream::is_stream, crate::specs::Stream::stream_of))]
    fn try_from(n: u8) -> Result<Self, NoStream> {
        match n {
            Stream::CONTROL => Ok(Stream::Control),
            Stream::OTA => Ok(Stream::Ota),
            Stream::ALEXA => Ok(Stream::Alexa),
            _ => Err(NoStream(n)),
        }
    }
}

// Whether a number is a stream's: by a test, where the stream itself is not asked for.
#[tactic(auto, unfolding(crate::specs::Stream::is_stream))]
pub fn is_stream(n: u8) -> bool
    ensures { result ≡ is_stream n }
{
    matches!(n, Stream::CONTROL | Stream::OTA | Stream::ALEXA)
}

// The stream of a number; one that is no stream's, which callers judge by is_stream, counts as Alexa.
#[tactic(auto, unfolding(crate::specs::Stream::stream_of))]
pub fn stream_of(n: u8) -> Stream
    ensures { result ≡ stream_of n }
{
    match n {
        Stream::CONTROL => Stream::Control,
        Stream::OTA => Stream::Ota,
        _ => Stream::Alexa,
    }
}
