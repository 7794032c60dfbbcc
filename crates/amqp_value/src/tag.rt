//! Tags.

ghost use Rattle.std.specs.Prelude.{◌≡◌};
ghost use Rattle.amqp_value.specs.Reading.{tag_of, width_of};

/// What a tag octet says of the octets after it.
#[derive(Clone, Copy, Debug, PartialEq, Eq)]
pub enum Tag {
    Fixed(ScalarTag),
    LongString,
    ByteArray,
    Array,
    Table,
}

/// The tag of a value of fixed size.
#[derive(Clone, Copy, Debug, PartialEq, Eq)]
pub enum ScalarTag {
    Boolean,
    ShortShortInt,
    ShortShortUint,
    ErrataShortInt,
    ShortInt,
    ShortUint,
    LongInt,
    LongUint,
    ErrataLongLongInt,
    LongLongInt,
    Float,
    Double,
    Decimal,
    Timestamp,
    Void,
}

#[inline(always)]
pub fn tag_from(octet: u8) -> Option<Tag>
    ensures { result ≡ tag_of octet }
{
    match octet {
        b't' => Some(Tag::Fixed(ScalarTag::Boolean)),
        b'b' => Some(Tag::Fixed(ScalarTag::ShortShortInt)),
        b'B' => Some(Tag::Fixed(ScalarTag::ShortShortUint)),
        b's' => Some(Tag::Fixed(ScalarTag::ErrataShortInt)),
        b'U' => Some(Tag::Fixed(ScalarTag::ShortInt)),
        b'u' => Some(Tag::Fixed(ScalarTag::ShortUint)),
        b'I' => Some(Tag::Fixed(ScalarTag::LongInt)),
        b'i' => Some(Tag::Fixed(ScalarTag::LongUint)),
        b'l' => Some(Tag::Fixed(ScalarTag::ErrataLongLongInt)),
        b'L' => Some(Tag::Fixed(ScalarTag::LongLongInt)),
        b'f' => Some(Tag::Fixed(ScalarTag::Float)),
        b'd' => Some(Tag::Fixed(ScalarTag::Double)),
        b'D' => Some(Tag::Fixed(ScalarTag::Decimal)),
        b'T' => Some(Tag::Fixed(ScalarTag::Timestamp)),
        b'V' => Some(Tag::Fixed(ScalarTag::Void)),
        b'S' => Some(Tag::LongString),
        b'x' => Some(Tag::ByteArray),
        b'A' => Some(Tag::Array),
        b'F' => Some(Tag::Table),
        _ => None,
    }
}

impl ScalarTag {
    /// How many octets the value has.
    #[inline(always)]
    pub fn width(self) -> usize
        ensures { result ≡ width_of self }
    {
        match self {
            ScalarTag::Void => 0,
            ScalarTag::Boolean | ScalarTag::ShortShortInt | ScalarTag::ShortShortUint => 1,
            ScalarTag::ErrataShortInt | ScalarTag::ShortInt | ScalarTag::ShortUint => 2,
            ScalarTag::LongInt | ScalarTag::LongUint | ScalarTag::Float => 4,
            ScalarTag::Decimal => 5,
            ScalarTag::ErrataLongLongInt
            | ScalarTag::LongLongInt
            | ScalarTag::Double
            | ScalarTag::Timestamp => 8,
        }
    }
}
