//! The values that a field of a packet has, and ranges of them.
ghost use Rattle.std.specs.Prelude.{◌≡◌, ◌+◌, ◌-◌, ◌<◌, ◌&&◌, ℕ, nat_le, min, max, option_map, if◌then◌else◌};
ghost use Rattle.cidr_rules.specs.Packets.{is_between, range_of};
ghost use Rattle.cidr_rules.specs.Regions.{above_of, below_of, common_of, follows, hull_of, is_close, is_same};

/// The values of a field, which stand in a row as numbers do.
pub trait FieldValue: Copy {
    /// The number of a value.
    ghost number: { Self → ℕ };

    /// Whether this value is the other or comes before it.
    ///
    /// ```
    /// 80u16.is_upto(443) // true
    /// ```
    fn is_upto(self, other: Self) -> bool
        ensures { result ≡ nat_le (number self) (number other) };

    /// The next value. The caller has to prove that a greater one is given.
    ///
    /// ```
    /// 80u16.next(443) // 81
    /// ```
    fn next(self, greater: Self) -> Self
        requires { number self < number greater }
        ensures { number result ≡ number self + 1 };

    /// The value before. The caller has to prove that a lesser one is given.
    ///
    /// ```
    /// 443u16.previous(80) // 442
    /// ```
    fn previous(self, less: Self) -> Self
        requires { number less < number self }
        ensures { number result ≡ number self - 1 };
}

impl FieldValue for u8 {
    ghost number = { λ n. n };

    fn is_upto(self, other: u8) -> bool {
        self <= other
    }

    fn next(self, _greater: u8) -> u8 {
        self + 1
    }

    fn previous(self, _less: u8) -> u8 {
        self - 1
    }
}

impl FieldValue for u16 {
    ghost number = { λ n. n };

    fn is_upto(self, other: u16) -> bool {
        self <= other
    }

    fn next(self, _greater: u16) -> u16 {
        self + 1
    }

    fn previous(self, _less: u16) -> u16 {
        self - 1
    }
}

/// The values from one to another, both included. There is none where the last comes before the first.
#[derive(Debug, Clone, Copy, Drop)]
pub struct Range<T: FieldValue> {
    /// The least value.
    pub first: T,
    /// The greatest value.
    pub last: T,
}

impl<T: FieldValue> Range<T> {
    /// Whether a value is in the range.
    ///
    /// ```
    /// Range { first: 1024u16, last: 65535 }.contains(8080) // true
    /// ```
    pub fn contains(&self, value: T) -> bool
        ensures { result ≡ is_between (range_of T.number self.now) (T.number value) }
    {
        self.first.is_upto(value) && value.is_upto(self.last)
    }

    /// Whether there is a value in the range.
    pub(crate) fn has_value(&self) -> bool
        ensures { result ≡ nat_le (range_of T.number self.now).first (range_of T.number self.now).last }
    {
        self.first.is_upto(self.last)
    }

    /// Whether neither of two ranges ends before the other begins.
    pub(crate) fn meets(&self, other: &Range<T>) -> bool
        ensures { result ≡ (nat_le (range_of T.number other.now).first (range_of T.number self.now).last
            && nat_le (range_of T.number self.now).first (range_of T.number other.now).last) }
    {
        other.first.is_upto(self.last) && self.first.is_upto(other.last)
    }

    /// Whether the range begins and ends within another.
    pub(crate) fn is_within(&self, other: &Range<T>) -> bool
        ensures { result ≡ (nat_le (range_of T.number other.now).first (range_of T.number self.now).first
            && nat_le (range_of T.number self.now).last (range_of T.number other.now).last) }
    {
        other.first.is_upto(self.first) && self.last.is_upto(other.last)
    }

    /// Whether both ranges begin and end at the same values.
    pub(crate) fn is_same(&self, other: &Range<T>) -> bool
        ensures { result ≡ is_same (range_of T.number self.now) (range_of T.number other.now) }
    {
        self.is_within(other) && other.is_within(self)
    }

    /// Whether the range begins right behind another.
    pub(crate) fn follows(&self, other: &Range<T>) -> bool
        ensures { result ≡ follows (range_of T.number self.now) (range_of T.number other.now) }
    {
        if self.first.is_upto(other.last) {
            return false;
        }
        self.first.is_upto(other.last.next(self.first))
    }

    /// Whether two ranges are the same, or one begins right behind the other.
    pub(crate) fn is_close(&self, other: &Range<T>) -> bool
        ensures { result ≡ is_close (range_of T.number self.now) (range_of T.number other.now) }
    {
        self.is_same(other) || (self.follows(other) || other.follows(self))
    }

    /// 1 where two ranges differ, and 0 where they are the same.
    pub(crate) fn differing(&self, other: &Range<T>) -> u8
        ensures { result ≡ (if is_same (range_of T.number self.now) (range_of T.number other.now) then 0 else 1) }
    {
        if self.is_same(other) { 0 } else { 1 }
    }

    /// The range from where the first of two ranges begins to where the last of them ends.
    pub(crate) fn hull(&self, other: &Range<T>) -> Range<T>
        ensures { range_of T.number result ≡ hull_of (range_of T.number self.now) (range_of T.number other.now) }
    {
        Range {
            first: earlier(self.first, other.first),
            last: later(self.last, other.last),
        }
    }

    /// The values of both ranges.
    pub(crate) fn common(&self, other: &Range<T>) -> Range<T>
        ensures { range_of T.number result ≡ common_of (range_of T.number self.now) (range_of T.number other.now) }
    {
        Range {
            first: later(self.first, other.first),
            last: earlier(self.last, other.last),
        }
    }

    /// What is below a hole.
    pub(crate) fn below(&self, hole: &Range<T>) -> Option<Range<T>>
        ensures { option_map (range_of T.number) result ≡ below_of (range_of T.number self.now) (range_of T.number hole.now) }
    {
        if hole.first.is_upto(self.first) {
            return None;
        }
        Some(Range {
            first: self.first,
            last: hole.first.previous(self.first),
        })
    }

    /// What is above a hole.
    pub(crate) fn above(&self, hole: &Range<T>) -> Option<Range<T>>
        ensures { option_map (range_of T.number) result ≡ above_of (range_of T.number self.now) (range_of T.number hole.now) }
    {
        if self.last.is_upto(hole.last) {
            return None;
        }
        Some(Range {
            first: hole.last.next(self.last),
            last: self.last,
        })
    }
}

/// The value that comes later.
fn later<T: FieldValue>(one: T, other: T) -> T
    ensures { T.number result ≡ max (T.number one) (T.number other) }
{
    if one.is_upto(other) { other } else { one }
}

/// The value that comes earlier.
fn earlier<T: FieldValue>(one: T, other: T) -> T
    ensures { T.number result ≡ min (T.number one) (T.number other) }
{
    if one.is_upto(other) { one } else { other }
}
