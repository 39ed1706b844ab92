// What layouts share: words that stand one behind another, and a header's low bits.
ghost use Rattle.std.specs.Prelude.{◌≡◌, ◌+◌, ◌-◌, ◌<◌, ◌≤◌};
ghost use Rattle.std.specs.Option.{SomeIff};
ghost use Rattle.layout.specs.LowPart.{low_part};

/// `count` words one behind another, the first at the offset `first` from the header.
#[derive(Clone, Copy)]
pub(crate) struct Run {
    pub(crate) first: u32,
    pub(crate) count: u32,
    ghost small: { first + count ≤ 64 },
}

impl Run {
    /// So many words right behind the header.
    pub(crate) fn behind_header(count: u32) -> Self
        requires { count ≤ 63 }
        ensures first { result.first ≡ 1 }
        ensures count { result.count ≡ count }
    {
        Run { first: 1, count }
    }

    /// The offset of word `i`, or none if there is no such word.
    pub(crate) fn offset_of(self, i: u32) -> Option<u32>
        ensures { SomeIff result (i < self.count) (self.first + i) }
    {
        (i < self.count).then(|| self.first + i)
    }

    /// Which word stands at that offset, or none if none does.
    pub(crate) fn index_at(self, offset: u32) -> Option<u32>
        ensures { SomeIff result
            ((self.first ≤ offset) × (offset < self.first + self.count))
            (offset - self.first) }
    {
        offset.checked_sub(self.first).filter(|&i| i < self.count)
    }
}

/// The remainder of a header, or `empty` in the place of 0, which is no shape's.
pub(crate) fn low_part<const MODULUS: u32>(header: u32, empty: u32) -> u32
    requires { 0 < MODULUS }
    ensures { result ≡ low_part MODULUS empty header }
{
    match header % MODULUS {
        0 => empty,
        low => low,
    }
}
