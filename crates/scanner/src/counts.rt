// Counts: added, and in the widths that answers have. No space comes near a limit.
ghost use Rattle.std.specs.Iterator.{IsFinite};

/// The sum of the counts, which stays at the greatest number if it does not fit.
pub(crate) fn total<I: Iterator<Item = usize>>(counts: I) -> usize
    requires can { I.can_next counts }
    requires finite { IsFinite (I.remaining counts) }
{
    counts.fold(0, usize::saturating_add)
}

/// The count in the width of its field, whose greatest number is `most`.
pub(crate) fn capped<T: TryFrom<usize> + Drop>(count: usize, most: T) -> T
where
    T::Error: Drop,
{
    T::try_from(count).unwrap_or(most)
}
