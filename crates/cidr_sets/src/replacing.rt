//! Elements in place of others in a `Vec`, with one move of the rest.
ghost use Rattle.std.specs.Prelude.{◌≡◌, ℕ, ◌+◌, ◌-◌, ◌<◌, ◌≤◌, ◌++◌, ◌∷◌, [], length, take, drop, OnOk, OnErr};

use std::alloc::AllocError;

/// Takes out the elements from one index up to another. Those behind are moved once.
pub(crate) fn cut<C: Copy>(elements: &mut Vec<C>, from: usize, to: usize)
    requires order { from ≤ to }
    requires within { to ≤ length elements.old.items }
    ensures { elements.new.items ≡ take from elements.old.items ++ drop to elements.old.items }
{
    if from < to {
        let count = elements.len();
        elements.copy_within(to..count, from);
        elements.truncate(count - (to - from));
    }
}

/// Puts one element in place of those from one index up to another. Those behind are moved once. Where there are none of
/// these, it may allocate; where the allocation fails, all stays as it was.
pub(crate) fn put<C: Copy>(
    elements: &mut Vec<C>,
    from: usize,
    to: usize,
    new: C,
) -> Result<(), AllocError>
    requires order { from ≤ to }
    requires within { to ≤ length elements.old.items }
    ensures ok { OnOk result (elements.new.items ≡ take from elements.old.items ++ new ∷ [] ++ drop to elements.old.items) }
    ensures err { OnErr result (elements.new.items ≡ elements.old.items) }
    ensures grows { OnErr result (from ≡ to) }
{
    if from == to {
        elements.insert(from, new)?;
        return Ok(());
    }
    elements[from] = new;
    cut(elements, from + 1, to);
    Ok(())
}

/// Puts elements in place of those from one index up to another. Those behind are moved once. Where an allocation fails,
/// all stays as it was.
pub(crate) fn replace<C: Copy>(
    elements: &mut Vec<C>,
    from: usize,
    to: usize,
    new: &[C],
) -> Result<(), AllocError>
    requires order { from ≤ to }
    requires within { to ≤ length elements.old.items }
    ensures ok { OnOk result (elements.new.items ≡ take from elements.old.items ++ new.now ++ drop to elements.old.items) }
    ensures err { OnErr result (elements.new.items ≡ elements.old.items) }
{
    let end = from.checked_add(new.len()).ok_or(AllocError)?;
    move_rest(elements, to, end, new)?;
    overwrite(elements.as_mut_slice(), from, end, new);
    Ok(())
}

/// Moves the elements from an index on, so that they come to stand from `end` on. Before these stands what was there, and
/// then some of `filler`, which the caller writes over.
fn move_rest<C: Copy>(
    elements: &mut Vec<C>,
    to: usize,
    end: usize,
    filler: &[C],
) -> Result<(), AllocError>
    requires within { to ≤ length elements.old.items }
    requires filler { end - to ≤ length filler.now }
    ensures front { OnOk result ((n : ℕ) → n ≤ to → n ≤ end → take n elements.new.items ≡ take n elements.old.items) }
    ensures rest { OnOk result (drop end elements.new.items ≡ drop to elements.old.items) }
    ensures long { OnOk result (end ≤ length elements.new.items) }
    ensures err { OnErr result (elements.new.items ≡ elements.old.items) }
{
    if to < end {
        let count = elements.len();
        elements.extend_from_slice(&filler[..end - to])?;
        elements.copy_within(to..count, end);
    } else {
        cut(elements, end, to);
    }
    Ok(())
}

/// Writes elements over those from one index up to another.
fn overwrite<C: Copy>(elements: &mut [C], from: usize, end: usize, new: &[C])
    requires end { end ≡ from + length new.now }
    requires within { end ≤ length elements.old }
    ensures { elements.new ≡ take from elements.old ++ new.now ++ drop end elements.old }
{
    elements[from..end].copy_from_slice(new);
}
