//! Parts of lists, appended where there is room.
ghost use Rattle.std.specs.Prelude.{◌≡◌, ◌+◌, ◌≤◌, ◌++◌, length, OnOk, vec_len, vec_capacity};

use std::alloc::AllocError;

/// Up to this many elements are appended one by one, which takes less than a call for all.
const FEW: usize = 8;

/// Appends a part to a list that has room for it: a few elements at half the cost of `extend_from_slice`.
#[inline(always)]
pub fn append_part<T: Copy>(list: &mut Vec<T>, part: &[T]) -> Result<(), AllocError>
    requires room { vec_len list.old + length part.now ≤ vec_capacity list.old }
    ensures items { OnOk result (list.new.items ≡ list.old.items ++ part.now) }
    ensures len { OnOk result (vec_len list.new ≡ vec_len list.old + length part.now) }
    ensures capacity { vec_capacity list.old ≤ vec_capacity list.new }
{
    if part.len() > FEW {
        return list.extend_from_slice(part);
    }
    for element in part {
        list.push_reserved(*element);
    }
    Ok(())
}

/// Makes a list hold four parts, one after the other, in its own memory. More memory is taken where that is too small.
#[inline(always)]
pub(crate) fn refill(
    list: &mut Vec<u32>,
    first: &[u32],
    second: &[u32],
    third: &[u32],
    last: &[u32],
) -> Result<(), AllocError>
    ensures { OnOk result (list.new.items ≡ first.now ++ (second.now ++ (third.now ++ last.now))) }
{
    let count = first.len() + second.len() + third.len() + last.len();
    list.clear();
    list.reserve(count)?;
    append_part(list, first)?;
    append_part(list, second)?;
    append_part(list, third)?;
    append_part(list, last)
}
