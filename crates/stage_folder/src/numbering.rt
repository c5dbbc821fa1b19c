//! The number of the next step.

ghost use Rattle.std.specs.Prelude.{◌≡◌, ◌⊎◌, ◌+◌, ◌-◌, ◌^◌, ◌<◌, ◌≤◌, All, Contains};
ghost use Rattle.std.specs.Prelude.{IfOk, IfSome, None};
ghost use Rattle.stage_folder.specs.Folders.{Follows, FollowsRecord, IsFree};

use crate::folder::StageFolder;
use crate::folder_fault::FolderFault;

// The least number that is after the first, and not before the second.
fn after(number: u32, next: u32) -> Option<u32>
    ensures above { IfSome result (λ more. number < more) }
    ensures least { IfSome result (λ more. next ≤ more) }
    ensures follows { IfSome result (λ more. (more ≡ next) ⊎ (more ≡ number + 1)) }
    ensures none { result ≡ None → number ≡ 2 ^ 32 - 1 }
{
    if number < next {
        return Some(next);
    }
    number.checked_add(1)
}

// The number after the greatest of these; at least 1.
fn number_after(numbers: &[u32]) -> Option<u32>
    ensures above { IfSome result (λ next. All (λ number. number < next) numbers.now) }
    ensures follows { Follows (Contains numbers.now) result }
{
    let mut next = 1u32;
    let mut left = numbers;
    while let [number, others @ ..] = left {
        match after(*number, next) {
            Some(more) => next = more,
            None => return None,
        }
        left = others;
    }
    Some(next)
}

/// The number after the greatest of all records, of which none has to be readable; 1 without
/// records. None if there is no such number of 32 bits.
// open: which fault is returned.
pub fn next_number<F: StageFolder>(folder: &F) -> Result<Option<u32>, FolderFault>
    ensures free { IfOk result (λ next. IfSome next (IsFree (F.records folder.now))) }
    ensures follows { IfOk result (FollowsRecord (F.records folder.now)) }
{
    let numbers = folder.record_numbers()?;
    Ok(number_after(&numbers))
}
