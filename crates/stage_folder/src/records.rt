//! The records of the steps in a folder.

ghost use Rattle.std.specs.Prelude.{◌≡◌, ◌↔◌, ◌==◌, ℕ, Contains, IfErr, IfOk, IsPermutation};
ghost use Rattle.std.specs.Prelude.{IsSorted, OnOk, Some, true};
ghost use Rattle.std.specs.List.Sorted.{IsStrictlyIncreasing};
ghost use Rattle.std.specs.Ordering.{nat_cmp};
ghost use Rattle.stage_folder.specs.Steps.{has_distinct_names};
ghost use Rattle.stage_folder.specs.Recorded.{AreRead, AreRecorded, HasRecord, AreRecordsAfter};
ghost use Rattle.stage_folder.specs.Recorded.{IsRecorded, IsStepAt};
ghost use Rattle.stage_records.specs.Records.{step_in};

use crate::distinct_names::has_distinct_names;
use crate::folder::StageFolder;
use crate::folder_fault::{FolderFault, RecordFault};
use stage_records::{StagingStep, read_step, step_record};
use std::alloc::Global;

/// The steps that are recorded, in the order of their numbers, and the numbers of the records that
/// can't be read as a step of that number.
#[derive(Drop)]
pub struct RecordedSteps {
    pub steps: Vec<StagingStep>,
    pub unread: Vec<u32>,
}

/// Reads all records of a folder. A fault is about the folder of the records, a record whose bytes
/// can't be read, or memory.
// open: which fault is returned.
pub fn recorded_steps<F: StageFolder>(
    alloc: Global,
    folder: &F,
) -> Result<RecordedSteps, FolderFault>
    ensures { IfOk result (AreRecorded (F.records folder.now)) }
{
    let sorted = in_order(folder.record_numbers()?);
    let numbers = each_once(sorted);
    read_records(alloc, folder, numbers.as_slice())
}

fn in_order(mut numbers: Vec<u32>) -> Vec<u32>
    ensures all { IsPermutation numbers.items result.items }
    ensures sorted { IsSorted nat_cmp result.items }
{
    numbers.as_mut_slice().sort_unstable();
    numbers
}

fn each_once(mut numbers: Vec<u32>) -> Vec<u32>
    requires { IsSorted nat_cmp numbers.items }
    ensures all { (n : ℕ) → Contains numbers.items n ↔ Contains result.items n }
    ensures rising { IsStrictlyIncreasing result.items }
{
    numbers.dedup();
    numbers
}

// Reads the records of these numbers.
fn read_records<F: StageFolder>(
    alloc: Global,
    folder: &F,
    numbers: &[u32],
) -> Result<RecordedSteps, FolderFault>
    ensures { IfOk result (AreRead (F.records folder.now) numbers.now) }
{
    let mut steps = Vec::new(alloc);
    let mut unread = Vec::new(alloc);
    let mut left = numbers;
    while let [number, others @ ..] = left {
        match step_at(alloc, folder, *number)? {
            Some(step) => steps.push(step)?,
            None => unread.push(*number)?,
        }
        left = others;
    }
    Ok(RecordedSteps { steps, unread })
}

fn has_number(step: &StagingStep, number: u32) -> bool
    ensures { result ≡ (step.now.number == number) }
{
    step.number == number
}

// The step of this number, if its record spells it.
fn step_at<F: StageFolder>(
    alloc: Global,
    folder: &F,
    number: u32,
) -> Result<Option<StagingStep>, FolderFault>
    ensures { IfOk result (IsStepAt (F.records folder.now) number) }
{
    let Some(bytes) = folder.read_record(number)? else {
        return Ok(None);
    };
    match read_step(alloc, bytes.as_slice())? {
        Some(step) => {
            if has_number(&step, number) {
                return Ok(Some(step));
            }
            drop(step);
            Ok(None)
        }
        None => Ok(None),
    }
}

// Whether a record has these bytes.
#[tactic(auto, using(crate::proofs::Reading::compares))]
fn has_record<F: StageFolder>(folder: &F, number: u32, bytes: &[u8]) -> Result<bool, FolderFault>
    ensures { IfOk result (HasRecord (F.records folder.now) number bytes.now) }
{
    match folder.read_record(number)? {
        Some(found) => Ok(found.as_slice() == bytes),
        None => Ok(false),
    }
}

// Makes or replaces a step's record by these bytes. After an error the record is read again.
fn put_step<F: StageFolder>(
    folder: &mut F,
    step: &StagingStep,
    bytes: &[u8],
) -> Result<(), RecordFault>
    requires { step_in bytes.now ≡ Some step.now }
    ensures recorded { OnOk result
        (IsRecorded step.now (F.records folder.old) (F.records folder.new)) }
    ensures failed { IfErr result (λ fault.
        AreRecordsAfter fault step.now (F.records folder.old) (F.records folder.new)) }
    ensures files { F.files folder.new ≡ F.files folder.old }
{
    let Err(fault) = folder.put_record(step.number, bytes) else {
        return Ok(());
    };
    match has_record(&*folder, step.number, bytes) {
        Ok(true) => Err(RecordFault::NotKept(fault)),
        Ok(false) => Err(RecordFault::NotMade(fault)),
        Err(_) => Err(RecordFault::Unknown(fault)),
    }
}

/// Records a step whole: makes its record, or replaces it. This comes before the step's first file
/// is replaced, and again after the step is undone. After an error the record is read again, so
/// that the fault says whether it is there, unless reading it fails. Returns `NotRecorded` if two
/// of its files have one name, or if the record wouldn't spell this step.
// open: which `FolderFault` is returned.
pub fn write_record<F: StageFolder>(
    alloc: Global,
    folder: &mut F,
    step: &StagingStep,
) -> Result<(), RecordFault>
    ensures recorded { OnOk result
        (IsRecorded step.now (F.records folder.old) (F.records folder.new)) }
    ensures distinct { OnOk result (has_distinct_names step.now.files ≡ true) }
    ensures failed { IfErr result (λ fault.
        AreRecordsAfter fault step.now (F.records folder.old) (F.records folder.new)) }
    ensures files { F.files folder.new ≡ F.files folder.old }
{
    if !has_distinct_names(&step.files) {
        return Err(RecordFault::NotMade(FolderFault::NotRecorded));
    }
    match step_record(alloc, step) {
        Ok(Some(text)) => match put_step(folder, step, text.as_bytes()) {
            Ok(()) => Ok(()),
            Err(fault) => Err(fault),
        },
        Ok(None) => Err(RecordFault::NotMade(FolderFault::NotRecorded)),
        Err(_) => Err(RecordFault::NotMade(FolderFault::Memory)),
    }
}
