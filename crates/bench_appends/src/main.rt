//! Appends batches to an edit file of the system, so that bench/ can kill the program and check what is kept.
#![tactic(auto)]

use anyhow::{Context, bail};
use edit_file::{EditFile, Frame};
use item_model::{Batch, Edit};
use outside_disks::{Files, SystemFiles};
use records_import::read_batch;
use std::alloc::Global;
use std::env;

/// The file and the number of batches without arguments.
const NAME: &str = "edits";

const FEW: u32 = 3;

/// Returns the frame of batch `number`, counted from 1, which puts the item with that id.
fn frame_of(alloc: Global, number: u32) -> anyhow::Result<Frame> {
    let text = format!(in alloc; "op,kind,id,dmap.itemname\nput,item,{number},Song {number}\n")?;
    let batch = read_batch(alloc, text.as_bytes())?;
    if batch.edits.as_slice().is_empty() {
        bail!("no edit");
    }
    Ok(Frame::of(alloc, &batch)?)
}

/// Returns whether the batch is the one with that number.
fn has_number(batch: &Batch, number: u32) -> bool {
    match batch.edits.as_slice() {
        [Edit::PutItem { row }] => row.row().id == number,
        _ => false,
    }
}

/// Returns the number of batches, if they are those from number 1, in order.
fn counted(batches: &[Batch]) -> anyhow::Result<u32> {
    let mut count: u32 = 0;
    for batch in batches {
        count = count.checked_add(1).context("too many batches")?;
        if !has_number(batch, count) {
            bail!("batch {count} is another one");
        }
    }
    Ok(count)
}

/// Opens a file, and counts its batches.
fn opened<F: Files>(
    alloc: Global,
    files: &mut F,
    name: &str,
) -> anyhow::Result<(EditFile<F::D>, u32)> {
    let Ok(disk) = files.open(name) else {
        bail!("the file can't be opened");
    };
    match EditFile::open(alloc, disk) {
        Ok((file, batches)) => Ok((file, counted(batches.as_slice())?)),
        Err((error, _disk)) => Err(error.into()),
    }
}

fn main(rt: HostRuntime) -> anyhow::Result<()> {
    let alloc = rt.alloc();
    let words: Vec<String> = env::args(&rt)?.skip(1).collect(alloc)?;
    let name = words.first().map_or(NAME, |word| word.as_str());
    let more = match words.get(1) {
        Some(word) => word.parse().context("a number of batches")?,
        None => FEW,
    };
    let mut files = SystemFiles::new(&rt);
    let (mut file, count) = opened(alloc, &mut files, name)?;
    println!(rt; "opened {count}")?;
    for number in count.saturating_add(1)..=count.saturating_add(more) {
        file.append(frame_of(alloc, number)?)?;
        println!(rt; "kept {number}")?;
    }
    files.close(file.into_disk());
    let (_file, count) = opened(alloc, &mut files, name)?;
    println!(rt; "opened {count}")?;
    Ok(())
}
