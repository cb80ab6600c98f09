//! `remote FOLDER put TEXT..` keeps texts in a folder, each with a reference to the one before, and
//! prints the key of the last. `remote FOLDER get KEY` prints them from the last one on, each behind
//! its key, whoever wrote the folder; a file that was changed is refused.
#![tactic(auto)]

mod folder_blobs;
mod preimage;

use crate::folder_blobs::{CHANGED, FolderBlobs};
use anyhow::{Result, bail};
use pagable::cell_page_out::page_out;
use pagable::cells::insert;
use pagable::paging::deserialize_pagable_data;
use pagable::typed_references::loose;
use pagable::{DataKey, Error, OptionalDataKey, Pager, Record, RecordRef, Records};
use std::process::ExitCode;
use std::{env, fs};

/// A pager of records over blobs in a folder.
type FolderPager<'a> = Pager<Records, FolderBlobs<'a>>;

/// Keeps each text in a record that refers to the record before. Returns the key of the last one, or
/// None if there is no text.
fn put(
    rt: &HostRuntime,
    pager: &mut FolderPager<'_>,
    texts: &[String],
) -> Result<Option<DataKey>, Error> {
    let alloc = rt.alloc();
    let mut last = None;
    for text in texts {
        let mut refs: Vec<RecordRef> = Vec::new(alloc);
        if let Some(handle) = last {
            refs.push(Record::reference(loose::<Record, Records, _>(pager, handle)?))?;
        }
        last = Some(insert(alloc, pager, Record::node(alloc, 0, text.as_str(), refs)?)?);
    }
    let Some(handle) = last else {
        return Ok(None);
    };
    let key = page_out(alloc, pager, handle)?;
    pager.flush()?;
    pager.release(handle)?;
    Ok(Some(key))
}

/// Prints the text of the record under a key, and returns the key of the record before it. The text
/// is read from a blob of this key, whatever the folder holds: the clause `keyed` of the call says so.
fn show(
    rt: &HostRuntime,
    pager: &mut FolderPager<'_>,
    key: DataKey,
) -> Result<OptionalDataKey, Error> {
    let record = deserialize_pagable_data::<Records, _, Record>(rt.alloc(), pager, key)?;
    let _ = println!(rt; "{key} {}", record.text.as_str());
    let mut before = OptionalDataKey::None;
    for reference in &record.refs {
        let handle = reference.reference().handle;
        before = pager.key(handle)?;
        pager.release(handle)?;
    }
    Ok(before)
}

/// Prints the records under a key and the keys before it.
fn get(rt: &HostRuntime, pager: &mut FolderPager<'_>, key: DataKey) -> Result<()> {
    let mut next = OptionalDataKey::Some(key);
    for _ in 0..u64::MAX {
        let OptionalDataKey::Some(key) = next else {
            break;
        };
        next = match show(rt, pager, key) {
            Ok(before) => before,
            Err(Error::Storage(CHANGED)) => bail!("the file {key} was changed"),
            Err(error) => bail!("{error}"),
        };
    }
    Ok(())
}

/// Makes a pager over the folder of this path.
fn pager_over<'a>(rt: &'a HostRuntime, folder: &'a str) -> FolderPager<'a> {
    Pager::new(rt.alloc(), FolderBlobs::new(rt, folder), Records)
}

fn main(rt: HostRuntime) -> Result<ExitCode> {
    let words: Vec<String> = env::args(&rt)?.skip(1).collect(rt.alloc())?;
    match words.as_slice() {
        [folder, command, texts @ ..] if command.as_str() == "put" && !texts.is_empty() => {
            fs::create_dir_all(&rt, folder.as_str())?;
            if let Some(key) = put(&rt, &mut pager_over(&rt, folder.as_str()), texts)? {
                println!(rt; "{key}")?;
            }
        }
        [folder, command, key] if command.as_str() == "get" => {
            let key = key.as_str().parse()?;
            get(&rt, &mut pager_over(&rt, folder.as_str()), key)?;
        }
        _ => {
            eprintln!(rt; "usage: remote FOLDER put TEXT.. | remote FOLDER get KEY")?;
            return Ok(ExitCode::from(2));
        }
    }
    Ok(ExitCode::SUCCESS)
}
