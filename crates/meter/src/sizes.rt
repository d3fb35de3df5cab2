//! How much will come.
use std::fs::{self, File};
use std::io::{Read, Seek, SeekFrom};
use std::os::unix::fs::FileTypeExt;
use std::rt::Files;

/// How many bytes these inputs have together, standard input if there are none; `None` if one of them is unknown. A file and a block device
/// have a size. One that claims to be empty, as those of /proc do, is read: it counts if nothing comes of it.
pub fn size_of_all<R: Files>(rt: &R, files: &[&str]) -> Option<u64> {
    if files.is_empty() {
        return size_of(rt, "-");
    }
    let mut sum: u64 = 0;
    for name in files {
        sum = sum.checked_add(size_of(rt, name)?)?;
    }
    Some(sum)
}

/// How many bytes the file with this name has.
fn size_of<R: Files>(rt: &R, name: &str) -> Option<u64> {
    let path = if name == "-" { "/dev/stdin" } else { name };
    let Ok(told) = fs::metadata(rt, path) else {
        return None;
    };
    if told.file_type().is_block_device() {
        device_size(rt, path)
    } else if told.is_file() && (told.len() > 0 || name != "-" && is_empty(rt, path)) {
        Some(told.len())
    } else {
        None
    }
}

/// Whether nothing can be read from the file at this path.
fn is_empty<R: Files>(rt: &R, path: &str) -> bool {
    let mut byte = [0u8; 1];
    match File::open(rt, path) {
        Ok(mut file) => matches!(file.read(&mut byte), Ok(0)),
        Err(_) => false,
    }
}

/// How many bytes the device at this path has.
fn device_size<R: Files>(rt: &R, path: &str) -> Option<u64> {
    match File::open(rt, path) {
        Ok(mut device) => device.seek(SeekFrom::End(0)).ok(),
        Err(_) => None,
    }
}
