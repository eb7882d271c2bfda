//! Whether the system's other processors are busy.
//!
//! Not proved: all of this file.

use std::fs;
use std::io::Read;

/// The bytes of a file that are looked at. The files of the system that are read here are shorter.
const MOST_BYTES: usize = 64;

/// The start of a small file of the system.
#[derive(Drop)]
struct SmallFile {
    bytes: [u8; MOST_BYTES],
    length: usize,
}

/// A decimal number that is read digit by digit.
#[derive(Drop)]
struct Number {
    value: usize,
}

impl Number {
    /// Reads a digit. Any other byte starts the next number.
    fn read(&mut self, byte: u8) {
        self.value = match byte {
            b'0'..=b'9' => {
                let digit = (byte - b'0') as usize;
                self.value.saturating_mul(10).saturating_add(digit)
            }
            _ => 0,
        };
    }
}

/// Reads the start of the file at a path, or returns None if the system does not give it.
fn small_file(rt: &HostRuntime, path: &str) -> Option<SmallFile> {
    let mut file = fs::open(rt, path).ok()?;
    let mut bytes = [0; MOST_BYTES];
    let length = file.read(&mut bytes).ok()?;
    Some(SmallFile { bytes, length })
}

/// Returns how many threads run or want to run, this one among them: the number before the slash
/// in a text like `0.20 0.18 0.12 2/807 11206`.
fn running_in(load: &SmallFile) -> Option<usize> {
    let mut number = Number { value: 0 };
    for place in 0..load.length.min(MOST_BYTES) {
        let byte = load.bytes[place];
        if byte == b'/' {
            return Some(number.value);
        }
        number.read(byte);
    }
    None
}

/// Returns how many processors a list of their numbers has, like `0-3,6`.
fn processors_in(list: &SmallFile) -> usize {
    let mut count = 0usize;
    let mut first = None;
    let mut number = Number { value: 0 };
    for place in 0..list.length.min(MOST_BYTES) {
        let byte = list.bytes[place];
        if byte == b'-' {
            first = Some(number.value);
        }
        if byte == b',' || byte == b'\n' {
            let more = number.value.saturating_sub(first.unwrap_or(number.value));
            count = count.saturating_add(more).saturating_add(1);
            first = None;
        }
        number.read(byte);
    }
    count
}

/// How many processors a system has at least if its count of running threads says enough. On fewer,
/// the program that starts a run often counts as one that keeps the other busy.
const SEVERAL: usize = 3;

/// Returns whether at most one of the system's processors is idle, that of this thread counted as
/// idle. Returns false if the system does not tell, or has few processors.
pub fn are_others_busy(rt: &HostRuntime) -> bool {
    let Some(load) = small_file(rt, "/proc/loadavg") else {
        return false;
    };
    let Some(list) = small_file(rt, "/sys/devices/system/cpu/online") else {
        return false;
    };
    let processors = processors_in(&list);
    match running_in(&load) {
        Some(running) => processors >= SEVERAL && running >= processors,
        None => false,
    }
}
