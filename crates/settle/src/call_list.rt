//! The calls of a journal, with the meter files that were refused among them.
use history::Call;
use journal::Verb;
use meter_files::{FileRefusal, read_file};
use metering::Reading;

/// A meter file that was refused: there is no call.
#[derive(Clone, Copy)]
pub struct RefusedFile {
    /// What the journal asked to do with the file's reading.
    pub verb: Verb,
    /// Why the file makes no reading.
    pub refusal: FileRefusal,
}

/// What is to be performed of a journal.
#[derive(Drop)]
pub struct CallList {
    /// The calls, in their order.
    pub calls: Vec<Call>,
    /// For each entry of the journal, the file that was refused in the place of a call, if one was.
    pub entries: Vec<Option<RefusedFile>>,
}

/// The reading of a meter file, or the file's refusal.
pub fn reading_of(bytes: &[u8], verb: Verb) -> Result<Reading, RefusedFile> {
    let mut reading = Reading::empty();
    read_file(bytes, &mut reading).map_err(|refusal| RefusedFile { verb, refusal })?;
    Ok(reading)
}
