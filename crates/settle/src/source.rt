//! A journal's file, and the meter files that its lines name.
use crate::call_list::{CallList, RefusedFile, reading_of};
use crate::failure::Failure;
use history::{Call, Named, Spending};
use journal::{Entry, Journal, Request, Unread, Verb, parse_journal};
use std::alloc::AllocError;
use std::fs;
use std::path::Path;

/// The file of a journal.
#[derive(Drop)]
pub struct Source<'a> {
    /// Its path, as it was given.
    pub path: &'a str,
    /// What it says.
    pub text: String,
}

impl<'a> Source<'a> {
    /// The file at a path, or a message.
    pub fn read(rt: &HostRuntime, path: &'a str) -> Result<Source<'a>, Failure> {
        match fs::read_to_string(rt, path) {
            Ok(text) => Ok(Source { path, text }),
            Err(error) => {
                eprintln!(rt; "{path}: {error}")?;
                Err(Failure::Told)
            }
        }
    }

    /// The journal, or a message on the first line that cannot be read.
    pub fn journal(&self, rt: &HostRuntime) -> Result<Journal<'_>, Failure> {
        match parse_journal(rt.alloc(), self.text.as_bytes()) {
            Ok(journal) => Ok(journal),
            Err(Unread::NoMemory) => Err(Failure::from(AllocError)),
            Err(Unread::At(fault)) => {
                let path = self.path;
                eprintln!(rt; "{path}:{fault}")?;
                Err(self.show_line(rt, fault.line))
            }
        }
    }

    /// Opens every entry, so that each is a call or the refusal of its meter file; or says of the first meter file that cannot
    /// be opened why not.
    pub fn open_all(&self, rt: &HostRuntime, entries: &[Entry<'_>]) -> Result<CallList, Failure> {
        let mut list = CallList {
            calls: Vec::with_capacity(rt.alloc(), entries.len())?,
            entries: Vec::with_capacity(rt.alloc(), entries.len())?,
        };
        for entry in entries {
            match self.open(rt, entry)? {
                Ok(call) => {
                    list.calls.push(call)?;
                    list.entries.push(None)?;
                }
                Err(file) => list.entries.push(Some(file))?,
            }
        }
        Ok(list)
    }

    /// The call of an entry, or its meter file's refusal. A failure is another matter: the file cannot be opened.
    fn open(
        &self,
        rt: &HostRuntime,
        entry: &Entry<'_>,
    ) -> Result<Result<Call, RefusedFile>, Failure> {
        let line = entry.line;
        let call = match entry.request {
            Request::Year(revenues) => Call::Year(revenues),
            Request::Tariff(filing) => Call::Tariff(filing),
            Request::Meter(name) => {
                let bytes = self.read_beside(rt, line, name)?;
                return Ok(reading_of(&bytes, Verb::Meter).map(Call::Meter));
            }
            Request::Deliver(name) => {
                let bytes = self.read_beside(rt, line, name)?;
                return Ok(reading_of(&bytes, Verb::Deliver).map(Call::Deliver));
            }
            Request::Close {
                readings,
                deliveries,
            } => Call::closing(readings, deliveries),
            Request::Draw(place) => Call::Draw(place),
            Request::Release(order) => Call::Present(Spending::Release, Named::Drawn(order)),
            Request::Hold(order) => Call::Present(Spending::Hold, Named::Drawn(order)),
        };
        Ok(Ok(call))
    }

    /// The bytes of a file that a line names, whose path is relative to the journal's own folder; or a message.
    fn read_beside(&self, rt: &HostRuntime, line: usize, name: &[u8]) -> Result<Vec<u8>, Failure> {
        let path = self.path;
        let Ok(name) = str::from_utf8(name) else {
            eprintln!(rt; "{path}:{line}: expected a file name in UTF-8")?;
            return Err(self.show_line(rt, line));
        };
        let folder = Path::new(path).parent().unwrap_or(Path::new(""));
        let file = folder.join(rt.alloc(), name)?;
        match fs::read(rt, &file) {
            Ok(bytes) => Ok(bytes),
            Err(error) => {
                eprintln!(rt; "{path}:{line}: {name}: {error}")?;
                Err(self.show_line(rt, line))
            }
        }
    }

    /// Prints the line that a message is about, under the message.
    fn show_line(&self, rt: &HostRuntime, line: usize) -> Failure {
        if let Some(wrong) = self.text.lines().nth(line.saturating_sub(1))
            && let Err(error) = eprintln!(rt; "    {wrong}")
        {
            return Failure::Io(error);
        }
        Failure::Told
    }
}
