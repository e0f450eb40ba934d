//! The files and folders to check: which entries of a folder are, and in which order.
ghost use Rattle.std.specs.Prelude.{◌≡◌, IfOk, OnOk, reverse};
ghost use Rattle.yaml_check.specs.Folders as spec;

use std::alloc::{AllocError, Global};

/// The name or the path of a file. One that is not UTF-8 can't be opened.
#[derive(Debug, Drop)]
pub struct FileName {
    /// As it is told: what is not UTF-8 is U+FFFD.
    pub text: String,
    pub is_utf8: bool,
}

impl FileName {
    /// The name with these bytes.
    pub fn from_bytes(alloc: Global, bytes: &[u8]) -> Result<FileName, AllocError>
        ensures { IfOk result (spec.NamesFile bytes.now) }
    {
        let text = String::from_utf8_lossy(alloc, bytes)?;
        Ok(FileName {
            text,
            is_utf8: str::from_utf8(bytes).is_ok(),
        })
    }
}

/// What has a name.
#[derive(Clone, Copy, Debug)]
pub enum Kind {
    File,
    Folder,
    /// A pipe or a device, for example, or a link to a folder, which may lead in a circle.
    Other,
}

/// A file or a folder: in a listing with its name, in a walk with its path.
#[derive(Debug, Drop)]
pub struct Entry {
    pub name: FileName,
    pub kind: Kind,
}

/// The files and folders that are still to come, the next one last.
#[derive(Drop)]
pub struct Walk {
    rest: Vec<Entry>,
}

impl Walk {
    /// Of these files and folders, in this order.
    pub fn new(mut named: Vec<Entry>) -> Walk
        ensures { result.rest.items ≡ reverse named.items }
    {
        named.reverse();
        Walk { rest: named }
    }

    /// Takes the next one.
    pub fn next(&mut self) -> Option<Entry>
        ensures { spec.TakesNext result self.old.rest.items self.new.rest.items }
    {
        self.rest.pop()
    }

    /// Puts what is checked of a folder's entries before what is still to come.
    pub fn enter(
        &mut self,
        alloc: Global,
        folder: &str,
        listed: Vec<Entry>,
    ) -> Result<(), AllocError>
        ensures { OnOk result (spec.EntersFolder folder.now listed.items self.old.rest.items
            self.new.rest.items) }
    {
        let taken = taken(listed)?;
        let pushed = push_all(alloc, &mut self.rest, folder, &taken);
        drop(taken);
        pushed
    }
}

/// The entries of a folder that are checked, by their names, the first one last.
fn taken(listed: Vec<Entry>) -> Result<Vec<Entry>, AllocError>
    ensures { IfOk result (λ taken. spec.AreChecked listed.items taken.items) }
{
    let mut taken = listed;
    taken.retain(is_taken);
    match taken.sort_by(|one, other| other.name.text.cmp(&one.name.text)) {
        Ok(()) => Ok(taken),
        Err(full) => {
            drop(taken);
            Err(full)
        }
    }
}

/// Whether an entry of a folder is checked.
fn is_taken(entry: &Entry) -> bool
    ensures { result ≡ spec.is_taken entry.now }
{
    let name = entry.name.text.as_str();
    match entry.kind {
        Kind::File => name.ends_with(".yaml") || name.ends_with(".yml"),
        Kind::Folder => !name.starts_with("."),
        Kind::Other => false,
    }
}

/// Puts entries of a folder after others, with their paths.
fn push_all(
    alloc: Global,
    rest: &mut Vec<Entry>,
    folder: &str,
    entries: &[Entry],
) -> Result<(), AllocError>
    ensures { OnOk result (spec.AddsEntries folder.now entries.now rest.old.items rest.new.items) }
{
    for entry in entries {
        let entry = below(alloc, folder, entry)?;
        if rest.push(entry).is_err() {
            return Err(AllocError);
        }
    }
    Ok(())
}

/// The entry of a folder with its path.
fn below(alloc: Global, folder: &str, entry: &Entry) -> Result<Entry, AllocError>
    ensures { IfOk result (λ path. spec.path_seen path ≡ spec.below folder.now entry.now) }
{
    let mut text = String::from_str(alloc, folder)?;
    if !folder.ends_with("/") {
        text.push('/')?;
    }
    text.push_str(entry.name.text.as_str())?;
    let name = FileName {
        text,
        is_utf8: entry.name.is_utf8,
    };
    Ok(Entry {
        name,
        kind: entry.kind,
    })
}
