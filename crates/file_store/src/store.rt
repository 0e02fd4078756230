//! The store.

ghost use Rattle.std.specs.Prelude.{◌≡◌, ◌≤◌, ◌<◌, ◌+◌, ◌&&◌, ◌||◌, not, Bool, [], length, min, true, Some};
ghost use Rattle.std.specs.Prelude.{None, IsTrue, IfOk, IfErr, OnOk, OnErr, option_copied, option_map, count_by, is_some, map, slice_index_or};
ghost use Rattle.std.specs.List.{list_all};
ghost use Rattle.ring_math.specs.Names.{Content};
ghost use Rattle.ring_math.specs.Bytewise.{same_bytes};
ghost use Rattle.ring_math.specs.Files.{slot_of, with_slot, has_entry, has_tomb, has_room, buried, buried_all, has_lists};
ghost use Rattle.file_store.specs.Answers.{bytes_in, put_at, put_of, after_put, bury_of, after_bury, can_set, lays_any};
ghost use Rattle.file_store.specs.Places.{place_of, is_rising, StandsAt, GoesInAt};

use crate::answer::{Bury, Put};
use crate::arena::Arena;
use crate::order::{is_same, is_same_text};
use ring_math::{Bytes, FileId, FileIds, Held, MOST_ENTRIES, OutOfMemory};
use std::alloc::Global;
use std::marker::Model;

/// Files and tombstones, by rising file identifier.
#[derive(Drop)]
pub struct FileStore {
    arena: Arena,
}

impl Model for FileStore {
    ghost use Rattle.std.specs.Prelude.{◌≡◌, true};
    ghost use Rattle.file_store.specs.Store.{Store};
    ghost use Rattle.file_store.specs.Places.{is_rising};

    ghost Value = { Store };

    ghost view = { λ a. a.arena };

    ghost invariant = { λ a. is_rising a.arena.files ≡ true };
}

impl FileStore {
    /// A store in which nothing stands. It takes no memory yet.
    pub fn new(alloc: Global) -> FileStore
        ensures { result.files ≡ [] }
    {
        FileStore {
            arena: Arena::new(alloc),
        }
    }

    /// The number of entries, tombstones among them.
    pub fn entries(&self) -> usize
        ensures value { result ≡ length self.now.files }
        ensures limit { length self.now.files ≤ MOST_ENTRIES }
        ensures within { length self.now.files ≤ self.now.room }
        ensures rising { is_rising self.now.files ≡ true }
    {
        self.arena.len()
    }

    /// The entry at a place, from 0, by rising file identifier.
    pub fn at(&self, place: usize) -> &Held
        requires { place < length self.now.files }
        ensures { result.now ≡ slice_index_or self.now.files place result.now }
    {
        self.arena.at(place)
    }

    /// The first place whose file does not come before this one.
    fn place(&self, file: &FileId) -> usize
        ensures { result ≡ place_of self.now.files file.now }
    {
        let mut low = 0;
        let mut high = self.arena.len();
        while low < high {
            let middle = low + (high - low) / 2;
            if self.arena.comes_before(middle, file) {
                low = middle + 1;
            } else {
                high = middle;
            }
        }
        low
    }

    /// The place where the file stands, or where it would go in.
    fn search(&self, file: &FileId) -> Result<usize, usize>
        ensures found { IfOk result (λ place. StandsAt self.now.files file.now place) }
        ensures absent { IfErr result (λ place. GoesInAt self.now.files file.now place) }
        ensures none { OnErr result (None ≡ slot_of self.now.files file.now) }
    {
        let place = self.place(file);
        if place == self.arena.len() {
            return Err(place);
        }
        if is_same(&self.arena.at(place).file, file) {
            Ok(place)
        } else {
            Err(place)
        }
    }

    /// What stands for the file, or the place where it would go in.
    fn seek(&self, file: &FileId) -> Result<&Option<Bytes>, usize>
        ensures found { IfOk result (λ slot. Some slot.now ≡ slot_of self.now.files file.now) }
        ensures absent { IfErr result (λ place. GoesInAt self.now.files file.now place) }
        ensures none { OnErr result (None ≡ slot_of self.now.files file.now) }
    {
        match self.search(file) {
            Ok(place) => Ok(&self.arena.at(place).slot),
            Err(place) => Err(place),
        }
    }

    /// What stands for the file: nothing, a tombstone (None within) or bytes.
    pub fn slot(&self, file: &FileId) -> Option<Option<&Bytes>>
        ensures { option_map option_copied result ≡ slot_of self.now.files file.now }
    {
        match self.seek(file) {
            Ok(slot) => Some(slot.as_ref()),
            Err(_) => None,
        }
    }

    /// Takes room for so many more entries, or as many as may still come: what goes in then takes no memory.
    pub fn reserve(&mut self, count: usize) -> Result<(), OutOfMemory>
        ensures files { self.new.files ≡ self.old.files }
        ensures ok { OnOk result (min (length self.old.files + count) MOST_ENTRIES ≤ self.new.room) }
        ensures err { OnErr result (self.old.room < min (length self.old.files + count) MOST_ENTRIES) }
        ensures room { self.old.room ≤ self.new.room }
    {
        let rest = MOST_ENTRIES - self.arena.len();
        self.arena.reserve(count.min(rest))
    }

    /// The file's entry is now this one. It takes no memory: room for a new entry was taken before.
    pub fn set(&mut self, file: FileId, slot: Option<Bytes>)
        requires { IsTrue (can_set self.old file) }
        ensures files { self.new.files ≡ with_slot self.old.files file slot }
        ensures room { self.old.room ≤ self.new.room }
    {
        match self.search(&file) {
            Ok(place) => self.arena.replace(place, slot),
            Err(place) => self.insert(place, file, slot),
        }
    }

    /// Puts a new entry in at the place of its file, into room that was taken.
    fn insert(&mut self, place: usize, file: FileId, slot: Option<Bytes>)
        requires place { GoesInAt self.old.files file place }
        requires limit { length self.old.files < MOST_ENTRIES }
        requires room { length self.old.files < self.old.room }
        ensures files { self.new.files ≡ with_slot self.old.files file slot }
        ensures room { self.old.room ≤ self.new.room }
    {
        self.arena.insert(place, Held { file, slot });
    }

    /// The bytes of the file, and None exactly where no bytes are held, so also for a tombstone.
    pub fn get(&self, file: &FileId) -> Option<&[u8]>
        ensures { option_copied result ≡ bytes_in (slot_of self.now.files file.now) }
    {
        match self.slot(file) {
            Some(Some(bytes)) => Some(bytes.as_slice()),
            _ => None,
        }
    }

    /// Whether a tombstone stands for the file.
    pub fn is_gone(&self, file: &FileId) -> bool
        ensures { result ≡ has_tomb self.now.files file.now }
    {
        matches!(self.slot(file), Some(None))
    }

    /// What `put` would answer, but for want of memory.
    pub fn would_put(&self, file: &FileId, bytes: &Bytes) -> Put
        ensures { result ≡ put_of self.now.files file.now bytes.now }
    {
        match self.seek(file) {
            Ok(slot) => answer_beside(slot, bytes),
            Err(_) if self.entries() < MOST_ENTRIES => Put::New,
            Err(_) => Put::Full,
        }
    }

    /// What `bury` would answer, but for want of memory.
    pub fn would_bury(&self, file: &FileId) -> Bury
        ensures { result ≡ bury_of self.now.files file.now }
    {
        match self.slot(file) {
            Some(None) => Bury::Already,
            Some(Some(_)) => Bury::Buried,
            None if self.entries() < MOST_ENTRIES => Bury::Laid,
            None => Bury::Full,
        }
    }

    /// Puts the file, where it has no entry and fewer than [`MOST_ENTRIES`] stand; in every other case nothing changes.
    ///
    /// Memory can be refused only in the place of `New`, for the copy of the bytes or for the entry, and then the
    /// store is as before.
    pub fn put(&mut self, alloc: Global, file: FileId, bytes: &Bytes) -> Result<Put, OutOfMemory>
        ensures answer { IfOk result (λ answer. answer ≡ put_of self.old.files file bytes.now) }
        ensures files { IfOk result (λ answer. self.new.files ≡ after_put answer self.old.files file bytes.now) }
        ensures refused { OnErr result (put_of self.old.files file bytes.now ≡ Put.New) }
        ensures as_before { OnErr result (self.new.files ≡ self.old.files) }
        ensures room { self.old.room ≤ self.new.room }
    {
        match self.seek(&file) {
            Ok(slot) => Ok(answer_beside(slot, bytes)),
            Err(_) if self.entries() == MOST_ENTRIES => Ok(Put::Full),
            Err(place) => {
                let bytes = bytes.copy(alloc)?;
                self.reserve(1)?;
                self.insert(place, file, Some(bytes));
                Ok(Put::New)
            }
        }
    }

    /// A tombstone stands for the file from now on, unless it has no entry and [`MOST_ENTRIES`] stand. Only `Buried` and `Laid`
    /// change the store.
    ///
    /// Memory can be refused only in the place of `Laid`, where no room for the entry was taken before, and then the
    /// store is as before.
    pub fn bury(&mut self, _alloc: Global, file: FileId) -> Result<Bury, OutOfMemory>
        ensures answer { IfOk result (λ answer. answer ≡ bury_of self.old.files file) }
        ensures files { IfOk result (λ answer. self.new.files ≡ after_bury answer self.old.files file) }
        ensures buried { OnOk result (self.new.files ≡ buried self.old.files file) }
        ensures refused { OnErr result (bury_of self.old.files file ≡ Bury.Laid) }
        ensures full { OnErr result (self.old.room ≤ length self.old.files) }
        ensures as_before { OnErr result (self.new.files ≡ self.old.files) }
        ensures room { self.old.room ≤ self.new.room }
    {
        let answer = self.would_bury(&file);
        if let Bury::Laid = answer {
            self.reserve(1)?;
        }
        self.lay(file);
        Ok(answer)
    }

    /// Buries the file in room that was taken before.
    fn lay(&mut self, file: FileId)
        requires { bury_of self.old.files file ≡ Bury.Laid → length self.old.files < self.old.room }
        ensures files { self.new.files ≡ buried self.old.files file }
        ensures after { self.new.files ≡ after_bury (bury_of self.old.files file) self.old.files file }
        ensures room { self.old.room ≤ self.new.room }
    {
        let has_room = self.entries() < MOST_ENTRIES;
        if has_room || self.slot(&file).is_some() {
            self.set(file, None);
        }
    }

    /// Takes the room that burying these needs, and none where each has an entry.
    pub fn reserve_for(&mut self, tombs: &[FileId]) -> Result<(), OutOfMemory>
        ensures files { self.new.files ≡ self.old.files }
        ensures ok { OnOk result (length (buried_all self.old.files tombs.now) ≤ self.new.room) }
        ensures refused { OnErr result (lays_any self.old.files tombs.now ≡ true) }
        ensures room { self.old.room ≤ self.new.room }
    {
        let rest = MOST_ENTRIES - self.entries();
        if self.have_entries(tombs) {
            return Ok(());
        }
        self.reserve(tombs.len().min(rest))
    }

    /// Buries these in order. It takes no memory: the room was taken before.
    pub fn bury_reserved(&mut self, tombs: &[FileId])
        requires { length (buried_all self.old.files tombs.now) ≤ self.old.room }
        ensures files { self.new.files ≡ buried_all self.old.files tombs.now }
        ensures room { self.old.room ≤ self.new.room }
    {
        for tomb in tombs {
            self.lay(*tomb);
        }
    }

    /// Buries these in order, as `bury` does each.
    ///
    /// Memory can be refused only where a tombstone would be laid, and then the store is as before.
    pub fn bury_all(&mut self, _alloc: Global, tombs: &FileIds) -> Result<(), OutOfMemory>
        ensures buried { OnOk result (self.new.files ≡ buried_all self.old.files tombs.now) }
        ensures refused { OnErr result (lays_any self.old.files tombs.now ≡ true) }
        ensures as_before { OnErr result (self.new.files ≡ self.old.files) }
    {
        self.reserve_for(tombs.as_slice())?;
        self.bury_reserved(tombs.as_slice());
        Ok(())
    }

    /// The number of files with bytes.
    pub fn count(&self) -> usize
        ensures { result ≡ count_by (λ h. is_some h.slot) self.now.files }
    {
        let mut count = 0;
        for place in 0..self.arena.len() {
            if self.arena.at(place).slot.is_some() {
                count += 1;
            }
        }
        count
    }

    /// The files of all entries, tombstones among them, by rising file identifier.
    pub fn files(&self, alloc: Global) -> Result<FileIds, OutOfMemory>
        ensures { IfOk result (λ list. list ≡ map (λ h. h.file) self.now.files) }
    {
        let mut files = Vec::with_capacity(alloc, self.arena.len())?;
        for place in 0..self.arena.len() {
            files.push(self.arena.at(place).file)?;
        }
        FileIds::of(files)
    }

    /// The same files and tombstones. The bytes of files are shared.
    pub fn copy(&self, alloc: Global) -> Result<FileStore, OutOfMemory>
        ensures { IfOk result (λ copy. copy.files ≡ self.now.files) }
    {
        let arena = self.arena.copy(alloc)?;
        Ok(FileStore { arena })
    }

    /// Whether each file of the manifest has an entry, and each of the tombs is a tombstone.
    pub fn has_lists(&self, manifest: &[FileId], tombs: &[FileId]) -> bool
        ensures { result ≡ has_lists self.now.files manifest.now tombs.now }
    {
        self.have_entries(manifest) && self.are_gone(tombs)
    }

    /// The same once bytes are put for this file.
    pub fn has_lists_with(&self, file: &FileId, manifest: &[FileId], tombs: &[FileId]) -> bool
        ensures { (bytes : Content) → result ≡ has_lists (with_slot self.now.files file.now (Some bytes)) manifest.now tombs.now }
    {
        self.have_entries_with(file, manifest) && self.are_gone_with(file, tombs)
    }

    fn have_entries_with(&self, file: &FileId, files: &[FileId]) -> bool
        ensures { result ≡ list_all (λ f. same_bytes file.now f || has_entry self.now.files f) files.now }
    {
        files
            .iter()
            .all(|other| is_same(file, other) || self.slot(other).is_some())
    }

    fn are_gone_with(&self, file: &FileId, files: &[FileId]) -> bool
        ensures { result ≡ list_all (λ f. not (same_bytes file.now f) && has_tomb self.now.files f) files.now }
    {
        files
            .iter()
            .all(|other| !is_same(file, other) && self.is_gone(other))
    }

    fn have_entries(&self, files: &[FileId]) -> bool
        ensures { result ≡ list_all (has_entry self.now.files) files.now }
    {
        files.iter().all(|file| self.slot(file).is_some())
    }

    fn are_gone(&self, files: &[FileId]) -> bool
        ensures { result ≡ list_all (has_tomb self.now.files) files.now }
    {
        files.iter().all(|file| self.is_gone(file))
    }
}

/// What `put` answers where this stands.
fn answer_beside(slot: &Option<Bytes>, bytes: &Bytes) -> Put
    ensures { (room : Bool) → result ≡ put_at (Some slot.now) bytes.now room }
{
    match slot {
        Some(held) if is_same_text(held.as_slice(), bytes.as_slice()) => Put::Same,
        Some(_) => Put::Differs,
        None => Put::Gone,
    }
}
