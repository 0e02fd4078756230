//! A store as it will be once a change was made, seen before anything changes and without a copy.

ghost use Rattle.std.specs.Prelude.{◌≡◌, ◌<◌, ◌||◌, ◌&&◌, not, true, length, take, is_some, IfSome};
ghost use Rattle.std.specs.Prelude.{option_copied, option_map, slice_index_or, [], Some, List};
ghost use Rattle.std.specs.List.{list_all};
ghost use Rattle.ring_math.specs.Files.{slot_of, has_entry, has_tomb, has_lists, buried_all};
ghost use Rattle.file_store.specs.Burial.{is_named, Reaches, rises};

use crate::order::{comes_before, is_same};
use crate::store::FileStore;
use ring_math::{Bytes, FileId, MOST_ENTRIES};
use std::marker::Model;

/// A store as it will be once these tombs are buried in order, as `bury_all` leaves it.
#[derive(Drop)]
pub struct Buried<'a> {
    store: &'a FileStore,
    tombs: &'a [FileId],
    /// The place of the first tomb that finds no room, or the number of tombs.
    reach: usize,
}

impl<'a> Model for Buried<'a> {
    ghost use Rattle.std.specs.Prelude.{List};
    ghost use Rattle.ring_math.specs.declared.file.Held.{Held};
    ghost use Rattle.ring_math.specs.Files.{buried_all};
    ghost use Rattle.file_store.specs.Burial.{Reaches};

    ghost Value = { List Held };

    ghost view = { λ a. buried_all a.store.now.files a.tombs.now };

    ghost invariant = { λ a. Reaches a.store.now.files a.tombs.now a.reach };
}

impl<'a> Buried<'a> {
    /// The store with these tombs buried. It takes no memory, and time linear in the tombs where they rise.
    pub fn new(store: &'a FileStore, tombs: &'a [FileId]) -> Buried<'a>
        ensures { result ≡ buried_all store.now.files tombs.now }
    {
        Buried {
            store,
            tombs,
            reach: reach_of(store, tombs),
        }
    }

    /// What will stand for the file: nothing, a tombstone (None within) or bytes.
    pub fn slot(&self, file: &FileId) -> Option<Option<&Bytes>>
        ensures { option_map option_copied result ≡ slot_of self.now file.now }
    {
        let slot = self.store.slot(file);
        let tombs = match slot {
            Some(_) => self.tombs,
            None => &self.tombs[..self.reach],
        };
        if is_among(tombs, file) {
            Some(None)
        } else {
            slot
        }
    }

    /// Whether each file of the manifest will have an entry, and each of the tombs will be a tombstone.
    ///
    /// It takes no memory. Where the lists have their files in the order of the tombs that are buried, as the lists of
    /// a handover, which rise, it takes time linear in the lists, and a search of the store for each file.
    pub fn has_lists(&self, manifest: &[FileId], tombs: &[FileId]) -> bool
        ensures { result ≡ has_lists self.now manifest.now tombs.now }
    {
        self.have_entries(manifest) && self.are_gone(tombs)
    }

    fn have_entries(&self, files: &[FileId]) -> bool
        ensures { result ≡ list_all (has_entry self.now) files.now }
    {
        let mut from = 0;
        for file in files {
            match self.entry_from(from, file) {
                Some(next) => from = next,
                None => return false,
            }
        }
        true
    }

    fn are_gone(&self, files: &[FileId]) -> bool
        ensures { result ≡ list_all (has_tomb self.now) files.now }
    {
        let mut from = 0;
        for file in files {
            match self.tomb_from(from, file) {
                Some(next) => from = next,
                None => return false,
            }
        }
        true
    }

    /// Whether the file will have an entry, and where to look for the next one among the tombs.
    fn entry_from(&self, from: usize, file: &FileId) -> Option<usize>
        ensures { is_some result ≡ has_entry self.now file.now }
    {
        if self.store.slot(file).is_some() {
            return Some(from);
        }
        place_from(&self.tombs[..self.reach], from, file)
    }

    /// Whether the file will be a tombstone, and where to look for the next one among the tombs.
    fn tomb_from(&self, from: usize, file: &FileId) -> Option<usize>
        ensures { is_some result ≡ has_tomb self.now file.now }
    {
        match self.store.slot(file) {
            Some(None) => Some(from),
            Some(Some(_)) => place_from(self.tombs, from, file),
            None => place_from(&self.tombs[..self.reach], from, file),
        }
    }
}

/// A place at which the list names the file, sought from a place on and then from the front.
fn place_from(files: &[FileId], from: usize, file: &FileId) -> Option<usize>
    ensures { is_some result ≡ is_named files.now file.now }
{
    let from = from.min(files.len());
    match place_in(&files[from..], file) {
        Some(place) => Some(from + place),
        None => place_in(&files[..from], file),
    }
}

/// The first place at which the list names the file.
fn place_in(files: &[FileId], file: &FileId) -> Option<usize>
    ensures value { is_some result ≡ is_named files.now file.now }
    ensures within { IfSome result (λ place. place < length files.now) }
{
    for (place, other) in files.iter().enumerate() {
        if is_same(other, file) {
            return Some(place);
        }
    }
    None
}

fn is_among(files: &[FileId], file: &FileId) -> bool
    ensures { result ≡ is_named files.now file.now }
{
    files.iter().any(|other| is_same(other, file))
}

fn is_rising(files: &[FileId]) -> bool
    ensures { result ≡ rises files.now }
{
    for place in 1..files.len() {
        if !comes_before(&files[place - 1], &files[place]) {
            return false;
        }
    }
    true
}

/// Whether the tomb at this place has no entry once those before it are buried.
fn is_new(store: &FileStore, tombs: &[FileId], place: usize, is_rising: bool) -> bool
    requires within { place < length tombs.now }
    requires rising { is_rising ≡ true → rises tombs.now ≡ true }
    ensures { let tomb = slice_index_or tombs.now place [] in
        result ≡ not (has_entry store.now.files tomb || is_named (take place tombs.now) tomb) }
{
    let tomb = &tombs[place];
    store.slot(tomb).is_none() && (is_rising || !is_among(&tombs[..place], tomb))
}

/// The place of the first tomb that finds no room, or the number of tombs.
fn reach_of(store: &FileStore, tombs: &[FileId]) -> usize
    ensures { Reaches store.now.files tombs.now result }
{
    let mut spare = MOST_ENTRIES - store.entries();
    if tombs.len() <= spare {
        return tombs.len();
    }
    let is_rising = is_rising(tombs);
    for place in 0..tombs.len() {
        if is_new(store, tombs, place, is_rising) {
            if spare == 0 {
                return place;
            }
            spare -= 1;
        }
    }
    tombs.len()
}
