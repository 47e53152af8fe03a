//! A folder in memory.

ghost use Rattle.std.specs.Prelude.{◌≡◌, [], Some, IfOk, true, is_none, option_map, ◌&&◌};
ghost use Rattle.std.specs.String.{string_bytes};
ghost use Rattle.ir_program_tests.specs.Pinned.{pinned_bytes};

use ir_files::{Folder, Found};
use std::alloc::{AllocError, Global};
use std::cell::Cell;
use std::io::{self, ErrorKind, Read};

// A path, and the bytes that are there; none for a folder.
#[derive(Drop)]
struct Place {
    path: String,
    bytes: Option<Vec<u8>>,
}

// A file that nothing is written over, and that stays where it is.
#[derive(Drop)]
struct Pinned {
    path: String,
    bytes: Vec<u8>,
}

/// Files and folders. The folders are empty. A file may be pinned: then its bytes are known.
#[derive(Drop)]
pub struct Shelf {
    alloc: Global,
    pinned: Option<Pinned>,
    places: Cell<Vec<Place>>,
}

impl Shelf {
    /// Without files.
    pub fn new(alloc: Global) -> Shelf {
        Shelf {
            alloc,
            pinned: None,
            places: Cell::new(Vec::new(alloc)),
        }
    }

    /// With a file that is pinned at a path.
    pub fn with_pinned(alloc: Global, path: &str, bytes: &[u8]) -> Result<Shelf, AllocError>
        ensures { IfOk result (λ s. pinned_bytes (λ p. string_bytes p.path) (λ p. p.bytes.items) s.pinned path.now ≡ Some bytes.now) }
    {
        Ok(Shelf {
            alloc,
            pinned: Some(Pinned {
                path: String::from_str(alloc, path)?,
                bytes: Vec::from_slice(alloc, bytes)?,
            }),
            places: Cell::new(Vec::new(alloc)),
        })
    }

    // The bytes of the file that is pinned at this path, if there is one.
    fn pinned_at(&self, path: &str) -> Option<&[u8]>
        ensures { option_map (λ bytes. bytes.now) result ≡ pinned_bytes (λ p. string_bytes p.path) (λ p. p.bytes.items) self.now.pinned path.now }
    {
        match &self.pinned {
            Some(pinned) if pinned.path.as_str() == path => Some(pinned.bytes.as_slice()),
            _ => None,
        }
    }

    // What is there, until it is put back.
    fn take(&self) -> Vec<Place> {
        self.places.replace(Vec::new(self.alloc))
    }

    fn put_back(&self, places: Vec<Place>) {
        self.places.set(places);
    }

    // Puts a file, or a folder, at a path at which nothing is.
    fn add(&self, path: &str, bytes: Option<Vec<u8>>) -> Result<(), AllocError> {
        let path = String::from_str(self.alloc, path)?;
        let mut places = self.take();
        let is_added = places.push(Place { path, bytes }).is_ok();
        self.put_back(places);
        if is_added { Ok(()) } else { Err(AllocError) }
    }

    /// Puts a file of these bytes at a path at which nothing is.
    pub fn add_file(&self, path: &str, bytes: &[u8]) -> Result<(), AllocError> {
        self.add(path, Some(Vec::from_slice(self.alloc, bytes)?))
    }

    /// Puts a folder at a path at which nothing is.
    pub fn add_folder(&self, path: &str) -> Result<(), AllocError> {
        self.add(path, None)
    }

    // Where a path is among the others, and whether it is a file.
    fn place_of(&self, path: &str) -> Option<(usize, bool)> {
        let places = self.take();
        let mut found = None;
        for (index, place) in places.iter().enumerate() {
            if place.path.as_str() == path {
                found = Some((index, place.bytes.is_some()));
            }
        }
        self.put_back(places);
        found
    }

    /// A copy of the bytes of a file.
    pub fn bytes_of(&self, path: &str) -> Option<Vec<u8>> {
        let (index, _) = self.place_of(path)?;
        let places = self.take();
        let copy = match places.get(index) {
            Some(
                Place {
                    bytes: Some(bytes),
                    ..
                },
            ) => Vec::from_slice(self.alloc, bytes.as_slice()).ok(),
            _ => None,
        };
        self.put_back(places);
        copy
    }

    // Gives the place of this number other bytes.
    fn set(&self, index: usize, bytes: Option<Vec<u8>>) {
        let mut places = self.take();
        if let Some(place) = places.get_mut(index) {
            place.bytes = bytes;
        }
        self.put_back(places);
    }
}

/// An open file of a shelf.
#[derive(Drop)]
pub struct Taken<'a> {
    shelf: &'a Shelf,
    // Where it was opened, and the bytes that it was given since.
    path: String,
    given: Vec<u8>,
    index: usize,
    // How many bytes of it were read.
    at: usize,
    // What is left to be read of a file that is pinned.
    pinned: Option<&'a [u8]>,
}

impl Read for Taken<'_> {
    ghost remaining = { λ t. option_map (λ rest. rest.now) t.pinned };

    fn read(&mut self, buffer: &mut [u8]) -> io::Result<usize> {
        if let Some(rest) = &mut self.pinned {
            return rest.read(buffer);
        }
        let places = self.shelf.take();
        let bytes = match places.get(self.index) {
            Some(
                Place {
                    bytes: Some(bytes),
                    ..
                },
            ) => bytes.as_slice(),
            _ => &[],
        };
        let rest = bytes.get(self.at..).unwrap_or(&[]);
        let count = rest.len().min(buffer.len());
        buffer[..count].copy_from_slice(&rest[..count]);
        self.at = self.at.saturating_add(count);
        self.shelf.put_back(places);
        Ok(count)
    }
}

impl Taken<'_> {
    // Puts these bytes after those of the file in the shelf.
    fn is_put(&self, bytes: &[u8]) -> bool {
        let mut places = self.shelf.take();
        let is_put = match places.get_mut(self.index) {
            Some(
                Place {
                    bytes: Some(kept),
                    ..
                },
            ) => kept.extend_from_slice(bytes).is_ok(),
            _ => false,
        };
        self.shelf.put_back(places);
        is_put
    }
}

// The file of this number at a path, of which nothing was read, and to which nothing was written.
fn taken_at<'a>(
    shelf: &'a Shelf,
    path: &str,
    index: usize,
    pinned: Option<&'a [u8]>,
) -> Result<Taken<'a>, AllocError>
    ensures path { IfOk result (λ t. string_bytes t.path ≡ path.now) }
    ensures given { IfOk result (λ t. t.given.items ≡ []) }
    ensures pinned { IfOk result (λ t. option_map (λ rest. rest.now) t.pinned ≡ option_map (λ rest. rest.now) pinned.entry) }
{
    Ok(Taken {
        shelf,
        path: String::from_str(shelf.alloc, path)?,
        given: Vec::new(shelf.alloc),
        index,
        at: 0,
        pinned,
    })
}

// Why a file that is pinned isn't written over, or put elsewhere.
fn denied() -> io::Error {
    io::Error::from(ErrorKind::PermissionDenied)
}

impl<'a> Folder for &'a Shelf {
    type Open = Taken<'a>;

    // What it was is kept.
    type Closed = Taken<'a>;

    ghost bytes_at = { λ s path. pinned_bytes (λ p. string_bytes p.path) (λ p. p.bytes.items) s.now.pinned path };

    ghost knows = { λ _. true };

    ghost known = { λ t. record { path = Some (string_bytes t.path); bytes = Some t.given.items } };

    ghost known_closed = { λ t. record { path = Some (string_bytes t.path); bytes = Some t.given.items } };

    // The file that is pinned is put nowhere, and nothing is put in its place.
    ghost was_put = { λ s from to. is_none (pinned_bytes (λ p. string_bytes p.path) (λ p. p.bytes.items) s.now.pinned from)
        && is_none (pinned_bytes (λ p. string_bytes p.path) (λ p. p.bytes.items) s.now.pinned to) };

    fn open(&self, path: &str) -> io::Result<Taken<'a>> {
        let pinned = self.pinned_at(path);
        let index = match self.place_of(path) {
            _ if pinned.is_some() => 0,
            Some((index, true)) => index,
            Some(_) => return Err(io::Error::from(ErrorKind::IsADirectory)),
            None => return Err(io::Error::from(ErrorKind::NotFound)),
        };
        Ok(taken_at(self, path, index, pinned)?)
    }

    fn create(&self, path: &str) -> io::Result<Taken<'a>> {
        if self.pinned_at(path).is_some() {
            return Err(denied());
        }
        match self.place_of(path) {
            Some((index, true)) => self.set(index, Some(Vec::new(self.alloc))),
            Some(_) => return Err(io::Error::from(ErrorKind::IsADirectory)),
            None if path.contains('/') => return Err(io::Error::from(ErrorKind::NotFound)),
            None => self.add_file(path, &[])?,
        }
        match self.place_of(path) {
            Some((index, _)) => Ok(taken_at(self, path, index, None)?),
            None => Err(io::Error::from(ErrorKind::NotFound)),
        }
    }

    fn create_new(&self, path: &str) -> io::Result<Taken<'a>> {
        if self.pinned_at(path).is_some() || self.place_of(path).is_some() {
            return Err(io::Error::from(ErrorKind::AlreadyExists));
        }
        Folder::create(self, path)
    }

    fn write(&self, file: &mut Taken<'a>, bytes: &[u8]) -> io::Result<usize> {
        let before = file.given.len();
        file.given.extend_from_slice(bytes)?;
        if file.is_put(bytes) {
            Ok(bytes.len())
        } else {
            file.given.truncate(before);
            Err(io::Error::from(ErrorKind::StorageFull))
        }
    }

    fn close(&self, file: Taken<'a>) -> Taken<'a> {
        file
    }

    fn rename(&self, from: &str, to: &str) -> io::Result<()> {
        if self.pinned_at(from).is_some() || self.pinned_at(to).is_some() {
            return Err(denied());
        }
        let Some(bytes) = self.bytes_of(from) else {
            return Err(io::Error::from(ErrorKind::NotFound));
        };
        match self.place_of(to) {
            Some((index, _)) => self.set(index, Some(bytes)),
            None => self.add(to, Some(bytes))?,
        }
        self.remove(from)
    }

    fn remove(&self, path: &str) -> io::Result<()> {
        let Some((index, _)) = self.place_of(path) else {
            return Err(io::Error::from(ErrorKind::NotFound));
        };
        let mut places = self.take();
        if let Some(place) = places.get_mut(index) {
            place.path.clear();
        }
        self.put_back(places);
        Ok(())
    }

    fn found_at(&self, path: &str) -> Found {
        match self.place_of(path) {
            _ if self.pinned_at(path).is_some() => Found::File(1, 0),
            Some((index, true)) => Found::File(0, index as u64),
            Some(_) => Found::Other,
            None => Found::Nothing,
        }
    }

    fn is_kept(&self, path: &str) -> bool {
        matches!(self.place_of(path), Some((_, false)))
    }
}
