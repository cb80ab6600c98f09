//! The calls that commands make on a file of blobs.

ghost use Rattle.blobctl.specs.Shown.{ListsAll, Stays, View};
ghost use Rattle.pagable_core.specs.{Data.blob_of, Roots.{ListsEach, Sets}};
ghost use Rattle.pagable_file.specs.Copies.{IsCopiedKey, IsCopiedRoot};
ghost use Rattle.pagable_value_spec.specs.Stored.{Keeps};
ghost use Rattle.std.specs.{
  Arc.arc_value,
  List.AllByRecursion,
  Prelude.{IfOk, IsTrue, OnOk, Some, map, ◌≡◌},
  String.string_bytes,
};

use pagable_codec::Env;
use pagable_core::{PagableData, PagableStorage, Roots};
use pagable_file::copy::{copy, copy_keys};
use pagable_file::{FileBlobs, FileOfBlobs, Flaw, ListedBlob, LoggedRoot, OpenError, Watch};
use pagable_flavors::{DataKey, Error};
use sqlite_disk::Disk;
use std::alloc::Global;
use std::sync::Arc;

/// An open file of blobs. Each call makes the call of `FileBlobs` that does the same, and has its errors.
pub trait Blobs: Drop {
    // The blobs and names that the file has, flushed or not.
    ghost view: { Self → View };

    /// Lists all blobs, also those that wait for a flush.
    fn list(&mut self, alloc: Global) -> Result<Vec<ListedBlob>, Error>
        ensures all { IsTrue (view self.new).is_honest
            → IfOk result (λ all. ListsAll (view self.old).blob all.items) }
        ensures stays { Stays (view self.old) (view self.new) };

    /// Lists each name that stands for a key, once, also those that wait for a flush.
    fn root_names(&mut self, alloc: Global) -> Result<Vec<String>, Error>
        ensures each { IsTrue (view self.new).is_honest
            → IfOk result (λ names. ListsEach (view self.old).key (map string_bytes names.items)) }
        ensures stays { Stays (view self.old) (view self.new) };

    /// Returns the key that a name stands for, if it stands for one.
    fn root(&mut self, name: &str) -> Result<Option<DataKey>, Error>
        ensures key { IsTrue (view self.new).is_honest → IfOk result (λ key. key ≡ (view self.old).key name.now) }
        ensures stays { Stays (view self.old) (view self.new) };

    /// Lists which key each name was made to stand for, in this order, also what waits for a flush.
    fn root_log(&mut self, alloc: Global) -> Result<Vec<LoggedRoot>, Error>
        ensures stays { Stays (view self.old) (view self.new) };

    /// Fetches the blob under a key.
    fn fetch(&mut self, alloc: Global, key: DataKey) -> Result<Arc<PagableData>, Error>
        ensures found { IsTrue (view self.new).is_honest
            → IfOk result (λ found. (view self.old).blob key ≡ Some (blob_of (arc_value found))) }
        ensures stays { Stays (view self.old) (view self.new) };

    /// Tests the whole file, and returns its flaws.
    fn fsck<W: Watch>(&mut self, alloc: Global, watch: &mut W) -> Result<Vec<Flaw>, Error>
        ensures stays { Stays (view self.old) (view self.new) };

    /// Tests what the root of a name reaches, and returns its flaws.
    fn fsck_root<W: Watch>(
        &mut self,
        alloc: Global,
        name: &str,
        watch: &mut W,
    ) -> Result<Vec<Flaw>, Error>
        ensures stays { Stays (view self.old) (view self.new) };

    /// Counts the bytes behind the last flush, which are ignored.
    fn count_tail(&mut self) -> Result<u64, Error>
        ensures stays { Stays (view self.old) (view self.new) };

    /// Makes a name stand for a key, or for none.
    fn set_root(&mut self, alloc: Global, name: &str, key: Option<DataKey>) -> Result<(), Error>
        ensures sets { IsTrue (view self.new).is_honest → OnOk result
            (Sets name.now key (view self.old).key (view self.new).key) }
        ensures blobs { IsTrue (view self.new).is_honest
            → (view self.new).blob ≡ (view self.old).blob }
        ensures honest { IsTrue (view self.new).is_honest
            → IsTrue (view self.old).is_honest };

    /// Stores a blob, and returns its key.
    fn store(&mut self, alloc: Global, blob: PagableData) -> Result<DataKey, Error>
        ensures stored { IsTrue (view self.new).is_honest
            → IfOk result (λ key. (view self.new).blob key ≡ Some (blob_of blob)) }
        ensures keeps { IsTrue (view self.new).is_honest
            → Keeps (view self.old).blob (view self.new).blob }
        ensures names { IsTrue (view self.new).is_honest
            → (view self.new).key ≡ (view self.old).key }
        ensures honest { IsTrue (view self.new).is_honest
            → IsTrue (view self.old).is_honest };

    /// Commits what was stored, and which names were set.
    fn flush(&mut self) -> Result<(), Error>
        ensures stays { Stays (view self.old) (view self.new) };

    /// Copies into another file what the roots of names reach, and returns how many blobs that is.
    fn copy<W: Watch>(
        &mut self,
        alloc: Global,
        to: &mut Self,
        names: &[String],
        watch: &mut W,
    ) -> Result<usize, Error>
        ensures stays { Stays (view self.old) (view self.new) }
        ensures copied { IsTrue (view self.new).is_honest → IsTrue (view to.new).is_honest
            → OnOk result (AllByRecursion (λ name. IsCopiedRoot (view self.old).blob
            (view to.new).blob (view self.old).key (view to.new).key
            (string_bytes name)) names.now) }
        ensures keeps { IsTrue (view to.new).is_honest
            → Keeps (view to.old).blob (view to.new).blob }
        ensures honest { IsTrue (view to.new).is_honest → IsTrue (view to.old).is_honest };

    /// Copies into another file what keys reach.
    fn copy_keys<W: Watch>(
        &mut self,
        alloc: Global,
        to: &mut Self,
        keys: &[DataKey],
        watch: &mut W,
    ) -> Result<(), Error>
        ensures stays { Stays (view self.old) (view self.new) }
        ensures copied { IsTrue (view self.new).is_honest → IsTrue (view to.new).is_honest
            → OnOk result (AllByRecursion (IsCopiedKey (view self.old).blob
            (view to.new).blob) keys.now) }
        ensures honest { IsTrue (view to.new).is_honest → IsTrue (view to.old).is_honest };
}

/// Blobs in the file of a path.
pub trait BlobsInFile: Blobs {
    /// Opens the file of a path to write it, or makes it. It is locked as long as this lives.
    fn open(rt: &HostRuntime, path: &str) -> Result<Self, OpenError>;

    /// Opens the file of a path to look at it: no byte is written.
    fn read(rt: &HostRuntime, path: &str) -> Result<Self, OpenError>;
}

impl<E: Env> BlobsInFile for FileOfBlobs<E> {
    fn open(rt: &HostRuntime, path: &str) -> Result<FileOfBlobs<E>, OpenError> {
        FileBlobs::open(rt, path)
    }

    fn read(rt: &HostRuntime, path: &str) -> Result<FileOfBlobs<E>, OpenError> {
        FileBlobs::read(rt, path)
    }
}

impl<E: Env, D: Disk + Drop> Blobs for FileBlobs<E, D> {
    ghost view = { λ s. record {
      is_honest = ⟦<FileBlobs<E, D> as PagableStorage<E>>⟧.is_honest s;
      blob = ⟦<FileBlobs<E, D> as PagableStorage<E>>⟧.stored s;
      key = ⟦<FileBlobs<E, D> as PagableStorage<E>>⟧.roots s;
    } };

    fn list(&mut self, alloc: Global) -> Result<Vec<ListedBlob>, Error> {
        FileBlobs::list(self, alloc)
    }

    fn root_names(&mut self, alloc: Global) -> Result<Vec<String>, Error> {
        Roots::root_names(self, alloc)
    }

    fn root(&mut self, name: &str) -> Result<Option<DataKey>, Error> {
        Roots::root(self, name)
    }

    fn root_log(&mut self, alloc: Global) -> Result<Vec<LoggedRoot>, Error> {
        FileBlobs::root_log(self, alloc)
    }

    fn fetch(&mut self, alloc: Global, key: DataKey) -> Result<Arc<PagableData>, Error> {
        self.fetch_data_blocking(alloc, key)
    }

    fn fsck<W: Watch>(&mut self, alloc: Global, watch: &mut W) -> Result<Vec<Flaw>, Error> {
        FileBlobs::fsck(self, alloc, watch)
    }

    fn fsck_root<W: Watch>(
        &mut self,
        alloc: Global,
        name: &str,
        watch: &mut W,
    ) -> Result<Vec<Flaw>, Error> {
        FileBlobs::fsck_root(self, alloc, name, watch)
    }

    fn count_tail(&mut self) -> Result<u64, Error> {
        FileBlobs::count_tail(self)
    }

    fn set_root(&mut self, alloc: Global, name: &str, key: Option<DataKey>) -> Result<(), Error> {
        Roots::set_root(self, alloc, name, key)
    }

    fn store(&mut self, alloc: Global, blob: PagableData) -> Result<DataKey, Error> {
        self.store_data(alloc, blob)
    }

    fn flush(&mut self) -> Result<(), Error> {
        PagableStorage::flush(self)
    }

    fn copy<W: Watch>(
        &mut self,
        alloc: Global,
        to: &mut Self,
        names: &[String],
        watch: &mut W,
    ) -> Result<usize, Error> {
        copy(alloc, self, to, names, watch)
    }

    fn copy_keys<W: Watch>(
        &mut self,
        alloc: Global,
        to: &mut Self,
        keys: &[DataKey],
        watch: &mut W,
    ) -> Result<(), Error> {
        copy_keys(alloc, self, to, keys, watch)
    }
}
