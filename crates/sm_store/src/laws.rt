//! Laws of a base and entries on a disk.
ghost use Rattle.std.specs.Prelude.{◌≡◌, ℕ, List, Option};
ghost use Rattle.sm_disk.specs.OneFile.{EachHas};
ghost use Rattle.sm_disk.specs.Sight.{Image};
ghost use Rattle.sm_journal.specs.Records as records;
ghost use Rattle.sm_journal.specs.declared.format.Format.{Format};
ghost use Rattle.sm_model.specs.declared.entry.Entry.{Entry};
ghost use Rattle.sm_store.specs.Files.{HoldsEither, IsForeign, KeepsList};
ghost use Rattle.sm_store.specs.Stores.{disk_of, file_of, format_of, Holds};
ghost use Rattle.sm_store.specs.Held.{Held, HoldsFile, RecoveredEither, SameHeld};
ghost use Rattle.sm_store.specs.declared.store.Store.{Store};

use sm_disk::Disk;

/// A file holds one thing at most, and a file that holds one isn't damaged, nor are its bodies others than those of a
/// base and entries. What is said of a file has one proof at most, so a type can keep it as a fact.
pub fn a_file_holds_one_thing()
    ensures held { (bytes : List ℕ) (a : Held) (b : Held) → HoldsFile a bytes → HoldsFile b bytes → a ≡ b }
    ensures sound { (bytes : List ℕ) (h : Held) (at : ℕ) (entry : ℕ) → HoldsFile h bytes →
        records.IsDamaged bytes at entry → ⊥ }
    ensures spelled { (bytes : List ℕ) (h : Held) (at : ℕ) (entry : ℕ) → HoldsFile h bytes →
        IsForeign bytes at entry → ⊥ }
    ensures proof { (f : Format) (h : Held) (failed : Option Entry) (bytes : List ℕ) →
        IsProp (HoldsEither f h failed bytes) }
{}

/// What an image recovers to, it recovers to after a step that keeps the list in the file that its root names.
pub fn a_kept_list_holds_the_same()
    ensures { (d : Image) (c : Image) → KeepsList d c → SameHeld d c }
{}

/// What a store holds, each image of its disk has in the store's file, and recovers to: it, or it with the entry whose
/// write may have failed in part. It has one proof at most, so a type can keep it as a fact.
pub fn what_a_store_holds<D: Disk>()
    ensures images { (store : Store D D.Disk) (h : Held) (failed : Option Entry) → Holds store h failed →
        EachHas (file_of store) (HoldsEither (format_of store) h failed) (D.sight (disk_of store)).images }
    ensures recovered { (store : Store D D.Disk) (h : Held) (failed : Option Entry) → Holds store h failed →
        (c : Image) → (D.sight (disk_of store)).images c → RecoveredEither h failed c }
    ensures proof { (store : Store D D.Disk) (h : Held) (failed : Option Entry) →
        IsProp (Holds store h failed) }
{}
