//! Laws of reading back: how it finds the block writes that a power cut lost.
ghost use Rattle.std.specs.Prelude.{◌≡◌, ◌≤◌, ◌-◌, ◌+◌, ◌++◌, ◌∷◌, ℕ, List, drop};
ghost use Rattle.ft_base.specs.PlainDisk.{BlockWrite, PlainDisk};
ghost use Rattle.ft_base.specs.declared.told.Ack.TheVariants as ack;
ghost use Rattle.trace_model.specs.declared.lost.Looked.{Looked};
ghost use Rattle.trace_model.specs.declared.ran.Ran.{Ran};
ghost use Rattle.trace_model.specs.Fits.{FitsNext};
ghost use Rattle.trace_model.specs.Lost.{AreLooked, IsFront, IsLeastLost, IsRightBeside, WasCut, cut_write, first_right};
ghost use Rattle.trace_model.specs.Run.{disk_after, disk_written, with_blocks};

/// Reading back tells the disk exactly, whatever was lost.
pub fn reading_back_tells_the_disk()
    // One look at each block write finds the least number with which the disk reads as it does.
    ensures found { (looked : List Looked) (writes : List BlockWrite) (disk : PlainDisk) → AreLooked looked writes disk
        → IsLeastLost writes disk (first_right looked) }
    ensures once { (writes : List BlockWrite) (disk : PlainDisk) (m n : ℕ) → IsLeastLost writes disk m → IsLeastLost writes disk n → m ≡ n }
    ensures least { (writes older : List BlockWrite) (disk : PlainDisk) (lost least : ℕ)
        → ((a : ℕ) → disk a ≡ disk_written (drop lost writes ++ older) a) → IsLeastLost writes disk least
        → (least ≤ lost) × ((a : ℕ) → disk a ≡ disk_written (drop least writes ++ older) a) }
    // A write line that was cut fits with this number, and the disk is the plain disk after the line.
    ensures line { (lba count tag cuts : ℕ) (earlier : List Ran) (recent older : List BlockWrite) (disk : PlainDisk) (found : ℕ)
        → WasCut lba count tag cuts earlier recent older disk → IsLeastLost (with_blocks lba tag count recent) disk found
        → FitsNext ack.Flush (cut_write lba count tag cuts found) earlier
        × ((a : ℕ) → disk a ≡ disk_after (cut_write lba count tag cuts found ∷ earlier) a) }
{}

/// After a cut write line it is enough to read its first blocks, and then the addresses of the writes before it.
pub fn the_front_tells()
    ensures counts { (lba tag count f : ℕ) (writes : List BlockWrite) (disk : PlainDisk) → IsFront lba tag count f disk
        → IsRightBeside lba f writes disk → IsLeastLost (with_blocks lba tag count writes) disk (count - f) }
    ensures lost { (lba tag count f : ℕ) (writes : List BlockWrite) (disk : PlainDisk) → IsFront lba tag count f disk
        → (IsRightBeside lba f writes disk → ⊥) → (m : ℕ) → IsLeastLost writes disk m
        → IsLeastLost (with_blocks lba tag count writes) disk (count + m) }
{}
