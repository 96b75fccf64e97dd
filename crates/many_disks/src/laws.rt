//! The law of several disks: each disk is alone.
ghost use Rattle.std.specs.Prelude.{◌≡◌, ◌==◌, ◌<◌, ◌+◌, ◌*◌, ◌&&◌, ℕ, not, true, List, filter, map};
ghost use Rattle.ft_base.specs.Told.{Told};
ghost use Rattle.trace_model.specs.Fits.{FitsEnd};
ghost use Rattle.trace_model.specs.Lines.{IsRunnable};
ghost use Rattle.trace_model.specs.Readings.{Reading};
ghost use Rattle.trace_model.specs.Run.{disk_after, end_answers, told};
ghost use Rattle.trace_model.specs.declared.line.Line.{Line};
ghost use Rattle.trace_model.specs.declared.ran.Ran.{Ran};
ghost use Rattle.many_disks.specs.Alone.{WereRunUncut, ends_alone, is_of_disk, is_of_request, is_request, printed_while};
ghost use Rattle.many_disks.specs.Lines.{many_readings, shifted};
ghost use Rattle.many_disks.specs.Told.{answers_printed, is_beside, own, own_end, own_lines, run_printed};

/// A line is none of a disk's own lines exactly if it writes or reads while another disk is chosen.
pub fn own_lines_law()
    ensures { (share disk chosen : ℕ) (line : Line) → IsRunnable share line
        → is_beside share disk (shifted (chosen * share) line) ≡ (is_request line && not (chosen == disk)) }
{}

/// If no stop line and no cut line is run, each disk is as if its own lines alone were run.
pub fn each_disk_is_alone()
    // At the addresses of a disk the plain disk is that after the disk's own lines.
    ensures blocks { (o : Told) (share disks : ℕ) (bytes : List ℕ) (run : List Ran) (left : List Reading)
        → WereRunUncut o share disks bytes run left → (disk a : ℕ) → a < share
        → disk_after run (disk * share + a) ≡ disk_after (own_lines share disk run) (disk * share + a) }
    // With the blocks of either the end line of the disk is the same.
    ensures end { (o : Told) (share disks : ℕ) (bytes : List ℕ) (run : List Ran) (left : List Reading)
        → WereRunUncut o share disks bytes run left → (disk : ℕ)
        → own_end (disk * share) (own_lines share disk run) (disk_after run)
        ≡ own_end (disk * share) (own_lines share disk run) (disk_after (own_lines share disk run)) }
    // The answers of writes and reads at its addresses are those of its own lines.
    ensures answers { (o : Told) (share disks : ℕ) (bytes : List ℕ) (run : List Ran) (left : List Reading)
        → WereRunUncut o share disks bytes run left → (disk : ℕ)
        → filter (is_of_disk share disk) (told run) ≡ filter is_of_request (told (own_lines share disk run)) }
    // They are what was printed of writes and reads while the disk was chosen, each with the disk's own addresses.
    ensures printed { (o : Told) (share disks : ℕ) (bytes : List ℕ) (run : List Ran) (left : List Reading)
        → WereRunUncut o share disks bytes run left → (disk : ℕ)
        → printed_while disk 0 (run_printed share (many_readings share disks true bytes) run)
        ≡ map (own (disk * share)) (filter is_of_request (told (own_lines share disk run))) }
    // What is printed at the end are the end lines of the disks, each by its own lines.
    ensures ends { (o : Told) (share disks : ℕ) (bytes : List ℕ) (run : List Ran) (left : List Reading)
        → WereRunUncut o share disks bytes run left → (start cuts lost : ℕ) → FitsEnd o.ack run cuts lost
        → answers_printed share disks start 0 run (end_answers run cuts lost) ≡ ends_alone share disks run }
{}
